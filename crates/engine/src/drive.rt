// The targets of a block driven by a table: each scenario's reading gives the vector to which its targets are set. Transposed, a word
// of the readings' rows has four readings, and the entries at them are the word of four vectors.
ghost use Rattle.std.specs.Prelude.{◌≡◌, ℕ, ◌+◌, ◌%◌, ◌≤◌, ◌<◌, get_or};
ghost use Rattle.engine.specs.Inner.Kernel.{value_in, NetsSet};
ghost use Rattle.engine.specs.Inner.Note.{gathered};
ghost use Rattle.engine.specs.Inner.Search.{RowsSay, DrivenRow};
ghost use Rattle.engine.specs.Inner.Turn.{Looked};

use super::kernel::run;
use super::leaves::{equal_row, row_of, set_row};
use super::limits::{READING, READINGS, ROW, ROWS, WORDS};
use super::plan::Plan;
use super::turn::transpose;

// The table's entry at a reading.
fn look(reading: u64, table: &[u16; READINGS]) -> u64
    ensures { (result ≡ get_or table.now (reading % 1024) 0) × (result < 65536) }
{
    table[(reading % READING) as usize] as u64
}

// .. at the four readings that a word holds
fn look_four(readings: u64, table: &[u16; READINGS]) -> u64
    ensures { Looked table.now readings result }
{
    let a = look(readings, table);
    let b = look(readings >> 16, table);
    let c = look(readings >> 32, table);
    let d = look(readings >> 48, table);
    a + (b << 16) + (c << 32) + (d << 48)
}

// The rows of the vectors that a table gives for the readings of a block's inputs.
pub(super) fn table_rows(mut readings: [u64; ROWS], table: &[u16; READINGS]) -> [u64; ROWS]
    ensures { (y : ℕ) → y < 1024 → gathered result y ≡ get_or table.now (gathered readings y % 1024) 0 }
{
    transpose(&mut readings, ROW);
    for four in &mut readings {
        *four = look_four(*four, table);
    }
    transpose(&mut readings, ROW);
    readings
}

// The rows from row first on become those of the targets.
fn set_targets(plan: &Plan, rows: &[u64; ROWS], first: usize, words: &mut [u64; WORDS])
    requires { first ≤ 12 }
    ensures { NetsSet plan.now.inputs plan.now.targets (λ y k. value_in rows.now y (first + k)) words.old words.new }
{
    // By number, since i gives the net and the row.
    for i in 0..plan.targets {
        set_row(plan.inputs + i, row_of(first + i, rows), words);
    }
}

// The targets of a block set to the vectors of the rows from row first on, and what they lead to evaluated: bit y of the row is 1 exactly when
// vector y rectifies the block's input y. Nets that no target leads to have their values already, and keep them. It costs one gate
// evaluation a gate that a target leads to.
pub(super) fn driven_row(
    plan: &Plan,
    rows: &[u64; ROWS],
    first: usize,
    words: &mut [u64; WORDS],
) -> [u64; ROW]
    requires { first ≤ 12 }
    ensures { (u : ℕ → ℕ) → RowsSay rows.now first plan.now.targets u
        → DrivenRow plan.now u words.old result words.new }
{
    set_targets(plan, rows, first, words);
    run(&plan.gates, plan.ends[0], plan.ends[1], words);
    equal_row(plan, words)
}
