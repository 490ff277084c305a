// The readings that an input gave and whose sets have one vector, or none: a block whose inputs give only such readings leaves the sets as they
// are where each reading's vector rectifies its inputs, and that is shown at the cost of one vector.
ghost use Rattle.std.specs.Prelude.{◌≡◌, true, List, ℕ};
ghost use Rattle.engine.specs.Inner.Search.{FreeKept, sole_of, SoleTable, BlockKept};

use super::drive::{driven_row, table_rows};
use super::leaves::row_of;
use super::limits::{BLOCK, READINGS, ROWS, UNSEEN, WORDS};
use super::plan::Plan;
use super::word::{first_zero, join_rows, lowest_of, zero_row};
use std::array;

// What the table has where there is no only vector: the set is empty; it has several, or no input gave its reading. They are numbers, as the
// entries are taken bit by bit: transposed, those at a block's readings have the vectors in rows 0 to 3, NO_VECTOR in row 4 and NOT_SOLE in row 5.
const NO_VECTOR: u16 = 16;

pub(super) const NOT_SOLE: u16 = 32;

// The only vector of a set; 16 where it has none, 32 where it has several, or no input gave its reading.
fn sole_of(set: u32) -> u16
    ensures { result ≡ sole_of set }
{
    if set == 0 {
        return NO_VECTOR;
    }
    if UNSEEN <= set {
        return NOT_SOLE;
    }
    if set & (set - 1) != 0 {
        return NOT_SOLE;
    }
    lowest_of(set as usize) as u16
}

// .. of the set of each reading
pub(super) fn sole_table(sets: &[u32; READINGS]) -> [u16; READINGS]
    ensures { SoleTable sets.now result }
{
    array::from_fn(|r| sole_of(sets[r]))
}

// Whether no input of a block gives a reading that none gave before, or whose set has several vectors, and each set's vector rectifies the
// inputs that give its reading. It costs one gate evaluation a gate that a target leads to, and some 1,000 steps.
pub(super) fn keep_block(
    plan: &Plan,
    readings: [u64; ROWS],
    table: &[u16; READINGS],
    words: &mut [u64; WORDS],
) -> bool
    ensures free_kept { FreeKept plan.now words.old words.new }
    ensures block_kept { result ≡ true → (ss : List ℕ) → SoleTable ss table.now
        → BlockKept plan.now readings words.old ss }
{
    let vectors = table_rows(readings, table);
    if !zero_row(row_of(5, &vectors)) {
        return false;
    }
    let row = driven_row(plan, &vectors, 0, words);
    BLOCK <= first_zero(join_rows(row, row_of(4, &vectors)))
}
