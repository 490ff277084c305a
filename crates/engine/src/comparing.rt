// The service compare: the old circuit driven by a sheet's table beside the golden one, 1,024 inputs at a time.
ghost use Rattle.std.specs.Prelude.{◌≡◌, List, ℕ, ◌+◌, ◌≤◌, ◌<◌, length};
ghost use Rattle.records.specs.Job.{Job};
ghost use Rattle.records.specs.Parts.{PartsOf};
ghost use Rattle.engine.specs.Compare.{difference};
ghost use Rattle.engine.specs.Reply.{comparison_of, compare_told, compare_reply};
ghost use Rattle.engine.specs.Inner.Miter.{SomeParts};
ghost use Rattle.engine.specs.Inner.Comparing.{PlanReads, TableCopied, sheet_comparison};

use super::drive::{driven_row, table_rows};
use super::leaves::block_inputs;
use super::limits::{BLOCK, READINGS, WORDS};
use super::merge::merged_miter;
use super::plan::Plan;
use super::planning::plan_of;
use super::search::read_block;
use super::table::reading_count;
use super::word::first_zero;
use records::{JobParts, Refusal, load, read_sheet};

#[derive(Clone, Copy)]
pub struct DifferingInput {
    pub input: u32,
}

// Equal, or the smallest input at which the driven old outputs differ from the golden ones.
// An enum of its own: the definition comparison_of names its cases, and None would not say that the outputs are equal.
#[derive(Clone, Copy)]
pub enum Comparison {
    Equal,
    Differs(DifferingInput),
}

// The smallest input at which the old outputs driven by the table differ from the golden ones. It costs, for each block of 1,024
// inputs up to the one with the difference, one gate evaluation a gate of both netlists.
fn first_difference(plan: &Plan, table: &[u16; READINGS]) -> Comparison
    ensures { (j : Job) (is : List ℕ) → PlanReads j is plan.now
        → (compare_told (Ok result)).result ≡ comparison_of (difference j is table.now) }
{
    let size = 1usize << plan.inputs;
    let mut words = [0u64; WORDS];
    for b in 0..size.div_ceil(BLOCK) {
        let readings = read_block(plan, b, &mut words);
        let vectors = table_rows(readings, table);
        let row = driven_row(plan, &vectors, 0, &mut words);
        let count = block_inputs(size - BLOCK * b);
        let y = first_zero(row);
        if y < count {
            return Comparison::Differs(DifferingInput {
                input: (BLOCK * b + y) as u32,
            });
        }
    }
    Comparison::Equal
}

// The count entries of a table that stands from start on among a sheet's bytes, 0 behind them.
fn table_of(sheet: &[u8], start: usize, count: usize) -> [u16; READINGS]
    requires { (count ≤ 1024) × (start + count ≤ length sheet.now) }
    ensures { TableCopied sheet.now start count result }
{
    let mut table = [0u16; READINGS];
    for (k, &byte) in sheet[start..start + count].iter().enumerate() {
        table[k] = u16::from(byte);
    }
    table
}

// The comparison of a good job with a sheet's bytes.
fn compare_sheet(job: &JobParts, sheet: &[u8]) -> Result<Comparison, Refusal>
    requires { SomeParts job.now }
    ensures { (j : Job) → PartsOf j job.now → compare_told result ≡ sheet_comparison j sheet.now }
{
    let counts = job.counts;
    let patch = read_sheet(
        counts.targets,
        counts.candidates,
        &job.nets,
        &job.weights,
        sheet,
    )?;
    let support = patch.support;
    let table = table_of(sheet, patch.table, reading_count(support.len));
    let plan = plan_of(&merged_miter(job), support, 0);
    Ok(first_difference(&plan, &table))
}

// The service compare: whether the old circuit driven by the sheet's table has the golden outputs, or the smallest input at
// which it has not. Refused are what read refuses of the job and read_sheet of the sheet. It costs, for each block of 1,024 inputs
// up to the one with the difference, one gate evaluation a gate of both netlists, but for what judge leaves out too.
pub fn compare(job: &[u8], sheet: &[u8]) -> Result<Comparison, Refusal>
    ensures { compare_told result ≡ compare_reply job.now sheet.now }
{
    compare_sheet(&load(job)?, sheet)
}
