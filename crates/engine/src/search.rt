// The walk over all inputs of a job that gives the set of vectors of each reading: block by block, 1,024 inputs each, from the lowest on. Most
// blocks leave the sets as they are; where each set has one vector, or none, that is shown at the cost of one vector (src/sole.rt).
ghost use Rattle.std.specs.Prelude.{◌≡◌, true, ◌-◌, ◌*◌, ◌^◌, ◌≤◌, ◌<◌};
ghost use Rattle.records.specs.Job.{Job};
ghost use Rattle.engine.specs.Support.{candidate_nets};
ghost use Rattle.engine.specs.Inner.Search.{SetsTo, BlockRange, BlockLoaded, BlockRead, BlockVector, BlockMet, SoleTable, SettledFrom};
ghost use Rattle.engine.specs.Inner.Plan.{TurnsOf};

use super::kernel::run;
use super::leaves::{block_inputs, load_inputs, read_rows, set_vector};
use super::limits::{
    BLOCK, LAST_RANGE, RANGE, RANGE_INPUTS, READINGS, ROWS, TRIES, TRUST, UNSEEN, WORD, WORDS,
};
use super::masks::masks_of;
use super::note::meet_block;
use super::plan::Plan;
use super::ranges::settled;
use super::sole::{NOT_SOLE, keep_block, sole_table};
use super::trust::{first_pace, next_pace, next_tries};
use records::INPUTS;

// The words of block b on the nets that no target leads to. It costs one gate evaluation a gate of these, for 1,024 inputs.
pub(super) fn free_block(plan: &Plan, b: usize, words: &mut [u64; WORDS])
    requires { b < 65536 }
    ensures { BlockLoaded plan.now b words.new }
{
    load_inputs(plan.inputs, b, words);
    run(&plan.gates, 0, plan.ends[0], words);
}

// .. and the rows of the nets read
pub(super) fn read_block(plan: &Plan, b: usize, words: &mut [u64; WORDS]) -> [u64; ROWS]
    requires { b < 65536 }
    ensures { BlockRead plan.now b words.new result }
{
    free_block(plan, b, words);
    read_rows(plan, words)
}

// The words of a block at a vector, from those on the nets that no target leads to. It costs one gate evaluation a gate that one leads to.
pub(super) fn vector_block(plan: &Plan, vector: usize, words: &mut [u64; WORDS])
    ensures { BlockVector plan.now vector words.old words.new }
{
    set_vector(plan.inputs, plan.targets, vector, words);
    run(&plan.gates, plan.ends[0], plan.ends[1], words);
}

// How many tries of partial evaluation may settle nothing: few, but where it settles the last 2 ^ 15 inputs, as it does on a job whose outputs
// a high input holds still, it is tried to the end.
pub(super) fn first_tries(plan: &Plan) -> usize
    ensures { result ≤ 64 }
{
    if plan.inputs < RANGE_INPUTS {
        return 0;
    }
    if settled(plan, RANGE_INPUTS, LAST_RANGE >> (INPUTS - plan.inputs)) {
        return TRUST;
    }
    TRIES
}

// How many blocks from b on need no look: 32 where partial evaluation shows that their 2 ^ 15 inputs are rectified by every vector, else 0.
// It is tried at every 32nd block while there are tries left, and costs one gate evaluation a gate there.
pub(super) fn settled_from(plan: &Plan, b: usize, tries: usize) -> usize
    requires { 1024 * b < 2 ^ plan.now.inputs }
    ensures { SettledFrom plan.now b result }
{
    if tries == 0 {
        return 0;
    }
    if plan.inputs < RANGE_INPUTS {
        return 0;
    }
    if b % RANGE != 0 {
        return 0;
    }
    if settled(plan, RANGE_INPUTS, b / RANGE) {
        return RANGE;
    }
    0
}

// The sets of all readings, and which ranges of 2 ^ 15 inputs were skipped, bit i for range i. Bit 16 of a set is 1 until an input that is looked at
// gives the reading.
#[derive(Drop)]
pub struct Met {
    pub sets: [u32; READINGS],
    pub skipped: usize,
}

// The sets after the first count inputs of block b. Where the table of readings' only vectors is tried and shows that they stay as they are,
// which is told, it costs one gate evaluation a gate of both netlists; else that, those of the masks, and some 1,000 steps.
fn meet_inputs(
    plan: &Plan,
    b: usize,
    count: usize,
    tried: bool,
    table: &[u16; READINGS],
    sets: &mut [u32; READINGS],
    words: &mut [u64; WORDS],
) -> bool
    requires { BlockRange plan.now.inputs b count × (tried ≡ true → SoleTable sets.old table.now) }
    ensures block_met { BlockMet plan.now b count sets.old sets.new }
    ensures tried_value { result ≡ true → (tried ≡ true) × (sets.new ≡ sets.old) }
{
    let readings = read_block(plan, b, words);
    if tried {
        if keep_block(plan, readings, table, words) {
            return true;
        }
    }
    vector_block(plan, 0, words);
    let masks = masks_of(plan, words);
    meet_block(masks, readings, count.div_ceil(WORD), sets);
    false
}

// The set of all vectors of so many targets.
pub(super) fn all_vectors(targets: usize) -> u16
    requires { targets ≤ 4 }
    ensures { result ≡ 2 ^ 2 ^ targets - 1 }
{
    match targets {
        0 => 1,
        1 => 3,
        2 => 15,
        3 => 255,
        _ => 65535,
    }
}

// The sets of all readings. It costs, for each block of 1,024 inputs, one gate evaluation a gate of both netlists and, where the table does not
// do, those of the masks, less what partial evaluation skips; and, for each try of that, one a gate. It is given up where it settles too little.
pub(super) fn sets_of_inputs(plan: &Plan) -> Met
    ensures { (j : Job) → TurnsOf j (candidate_nets j) plan.now → SetsTo j (2 ^ j.inputs) result.skipped result.sets }
{
    let size = 1usize << plan.inputs;
    let mut words = [0u64; WORDS];
    let mut sets = [UNSEEN + all_vectors(plan.targets) as u32; READINGS];
    let mut pace = first_pace(plan.inputs, 17);
    let mut table = [NOT_SOLE; READINGS];
    let mut tries = first_tries(plan);
    let mut skipped = 0usize;
    // A while, since a step is one block or the 32 that are skipped.
    let mut b = 0usize;
    while BLOCK * b < size {
        let skip = settled_from(plan, b, tries);
        tries = next_tries(tries, b, skip);
        if skip == 0 {
            let count = block_inputs(size - BLOCK * b);
            let kept = meet_inputs(
                plan,
                b,
                count,
                pace.wait == 0,
                &table,
                &mut sets,
                &mut words,
            );
            pace = next_pace(pace, kept);
            if !kept & (pace.wait == 0) {
                table = sole_table(&sets);
            }
            b += 1;
        } else {
            skipped = skipped | (1usize << (b / RANGE));
            b += skip;
        }
    }
    Met { sets, skipped }
}
