// The walk over all inputs of a job that gives its vector list. Most blocks leave the list as it is, as a listed vector rectifies each of
// their inputs. Where few are listed, these are evaluated one after the other until each input is covered. Else it is shown at the cost of
// one or two vectors: two tables of listed vectors drive the old circuit, one after the other. At each reading of the candidates the first
// has one that rectified the inputs looked at which give it, up to one for which there was none, and the second one that rectified those
// from there on which the first did not. Where an input is left, all vectors are evaluated, and the tables learn.
ghost use Rattle.std.specs.Prelude.{◌≡◌, true, false, ℕ, ◌*◌, ◌^◌, ◌≤◌, ◌<◌, eqb};
ghost use Rattle.records.specs.Job.{Job};
ghost use Rattle.engine.specs.Choice.{any};
ghost use Rattle.engine.specs.Eval.{bit};
ghost use Rattle.engine.specs.Support.{candidate_nets};
ghost use Rattle.engine.specs.Inner.List.{listed_of};
ghost use Rattle.engine.specs.Inner.Search.{FreeKept};
ghost use Rattle.engine.specs.Inner.Plan.{TurnsOf};
ghost use Rattle.engine.specs.Inner.Guess.{ListTo, listed_pair, OfListed, BlockGuessed, BlockShown, BlockListed};

use super::drive::{driven_row, table_rows};
use super::leaves::{block_inputs, equal_row};
use super::limits::{BLOCK, READINGS, ROW, ROWS, VECTORS, WORD, WORDS};
use super::list::Vectors;
use super::masks::masks_of;
use super::note::{list_block, sort_block};
use super::plan::Plan;
use super::search::{first_tries, read_block, settled_from, vector_block};
use super::trust::{first_trust, more, next_tries, next_trust};
use super::word::{first_zero, join_rows, lowest_of};
use std::array;

// The vector list after a block, how far the tables are trusted then, and whether they are to be made anew.
#[derive(Drop)]
pub struct Listing {
    pub list: Vectors,
    pub trust: usize,
    pub anew: bool,
}

// How it is shown that a block leaves the list as it is: by the listed vectors themselves, by the tables, or not at all.
#[derive(Drop)]
enum Shown {
    Listed,
    Tables,
    Not,
}

// The listed vectors, as a set.
fn listed_set(list: &Vectors) -> usize
    ensures { (v : ℕ) → v < 16 → bit v result ≡ 1 → any (eqb v) (listed_of list.now).vectors ≡ true }
{
    let mut set = 0usize;
    for &v in list.listed() {
        set |= 1 << v;
    }
    set
}

// The smallest listed vector of the first of two sets and, 16 times, that of the second, 0 where there is none.
fn listed_pair(both: usize, listed: usize) -> u16
    ensures { result ≡ listed_pair listed both }
{
    let first = lowest_of(both & listed);
    let second = lowest_of((both >> 16) & listed);
    (first + VECTORS * second) as u16
}

// The two tables: such a pair at each reading.
fn listed_table(sets: &[u32; READINGS], list: &Vectors) -> [u16; READINGS]
    ensures { OfListed list.now result }
{
    let listed = listed_set(list);
    array::from_fn(|r| listed_pair(sets[r] as usize, listed))
}

// Whether each of the first count inputs of a block is rectified by one of the two tables' vectors. It costs one gate evaluation a gate that a
// target leads to, for each table that is tried, and some 1,000 steps.
fn guess_block(
    plan: &Plan,
    readings: [u64; ROWS],
    table: &[u16; READINGS],
    count: usize,
    words: &mut [u64; WORDS],
) -> bool
    ensures free_kept { FreeKept plan.now words.old words.new }
    ensures block_guessed { result ≡ true → BlockGuessed plan.now words.old readings table.now count }
{
    let vectors = table_rows(readings, table);
    let one = driven_row(plan, &vectors, 0, words);
    if count <= first_zero(one) {
        return true;
    }
    let two = driven_row(plan, &vectors, 4, words);
    count <= first_zero(join_rows(one, two))
}

// Whether listed vectors rectify each of the first count inputs of a block. It costs, for each listed vector up to the one with which they
// do, one gate evaluation a gate that a target leads to.
fn try_listed(plan: &Plan, list: Vectors, count: usize, words: &mut [u64; WORDS]) -> bool
    ensures free_kept { FreeKept plan.now words.old words.new }
    ensures block_shown { result ≡ true → BlockShown plan.now words.old list count }
{
    let mut row = [0u64; ROW];
    for &v in list.listed() {
        vector_block(plan, v as usize, words);
        let next = join_rows(row, equal_row(plan, words));
        row = next;
        if count <= first_zero(row) {
            return true;
        }
    }
    false
}

// Whether evaluating so many listed vectors costs less than what else there is: where the tables are not trusted all vectors, and else looking
// a block up in them, which takes as long as one vector more with some 200 gates in the fanout.
fn few_listed(plan: &Plan, len: usize, trust: usize) -> bool {
    if trust == 0 {
        return len < 1usize << plan.targets;
    }
    let vector = 2 * plan.ends[1] + 3 * plan.outs;
    let free = 2 * plan.ends[0];
    match len {
        1 => true,
        2 => vector < free + 450,
        3 => vector < free + 225,
        4 => vector < free + 150,
        _ => false,
    }
}

// How it is shown that a block leaves the list as it is: that way is tried which costs less.
fn shown_by(
    plan: &Plan,
    readings: [u64; ROWS],
    list: Vectors,
    trust: usize,
    table: &[u16; READINGS],
    count: usize,
    words: &mut [u64; WORDS],
) -> Shown
    ensures free_kept { FreeKept plan.now words.old words.new }
    ensures block_shown { (result ≡ Shown.Listed → BlockShown plan.now words.old list count)
        × (result ≡ Shown.Tables → (0 < trust)
        × BlockGuessed plan.now words.old readings table.now count) }
{
    if few_listed(plan, list.len, trust) {
        if try_listed(plan, list, count, words) {
            return Shown::Listed;
        }
        return Shown::Not;
    }
    if trust == 0 {
        return Shown::Not;
    }
    if guess_block(plan, readings, table, count, words) {
        return Shown::Tables;
    }
    Shown::Not
}

// The list after the inputs of block b, and what the sets of the tables become where all vectors are evaluated, as they are on the first
// block. Where listed vectors or the tables show that it stays, it costs one gate evaluation a gate of both netlists, and one more for each
// gate that a target leads to and each vector more that is tried; else that, those of the masks, and some 2,000 steps.
fn list_inputs(
    plan: &Plan,
    b: usize,
    list: Vectors,
    trust: usize,
    table: &[u16; READINGS],
    sets: &mut [u32; READINGS],
    words: &mut [u64; WORDS],
) -> Listing
    requires { (1024 * b < 2 ^ plan.now.inputs) × (0 < trust → OfListed list table.now) × (trust ≤ 64) }
    ensures { BlockListed plan.now b list result.list × (result.trust ≤ 64)
        × (result.anew ≡ false → 0 < result.trust → OfListed result.list table.now) }
{
    let count = block_inputs((1usize << plan.inputs) - BLOCK * b);
    let readings = read_block(plan, b, words);
    if 0 < b {
        let by = shown_by(plan, readings, list, trust, table, count, words);
        match by {
            Shown::Listed => {
                return Listing {
                    list,
                    trust,
                    anew: false,
                };
            }
            Shown::Tables => {
                return Listing {
                    list,
                    trust: more(trust),
                    anew: false,
                };
            }
            Shown::Not => {}
        }
    }
    vector_block(plan, 0, words);
    let masks = masks_of(plan, words);
    let next = next_trust(trust, b);
    if 0 < next {
        sort_block(masks, readings, count.div_ceil(WORD), sets);
    }
    Listing {
        list: list_block(masks, BLOCK * b, count, list),
        trust: next,
        anew: 0 < next,
    }
}

// The vector list over all inputs. It ends at the first block with an input that no vector rectifies. Blocks that partial evaluation settles
// are skipped; that is given up where it settles too little.
pub(super) fn list_of_inputs(plan: &Plan) -> Vectors
    ensures { (j : Job) → TurnsOf j (candidate_nets j) plan.now → ListTo j (2 ^ j.inputs) result }
{
    let size = 1usize << plan.inputs;
    let mut words = [0u64; WORDS];
    let mut sets = [!0u32; READINGS];
    let mut table = [0u16; READINGS];
    let mut list = Vectors::start();
    let mut trust = first_trust(plan.inputs, 14);
    let mut tries = first_tries(plan);
    // A while, since a step is one block or the 32 that are skipped.
    let mut b = 0usize;
    while BLOCK * b < size {
        let skip = settled_from(plan, b, tries);
        tries = next_tries(tries, b, skip);
        if skip == 0 {
            let next = list_inputs(plan, b, list, trust, &table, &mut sets, &mut words);
            list = next.list;
            if list.stuck.is_some() {
                return list;
            }
            trust = next.trust;
            if next.anew {
                table = listed_table(&sets, &list);
            }
            b += 1;
        } else {
            b += skip;
        }
    }
    list
}
