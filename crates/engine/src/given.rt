// Which readings of a support inputs give. A reading is unseen while no input looked at gives it: bit 16 of its set is 1.
ghost use Rattle.std.specs.Prelude.{◌≡◌, true, List, ℕ, ◌/◌, ◌<◌, eqb, take};
ghost use Rattle.records.specs.Bytes.{all as all'};
ghost use Rattle.records.specs.Job.{Job};
ghost use Rattle.records.specs.Refusal.{candidate_good};
ghost use Rattle.engine.specs.Eval.{bit};
ghost use Rattle.engine.specs.Inner.Miter.{MergedOf};
ghost use Rattle.engine.specs.Inner.Plan.{NetsRead};
ghost use Rattle.engine.specs.Inner.Search.{BlockRange};
ghost use Rattle.engine.specs.Inner.Best.{GivenBits};
ghost use Rattle.engine.specs.Inner.Imply.{NoneGives};
ghost use Rattle.engine.specs.Inner.Given.{GivenCover, Covered, BlockSeen, Unseen, SameVectors, AllSeen};

use super::cover::{cover_of, gives_cover, next_unseen, unseen_count};
use super::cube::Cover;
use super::imply::unrefuted;
use super::leaves::{block_inputs, read_rows};
use super::limits::{BLOCK, RANGE, READINGS, RENEWALS, ROWS, SPLITS, TESTED, WORD, WORDS};
use super::miter::Miter;
use super::note::meet_block;
use super::plan::Plan;
use super::planning::reads_of;
use super::search::free_block;
use super::table::reading_count;
use records::Support;

// The sets after the first count inputs of block b: each clears the bit of its reading, as it would narrow its set by all vectors. Where no input
// gives a reading of the cover they stay as they are. It costs one gate evaluation a gate of the plan, one a net of each cube of the cover, and,
// where one is given, some 1,000 steps.
fn see_block(
    plan: &Plan,
    b: usize,
    count: usize,
    cover: &Cover,
    words: &mut [u64; WORDS],
    sets: &mut [u32; READINGS],
)
    requires { BlockRange plan.now.inputs b count × GivenCover plan.now sets.old cover.now }
    ensures { BlockSeen plan.now b count sets.old sets.new }
{
    free_block(plan, b, words);
    if !gives_cover(plan, cover, words) {
        return;
    }
    let readings = read_rows(plan, words);
    meet_block([!0u64; ROWS], readings, count.div_ceil(WORD), sets);
}

// A cover of the unseen readings that an input may still give, none of them in a cube of never, which no input gives: the cubes that are refuted here
// go there. Few cubes that are not refuted at once are worth a longer look.
fn given_cover(plan: &Plan, sets: &[u32; READINGS], never: &mut Cover) -> Cover
    requires { NoneGives plan.now never.old }
    ensures { GivenCover plan.now sets.now result × NoneGives plan.now never.new }
{
    let cover = cover_of(sets, plan.reads.len, never);
    let left = unrefuted(plan, &cover, 1, never);
    if TESTED < left.count {
        return Cover::all();
    }
    unrefuted(plan, &left, SPLITS, never)
}

// Such a cover and such cubes, how many readings were unseen when it was made, and how often it may be made anew.
#[derive(Drop)]
struct Covering {
    left: Cover,
    never: Cover,
    unseen: usize,
    renewals: usize,
}

impl Covering {
    fn new(plan: &Plan, sets: &[u32; READINGS]) -> Self
        ensures { Covered plan.now sets.now result }
    {
        let mut never = Cover::empty();
        let left = given_cover(plan, sets, &mut never);
        Covering {
            left,
            never,
            unseen: unseen_count(sets),
            renewals: RENEWALS,
        }
    }

    // It is made anew where fewer readings are unseen than when it was made.
    fn renew(&mut self, plan: &Plan, sets: &[u32; READINGS])
        requires { Covered plan.now sets.now self.old }
        ensures { Covered plan.now sets.now self.new }
    {
        if self.renewals == 0 {
            return;
        }
        let unseen = unseen_count(sets);
        if unseen == self.unseen {
            return;
        }
        self.left = given_cover(plan, sets, &mut self.never);
        self.unseen = unseen;
        self.renewals -= 1;
    }
}

// Whether block b is of a range that was skipped.
fn is_skipped(skipped: usize, b: usize) -> bool
    requires { b < 1024 }
    ensures { result ≡ eqb (bit (b / 32) skipped) 1 }
{
    (skipped >> (b / RANGE)) % 2 == 1
}

// Whether it is time for a new cover: before block 0, 1, 2, 4, 8 or 16 of a range.
fn is_due(b: usize) -> bool {
    let r = b % RANGE;
    r == 0 || r.is_power_of_two()
}

// The sets after the inputs of the ranges that were skipped. It ends where no reading is unseen, or none of those that are can be given.
fn see_inputs(plan: &Plan, skipped: usize, sets: &mut [u32; READINGS])
    ensures { AllSeen plan.now skipped sets.old sets.new
        × SameVectors sets.old sets.new }
{
    let count = reading_count(plan.reads.len);
    let size = 1usize << plan.inputs;
    let mut words = [0u64; WORDS];
    let mut covering = Covering::new(plan, sets);
    let mut next = next_unseen(sets, 0, count);
    for b in 0..size.div_ceil(BLOCK) {
        let Some(first) = next else {
            return;
        };
        if !is_skipped(skipped, b) {
            continue;
        }
        if is_due(b) {
            covering.renew(plan, sets);
        }
        if covering.left.count == 0 {
            return;
        }
        let inputs = block_inputs(size - BLOCK * b);
        see_block(plan, b, inputs, &covering.left, &mut words, sets);
        next = next_unseen(sets, first, count);
    }
}

// The sets of a support, with the bits of its readings that inputs of skipped ranges give cleared too. Where no range was skipped, the sets
// tell already, and nothing is evaluated. Else a cover of the unseen readings is made, at a cost that imply.rt says. Where cubes are left that an
// input may give, each block of 1,024 inputs of these ranges, until all readings are seen, costs what see_block says.
pub(super) fn see_skipped(
    miter: &Miter,
    support: Support,
    skipped: usize,
    sets: &mut [u32; READINGS],
)
    requires { NetsRead support }
    ensures unseen { (j : Job) (is : List ℕ) → MergedOf j miter.now → take support.len support.nets ≡ is
        → all' (candidate_good j) is ≡ true → GivenBits j is sets.old skipped → Unseen j is sets.new }
    ensures same_vectors { SameVectors sets.old sets.new }
{
    if skipped == 0 {
        return;
    }
    let count = reading_count(support.len);
    if next_unseen(sets, 0, count).is_none() {
        return;
    }
    let plan = reads_of(miter, support);
    see_inputs(&plan, skipped, sets);
}
