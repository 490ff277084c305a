// The choice of the support. It works on sets of vectors alone: place r of a support's sets holds the vectors that rectify every
// input giving reading r of its nets. Bit 16 of a set is 1 where no input that was looked at gives the reading; it is joined like a vector.
ghost use Rattle.std.specs.Prelude.{◌≡◌, true, ℕ, ◌-◌, ◌^◌, ◌≤◌, ◌<◌, List, length, sum, eqb};
ghost use Rattle.records.specs.Job.{Job};
ghost use Rattle.engine.specs.Eval.{bit};
ghost use Rattle.engine.specs.Support.{sound, candidate_nets, patch_gates, chosen};
ghost use Rattle.records.specs.Claims.{Below};
ghost use Rattle.engine.specs.Inner.Plan.{NetsRead};
ghost use Rattle.engine.specs.Inner.Best.{picked, low_first, before, PickedNets, first_empty, SetsOf, GivenBits, LeftOut, OpenPick, PricedOf, PickOf, CountedOf, OpenOf, BestFrom, HeldSupport, Choosable, ChosenOf};

use super::limits::{READINGS, UNSEEN};
use super::pick::{Pick, Priced};
use super::table::{fill_table, reading_count};
use super::tree::trees_size;
use records::{CANDIDATES, Support};

// A support, its cost and its sets.
// A struct that holds the support whole, since document 01 names this form.
#[derive(Drop)]
pub struct Chosen {
    pub support: Support,
    pub cost: u32,
    pub sets: [u32; READINGS],
}

// The first place whose set is empty: the blind reading. There is none where all candidates together are sound.
pub(super) fn first_empty(sets: &[u32]) -> Option<usize>
    ensures { result ≡ first_empty sets.now }
{
    sets.iter().position(|set| *set % UNSEEN == 0)
}

// The sets of len nets without the net at place, put into fewer: a reading of the others leaves what both readings share that it comes
// from. Whether none is empty: it ends at the first that is, since the support is not sound then, and takes at most 2 ^ (len - 1) steps.
fn leave_out(sets: &[u32], len: usize, place: usize, fewer: &mut [u32]) -> bool
    requires { (place < len) × (len ≤ 10) × (2 ^ len ≤ length sets.now) × (2 ^ (len - 1) ≤ length fewer.old) }
    ensures { LeftOut sets.now (len - 1) place result fewer.new }
{
    let count = reading_count(len - 1);
    let other = reading_count(place);
    // By index: two places are read that are computed from the number, in the innermost loop of the search.
    for q in 0..count {
        let r = q + ((q >> place) << place);
        let both = sets[r] & sets[r + other];
        if both % UNSEEN == 0 {
            return false;
        }
        fewer[q] = both;
    }
    true
}

// The sum of at most ten weights.
fn sum_weights(weights: &[u16]) -> u32
    requires { length weights.now ≤ 10 }
    ensures { result ≡ sum weights.now }
{
    weights.iter().map(|w| u32::from(*w)).sum()
}

// Whether candidate i is in a set.
fn has(set: usize, i: usize) -> bool
    requires { i < 64 }
    ensures { result ≡ eqb (bit i set) 1 }
{
    (set >> i) % 2 == 1
}

// Whether of two sets a has the lowest candidate in which they differ.
fn low_first(a: usize, b: usize) -> bool
    ensures { result ≡ low_first 10 a b }
{
    // Bit by bit, as the definition reads ten bits of any number; trailing_zeros would ask that there are no more.
    for i in 0..CANDIDATES {
        if has(a, i) != has(b, i) {
            return has(a, i);
        }
    }
    false
}

// Whether a is chosen before b: lower cost, then fewer gates, then fewer nets, then the smaller net at the first place where they
// differ. Candidates ascend, so that is the lowest one in which the sets differ.
fn precedes(a: Pick, b: Pick) -> bool
    ensures { result ≡ before a b }
{
    let order = (a.cost, a.gates, a.len).cmp(&(b.cost, b.gates, b.len));
    order.is_lt() || (order.is_eq() && low_first(a.set, b.set))
}

// How many gates the patch of a support of len nets has whose sets these are: the trees of all targets over its table. Up to
// six nets each entry is read once for each target, and above that at most 1 + 5 * (len - 6) times.
fn patch_gates(sets: &[u32], len: usize, targets: usize) -> usize
    requires { (len ≤ 10) × (2 ^ len ≤ length sets.now) × (targets ≤ 4) }
    ensures { (j : Job) (is : List ℕ) → SetsOf j is sets.now → length is ≡ len → j.targets ≡ targets → result ≡ patch_gates j is }
{
    let table = fill_table(sets, len);
    trees_size(&table, len, targets)
}

impl Priced<'_> {
    // The nets of a set.
    fn support_of(&self, set: usize) -> Support
        ensures { PickedNets self.now.nets.now set result × (Below 1024 self.now.nets.now → NetsRead result) }
    {
        let mut picks = [0u16; CANDIDATES];
        let mut len = 0usize;
        for (i, net) in self.nets.iter().enumerate() {
            if has(set, i) {
                picks[len] = *net;
                len += 1;
            }
        }
        Support { nets: picks, len }
    }

    // The sets of the readings of a sound set of nets.
    fn sets_of(&self, set: usize) -> [u32; READINGS]
        ensures { (j : Job) → length (candidate_nets j) ≡ length self.now.nets.now → SetsOf j (candidate_nets j) self.now.sets.now
            → sound j (picked (candidate_nets j) set) ≡ true → SetsOf j (picked (candidate_nets j) set) result
            × ((k : ℕ) → GivenBits j (candidate_nets j) self.now.sets.now k → GivenBits j (picked (candidate_nets j) set) result k) }
    {
        let mut sets = *self.sets;
        let mut len = self.nets.len();
        // By number, since i is a bit of the set and a place to leave out.
        for i in (0..self.nets.len()).rev() {
            if !has(set, i) {
                let with = sets;
                leave_out(&with, len, i, &mut sets);
                len -= 1;
            }
        }
        sets
    }

    // The pick, with its gates counted.
    fn counted(&self, pick: Pick) -> Pick
        ensures set_value { (result.set ≡ pick.set) × (result.len ≡ pick.len) }
        ensures counted_of { (j : Job) → PricedOf j self.now → PickOf j pick → CountedOf j result }
    {
        if pick.gates.is_some() {
            return pick;
        }
        let mut counted = pick;
        counted.gates = Some(patch_gates(&self.sets_of(pick.set), pick.len, self.targets));
        counted
    }

    // The one that is chosen of best and a support that has these sets. It costs no more here, and gates are counted only where both cost
    // the same and are not one.
    fn better_of(&self, best: Pick, from: Pick, sets: &[u32]) -> Pick
        requires { 2 ^ from.len ≤ length sets.now }
        ensures { (j : Job) → PricedOf j self.now → PickOf j best → OpenOf j 0 from sets.now → BestFrom j 0 from.set best result }
    {
        if from.cost < best.cost {
            return from;
        }
        if from.set == best.set {
            return best;
        }
        let was = self.counted(best);
        let mut now = from;
        now.gates = Some(patch_gates(sets, from.len, self.targets));
        if precedes(now, was) { now } else { was }
    }

    // The one that is chosen of best and all sound sets of nets which have, from place i on, those in from.set, at from.cost. The support of
    // these and all i nets before them has from.len nets; it is sound, and these are its sets. Those of its parts are put into room. A
    // support that costs more than best is not looked into, nor one that is not sound, since no part of it is. With the calls that it makes
    // it takes at most 3 ^ i * 2 ^ (from.len - i) steps, and counts gates where costs are equal.
    fn best_from(&self, best: Pick, from: Pick, i: usize, sets: &[u32], room: &mut [u32]) -> Pick
        requires { OpenPick i from × (i ≤ length self.now.nets.now) × (2 ^ from.len ≤ length sets.now) × (2 ^ from.len ≤ length room.old) }
        ensures { (j : Job) → PricedOf j self.now → PickOf j best → OpenOf j i from sets.now → BestFrom j i from.set best result }
    {
        if best.cost < from.cost {
            return best;
        }
        if i == 0 {
            return self.better_of(best, from, sets);
        }
        let place = i - 1;
        let mut found = best;
        let (fewer, rest) = room.split_at_mut(reading_count(from.len - 1));
        if leave_out(sets, from.len, place, fewer) {
            let without = Pick {
                set: 2 * from.set,
                cost: from.cost,
                len: from.len - 1,
                gates: None,
            };
            found = self.best_from(best, without, place, fewer, rest);
        }
        let with = Pick {
            set: 2 * from.set + 1,
            cost: from.cost + u32::from(self.weights[place]),
            len: from.len,
            gates: None,
        };
        self.best_from(found, with, place, sets, room)
    }

    // The chosen support: the best sound one. For k nets it takes at most 3 ^ k steps, and evaluates no gate; where supports cost the same,
    // as many more as the entries of their tables that the count of their gates reads.
    pub(super) fn best_support(&self) -> Chosen
        ensures held_support { HeldSupport result.support
            × (Below 1024 self.now.nets.now → NetsRead result.support) }
        ensures chosen_of { (j : Job) → Choosable j self.now → ChosenOf j result.support result.cost result.sets
            × ((k : ℕ) → GivenBits j (candidate_nets j) self.now.sets.now k → GivenBits j (chosen j) result.sets k) }
    {
        let count = self.nets.len();
        let all = Pick {
            set: reading_count(count) - 1,
            cost: sum_weights(self.weights),
            len: count,
            gates: None,
        };
        let none = Pick {
            set: 0,
            cost: 0,
            len: count,
            gates: None,
        };
        let mut room = [0u32; READINGS];
        let sets = self.sets;
        let best = self.best_from(all, none, count, sets, &mut room);
        Chosen {
            support: self.support_of(best.set),
            cost: best.cost,
            sets: self.sets_of(best.set),
        }
    }
}
