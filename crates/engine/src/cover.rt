// A cover of the unseen readings of a support: cubes that have them all. A cube has the readings that are alike at some nets, whatever the others
// are. Readings stay unseen where nets are not independent, as one net and another that it leads to, so often few cubes of few nets have them
// all; then a block is known to give none of them without a look at each of its inputs. No proof rests on a cube being wide, or on it having
// no other readings.
ghost use Rattle.std.specs.Prelude.{◌≡◌, false, cond, ℕ, ◌^◌, ◌≤◌, ◌<◌, eqb, take};
ghost use Rattle.engine.specs.Eval.{bit};
ghost use Rattle.engine.specs.Inner.Kernel.{row_value, value_in};
ghost use Rattle.engine.specs.Inner.Cover.{NextUnseen, InCube, CoverTo, reading_in, GivesNone};

use super::cube::{Cover, Cube};
use super::limits::{READINGS, ROW, WORDS};
use super::plan::Plan;
use super::table::{is_unseen, reading_count};
use super::word::{broadcast, zero_row};

// The first unseen reading from at on, below count.
pub(super) fn next_unseen(sets: &[u32; READINGS], at: usize, count: usize) -> Option<usize>
    requires { (at ≤ count) × (count ≤ 1024) }
    ensures { NextUnseen sets.now at count result }
{
    (at..count).find(|r| is_unseen(sets[*r]))
}

// How many readings are unseen.
pub(super) fn unseen_count(sets: &[u32; READINGS]) -> usize {
    sets.iter().filter(|set| is_unseen(**set)).count()
}

// Whether the readings of a cube are unseen. They are looked at one after the other, by counting in the bits that the cube leaves open.
fn all_unseen(sets: &[u32; READINGS], value: usize, care: usize) -> bool {
    let mut free = 0usize;
    // A for with a bound that the count never passes, since each loop must be shown to end.
    for _ in 0..READINGS {
        if !is_unseen(sets[(value ^ free) % READINGS]) {
            return false;
        }
        free = ((free | care) % READINGS + 1) & (care ^ (READINGS - 1));
        if free == 0 {
            return true;
        }
    }
    true
}

// A cube of unseen readings around one: net after net is left open where the readings that differ there are unseen too.
fn widened(sets: &[u32; READINGS], reading: usize, reads: usize) -> Cube
    requires { (reads ≤ 10) × (reading < 1024) }
    ensures care_below { result.care < 1024 }
    ensures in_cube { InCube result reading }
{
    let mut care = READINGS - 1;
    // By number, since i is a bit of the readings.
    for i in 0..reads {
        if all_unseen(sets, reading ^ (1 << i), care) {
            care ^= 1 << i;
        }
    }
    Cube {
        value: reading as u16,
        care: (care % READINGS) as u16,
    }
}

// A cover of those unseen readings of so many nets that are in no cube of never, which its own cubes may overlap; of all readings where it would
// take more than 64 cubes.
pub(super) fn cover_of(sets: &[u32; READINGS], reads: usize, never: &Cover) -> Cover
    requires { reads ≤ 10 }
    ensures { CoverTo sets.now (2 ^ reads) never.now result }
{
    let mut cover = Cover::empty();
    // By number, since r is the reading itself.
    for r in 0..reading_count(reads) {
        if !is_unseen(sets[r]) || never.has(r) || cover.has(r) {
            continue;
        }
        if cover.is_full() {
            return Cover::all();
        }
        cover.push(widened(sets, r, reads));
    }
    cover
}

// The row r, with 0 where net i has another value than the lowest bit of x.
fn keep_value(i: usize, x: usize, r: &mut [u64; ROW], words: &[u64; WORDS])
    requires { i < 1024 }
    ensures { (y : ℕ) → y < 1024 → row_value r.new y ≡ cond (eqb (value_in words.now y i) (bit 0 x)) (row_value r.old y) 0 }
{
    let v = broadcast(x);
    // By index: the innermost loop, over two arrays at one index.
    for w in 0..ROW {
        r[w] = r[w] & (words[ROW * i + w] ^ v ^ !0);
    }
}

// 1 where the reading of the nets that the plan reads is in the cube.
fn cube_row(plan: &Plan, cube: Cube, words: &[u64; WORDS]) -> [u64; ROW]
    ensures { (y : ℕ) → y < 1024 → InCube cube (reading_in words.now (take plan.now.reads.len plan.now.reads.nets) y)
        → row_value result y ≡ 1 }
{
    let value = cube.value as usize;
    let care = cube.care as usize;
    let mut r = [!0u64; ROW];
    // By number, since k is also a bit of the cube.
    for k in 0..plan.reads.len {
        if (care >> k) % 2 == 1 {
            keep_value(plan.reads.nets[k] as usize, value >> k, &mut r, words);
        }
    }
    r
}

// Whether an input of a block gives a reading of the cube.
fn gives_cube(plan: &Plan, cube: Cube, words: &[u64; WORDS]) -> bool
    ensures { result ≡ false → (y : ℕ) → y < 1024 → InCube cube (reading_in words.now (take plan.now.reads.len plan.now.reads.nets) y) → ⊥ }
{
    !zero_row(cube_row(plan, cube, words))
}

// .. of the cover
pub(super) fn gives_cover(plan: &Plan, cover: &Cover, words: &[u64; WORDS]) -> bool
    ensures { result ≡ false → GivesNone cover.now words.now (take plan.now.reads.len plan.now.reads.nets) }
{
    cover
        .cubes()
        .iter()
        .any(|cube| gives_cube(plan, *cube, words))
}
