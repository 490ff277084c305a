// The table of a support and its notes, from the sets of vectors of its readings.
ghost use Rattle.std.specs.Prelude.{◌≡◌, ℕ, ◌^◌, ◌≤◌, ◌<◌, eqb, length, get_or};
ghost use Rattle.engine.specs.Eval.{bit};
ghost use Rattle.engine.specs.Choice.{or_zero};
ghost use Rattle.engine.specs.Inner.List.{lowest};
ghost use Rattle.engine.specs.Inner.Table.{TableFilled, note_from, NotesFilled};

use super::limits::{READINGS, UNSEEN};
use super::word::lowest_of;

// How many readings k nets have.
pub(super) fn reading_count(k: usize) -> usize
    requires { k ≤ 10 }
    ensures { result ≡ 2 ^ k }
{
    1usize << k
}

// What entry says of the set of each reading of len nets, in 2 ^ len turns.
fn fill<F: Fn(u32) -> u8>(sets: &[u32], len: usize, entry: F) -> [u8; READINGS]
    requires within { (len ≤ 10) × (2 ^ len ≤ length sets.now) }
    requires callable { F.IsAlwaysCallable entry }
    ensures { (r : ℕ) → r < 2 ^ len → F.post entry (get_or sets.now r 0) (get_or result r 0) }
{
    let mut entries = [0u8; READINGS];
    for r in 0..reading_count(len) {
        entries[r] = entry(sets[r]);
    }
    entries
}

// The smallest vector of a set, 0 where there is none.
fn lowest_vector(set: u32) -> u8
    ensures { result ≡ or_zero (lowest set) }
{
    lowest_of(set as usize) as u8
}

// The table of a support of len nets that has these sets: at each reading the smallest vector that rectifies every input giving it,
// 0 where there is none. It evaluates no gate.
pub(super) fn fill_table(sets: &[u32], len: usize) -> [u8; READINGS]
    requires { (len ≤ 10) × (2 ^ len ≤ length sets.now) }
    ensures { TableFilled sets.now len result }
{
    fill(sets, len, lowest_vector)
}

// Whether the set of a reading says that no input looked at gives it.
pub(super) fn is_unseen(set: u32) -> bool
    ensures { result ≡ eqb (bit 16 set) 1 }
{
    set / UNSEEN % 2 == 1
}

// The note of a reading with this set, whose bit above the vectors' is 1 where no input gives it.
// A note is a number, as it stands in the sheet.
fn note_of(set: u32) -> u8
    ensures { result ≡ note_from set }
{
    if is_unseen(set) {
        return 0;
    }
    if (set % UNSEEN) as usize == 1 << lowest_of(set as usize) {
        return 1;
    }
    2
}

// The notes of a support of len nets that has these sets: at each reading 0 where no input gives it, 1 where its set has one vector,
// else 2. It evaluates no gate.
pub(super) fn fill_notes(sets: &[u32; READINGS], len: usize) -> [u8; READINGS]
    requires { len ≤ 10 }
    ensures { NotesFilled sets.now len result }
{
    fill(sets, len, note_of)
}
