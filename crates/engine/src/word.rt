// Words: a bit a scenario. Scenario j of word b is input 64 * b + j. A row has the 16 words of 1,024 scenarios.
ghost use Rattle.std.specs.Prelude.{◌≡◌, ℕ, ◌+◌, ◌*◌, ◌<◌, max, true};
ghost use Rattle.engine.specs.Eval.{bit};
ghost use Rattle.engine.specs.Choice.{or_zero};
ghost use Rattle.engine.specs.Inner.List.{lowest};
ghost use Rattle.engine.specs.Inner.Kernel.{row_value, FirstZero};

use super::limits::{BLOCK, ROW, VECTORS, WORD};
use std::array;

// The word of a value that is the same in every scenario: the lowest bit of x.
pub(super) fn broadcast(x: usize) -> u64
    ensures { (j : ℕ) → j < 64 → bit j result ≡ bit 0 x }
{
    if x % 2 == 0 { 0 } else { !0 }
}

// The word of input i in word b: bit j is bit i of the input 64 * b + j.
pub(super) fn input_word(i: usize, b: usize) -> u64
    requires { i < 64 }
    ensures { (j : ℕ) → j < 64 → bit j result ≡ bit i (64 * b + j) }
{
    if 6 <= i {
        return broadcast(b >> (i - 6));
    }
    match i {
        0 => 0xaaaa_aaaa_aaaa_aaaa,
        1 => 0xcccc_cccc_cccc_cccc,
        2 => 0xf0f0_f0f0_f0f0_f0f0,
        3 => 0xff00_ff00_ff00_ff00,
        4 => 0xffff_0000_ffff_0000,
        _ => 0xffff_ffff_0000_0000,
    }
}

// The smallest vector of a set, 0 where it is empty.
pub(super) fn lowest_of(set: usize) -> usize
    ensures { result ≡ or_zero (lowest set) }
{
    let v = set.trailing_zeros() as usize;
    if v < VECTORS { v } else { 0 }
}

// The first scenario of which the row says 0, 1,024 where there is none.
pub(super) fn first_zero(row: [u64; ROW]) -> usize
    ensures { FirstZero row result }
{
    for (w, word) in row.iter().enumerate() {
        let ones = word.trailing_ones() as usize;
        if ones < WORD {
            return WORD * w + ones;
        }
    }
    BLOCK
}

// Whether the row says 0 of every scenario.
pub(super) fn zero_row(row: [u64; ROW]) -> bool
    ensures { result ≡ true → (y : ℕ) → y < 1024 → row_value row y ≡ 0 }
{
    row == [0; ROW]
}

// 1 where one of the rows says 1.
pub(super) fn join_rows(a: [u64; ROW], b: [u64; ROW]) -> [u64; ROW]
    ensures { (y : ℕ) → y < 1024 → row_value result y ≡ max (row_value a y) (row_value b y) }
{
    array::from_fn(|w| a[w] | b[w])
}
