// When a test that may save a block's work is tried. Judge's tables are trusted so far: a block on which they fail takes one, one on which they
// do not gives one back. Choose's table (src/sole.rt) waits for longer and longer while it fails.
ghost use Rattle.std.specs.Prelude.{◌≤◌};

use super::limits::{BLOCK, RANGE, TRUST};

const SIXTEEN_BLOCKS: usize = 16 * BLOCK;

// No job has as many.
// (Never is such a wait and no Option, so that one test, whether the wait is over, does for all.)
const ENDLESS_BLOCKS: usize = 1025;

// At first it may fail on one block of sixteen, and on none where there are fewer inputs than least, since what it learns costs more there.
pub(super) fn first_trust(inputs: usize, least: usize) -> usize
    requires { inputs ≤ 20 }
    ensures { result ≤ 64 }
{
    if inputs < least {
        return 0;
    }
    (1usize << inputs) / SIXTEEN_BLOCKS
}

// One more, up to the most.
pub(super) fn more(trust: usize) -> usize
    requires { trust ≤ 64 }
    ensures { (trust ≤ result) × (result ≤ 64) }
{
    TRUST.min(trust + 1)
}

// After block b, which the test did not save. It is not tried on the first block.
pub(super) fn next_trust(trust: usize, b: usize) -> usize
    requires { trust ≤ 64 }
    ensures { result ≤ 64 }
{
    if b == 0 {
        trust
    } else {
        trust.saturating_sub(1)
    }
}

// When a test is tried next: after wait blocks; and, where it fails then, after rest more.
#[derive(Drop)]
pub struct Pace {
    pub wait: usize,
    pub rest: usize,
    ghost short: { rest ≤ 80 },
}

// After the first block, or never where there are fewer inputs than least, since what it learns costs more there.
pub(super) fn first_pace(inputs: usize, least: usize) -> Pace {
    if inputs < least {
        return Pace {
            wait: ENDLESS_BLOCKS,
            rest: 0,
        };
    }
    Pace { wait: 1, rest: 0 }
}

// A quarter and one block longer, until it is 64 or more: 0, 1, 2, 3, 4, 6, 8, 11, .., 59, 74.
fn longer(rest: usize) -> usize
    requires { rest ≤ 80 }
    ensures { result ≤ 80 }
{
    if rest < TRUST {
        rest + rest / 4 + 1
    } else {
        rest
    }
}

// The pace after a block, which the test saved, did not save, or was not tried on.
pub(super) fn next_pace(pace: Pace, saved: bool) -> Pace {
    if saved {
        return Pace { wait: 0, rest: 0 };
    }
    if 0 < pace.wait {
        return Pace {
            wait: pace.wait - 1,
            rest: pace.rest,
        };
    }
    Pace {
        wait: pace.rest,
        rest: longer(pace.rest),
    }
}

// How many tries of partial evaluation may still settle nothing, after block b, from which on it skipped so many blocks, or none. Only
// every 32nd block has a try.
pub(super) fn next_tries(tries: usize, b: usize, skip: usize) -> usize
    requires { tries ≤ 64 }
    ensures { result ≤ 64 }
{
    if b % RANGE != 0 {
        return tries;
    }
    if skip == 0 {
        tries.saturating_sub(1)
    } else {
        more(tries)
    }
}
