// The gates of a miter in the lists that the search over a job's inputs evaluates (src/planning.rt makes them).
ghost use Rattle.std.specs.Prelude.{◌≡◌, ℕ, ◌≤◌, length, get_or};
ghost use Rattle.records.specs.Claims.{Below};

use super::limits::{LISTED, LISTS};
use records::{OUTPUTS, Support};

// What the search needs: counts, the nets of the outputs in both circuits, the nets that are read, and the lists of gates with their ends.
// Before ends[0] stand the live gates that no target leads to, from there to ends[1] the others; those that target t leads to are
// gates[ends[t + 1]..ends[t + 2]]. One is made for a walk over a job's inputs, and lent; choose makes a second for the inputs that its first walk
// skipped, if readings stay unseen. (That the places of the nets read are ten, their type says, but only to who has the support itself in hand.)
// Arrays with counts and ends, since nothing here uses the heap; outputs and goldens stand apart, as in a miter.
#[derive(Drop)]
pub struct Plan {
    pub inputs: usize,
    pub targets: usize,
    pub outs: usize,
    pub outputs: [u16; OUTPUTS],
    pub goldens: [u16; OUTPUTS],
    pub reads: Support,
    pub ends: [usize; LISTS],
    pub gates: [u64; LISTED],
    ghost inputs_bound: { inputs ≤ 20 },
    ghost targets_bound: { targets ≤ 4 },
    ghost outs_bound: { outs ≤ 32 },
    ghost reads_bound: { reads.len ≤ 10 },
    ghost reads_long: { length reads.nets ≡ 10 },
    ghost outputs_below: { Below 1024 outputs },
    ghost goldens_below: { Below 1024 goldens },
    ghost reads_below: { Below 1024 reads.nets },
    ghost ends_bound: { (t : ℕ) → get_or ends t 0 ≤ 2400 },
}
