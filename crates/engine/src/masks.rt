// Where vectors rectify the inputs of a block: a row a vector. The vectors are taken in an order in which each differs from the one
// before in one target, so that only the gates which that target leads to are evaluated again.
ghost use Rattle.std.specs.Prelude.{◌≡◌, ◌<◌};
ghost use Rattle.engine.specs.Inner.Masks.{ordered, turns, Among};
ghost use Rattle.engine.specs.Inner.Search.{TargetTurned, BlockMasks};

use super::kernel::run;
use super::leaves::{equal_row, set_net, set_row};
use super::limits::{ROWS, VECTORS, WORDS};
use super::plan::Plan;

// The target that each step of a Gray code sets anew, from step 1 on.
const FLIPS: [u8; VECTORS] = [0, 0, 1, 0, 2, 0, 1, 0, 3, 0, 1, 0, 2, 0, 1, 0];

// The target that step s sets anew where target u is set most often.
fn turned_at(u: usize, step: usize) -> usize
    requires { step < 16 }
    ensures { result ≡ turns u step }
{
    let t = FLIPS[step] as usize;
    if t == 0 {
        return u;
    }
    if t == u { 0 } else { t }
}

// The vector at step s: a Gray code with the bits of targets 0 and u exchanged.
pub(super) fn vector_at(u: usize, step: usize) -> usize
    requires { (u < 4) × (step < 16) }
    ensures { result ≡ ordered u step }
{
    let v = step ^ (step >> 1);
    if (v >> u) % 2 == v % 2 {
        v
    } else {
        v ^ (1 + (1 << u))
    }
}

// A target whose list of gates is the shortest; 0 where there is no target.
fn shortest_list(plan: &Plan) -> usize
    ensures { (result < 4) × Among plan.now.targets result }
{
    let ends = &plan.ends;
    let mut best = 0usize;
    // By number, since t gives both ends of a list; min_by_key would subtract, and ask that they ascend.
    for t in 1..plan.targets {
        if ends[t + 2] + ends[best + 1] < ends[best + 2] + ends[t + 1] {
            best = t;
        }
    }
    best
}

// Target t set to the lowest bit of x, and the gates that it leads to evaluated again.
fn turn_target(plan: &Plan, t: usize, x: usize, words: &mut [u64; WORDS])
    requires { t < 4 }
    ensures { TargetTurned plan.now t x words.old words.new }
{
    set_net(plan.inputs + t, x, words);
    run(&plan.gates, plan.ends[t + 1], plan.ends[t + 2], words);
}

// The rows of all vectors in the block whose words, at vector 0, are given: bit y of row v is 1 where vector v rectifies the block's
// input y. It costs, for every second vector, one gate evaluation a gate that the target with the fewest leads to, for every fourth one a
// gate that another leads to, and so on.
pub(super) fn masks_of(plan: &Plan, words: &mut [u64; WORDS]) -> [u64; ROWS]
    ensures { BlockMasks plan.now words.old result }
{
    let vectors = 1usize << plan.targets;
    let u = shortest_list(plan);
    let mut masks = [0u64; ROWS];
    set_row(0, equal_row(plan, words), &mut masks);
    // By number, since the step says the vector.
    for step in 1..vectors {
        let v = vector_at(u, step);
        let t = turned_at(u, step);
        turn_target(plan, t, v >> t, words);
        set_row(v, equal_row(plan, words), &mut masks);
    }
    masks
}
