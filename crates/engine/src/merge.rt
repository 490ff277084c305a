// Gates of one kind over the same nets have the same values: what reads a later one may read an earlier one's net. In most jobs the golden
// circuit is the old one but for what the targets cut off, and then nothing reads the golden gates that stand in both: a plan leaves
// them out. Outputs that have come to be one net need not be compared, nor what leads to them alone be evaluated.
ghost use Rattle.std.specs.Prelude.{◌≡◌, true, ◌+◌, ◌-◌, ◌≤◌, ◌<◌, length, get_or};
ghost use Rattle.records.specs.Job.{Job};
ghost use Rattle.engine.specs.Inner.Packed.{gate_in};
ghost use Rattle.records.specs.Parts.{PartsOf};
ghost use Rattle.engine.specs.Inner.Miter.{SomeParts, MiterOf, MergedOf};
ghost use Rattle.engine.specs.Inner.Merge.{Backward, GatesMerged, PairsKept};

use super::limits::{LEAST_TO_MERGE, MITER_GATES, NETS};
use super::miter::Miter;
use super::packed::{NET, form_of, slots_number};
use super::renumber::{move_nets, moved_code, number_inputs};
use records::{JobParts, OUTPUTS};

// Packed gates, and for each net one that stands for it.
// Arrays, since nothing here uses the heap.
#[derive(Drop)]
pub struct MergedGates {
    pub gates: [u64; MITER_GATES],
    pub stands: [u16; NETS],
}

// Nets that are compared, an old one and a golden one, count pairs: two lists, as in a miter.
#[derive(Drop)]
pub struct Pairs {
    pub count: usize,
    pub outputs: [u16; OUTPUTS],
    pub goldens: [u16; OUTPUTS],
}

// A place below 1,024 for a packed gate, by its kind, count and operands.
fn place_of(c: u64) -> usize
    ensures { result < 1024 }
{
    let x = slots_number(c);
    ((x ^ (x >> 9) ^ (x >> 18) ^ (x >> 27) ^ form_of(c)) % NET) as usize
}

// Whether two packed gates have one kind, count and operands.
fn alike(a: u64, b: u64) -> bool
    ensures { result ≡ true → gate_in a ≡ gate_in b }
{
    (form_of(a) == form_of(b)) & (slots_number(a) == slots_number(b))
}

// One more than the index of the last gate alike c in the chain whose last gate is at from - 1; 0 where there is none.
fn find(gates: &[u64; MITER_GATES], next: &[u16; MITER_GATES], from: usize, c: u64) -> usize
    requires { (from ≤ 800) × Backward next.now }
    ensures { (result ≤ from) × (0 < result → gate_in (get_or gates.now (result - 1) 0) ≡ gate_in c) }
{
    // A while, since it walks a chain of places, and 0 ends it as in next, where an Option would take twice the room.
    let mut k = from;
    while 0 < k {
        if alike(gates[k - 1], c) {
            return k;
        }
        k = next[k - 1] as usize;
    }
    0
}

// The gates with each operand replaced by the net that stands for it: that of an earlier gate alike, or itself. Gates are found by chains: heads
// has for each place one more than the index of the last gate that has it, next for each gate one more than that of the one before it with
// the same place, and 0 where there is none. It costs some steps a gate, since chains are short.
// Chains in two arrays and no map, since nothing here uses the heap.
fn merge_gates(base: usize, count: usize, gates: &[u64; MITER_GATES]) -> MergedGates
    requires { (base + count ≤ 1024) × (count ≤ 800) }
    ensures { GatesMerged base count gates.now result }
{
    let mut gates = *gates;
    let mut stands = number_inputs(base + count);
    let mut heads = [0u16; NETS];
    let mut next = [0u16; MITER_GATES];
    // By number, since i gives the gate's net and its place in the chains.
    for i in 0..count {
        let c = moved_code(gates[i], base + i, &stands);
        gates[i] = c;
        let at = place_of(c);
        let k = find(&gates, &next, heads[at] as usize, c);
        if 0 < k {
            stands[base + i] = (base + k - 1) as u16;
        } else {
            next[i] = heads[at];
            heads[at] = (i + 1) as u16;
        }
    }
    MergedGates { gates, stands }
}

// The pairs of the old nets and the golden ones, but for those of one net, which are equal whatever it is.
fn pairs_apart(outputs: &[u16], goldens: &[u16]) -> Pairs
    requires { (length outputs.now ≤ 32) × (length goldens.now ≡ length outputs.now) }
    ensures { PairsKept outputs.now goldens.now result }
{
    let mut olds = [0u16; OUTPUTS];
    let mut news = [0u16; OUTPUTS];
    let mut count = 0usize;
    for (a, b) in outputs.iter().zip(goldens) {
        if *a != *b {
            olds[count] = *a;
            news[count] = *b;
            count += 1;
        }
    }
    Pairs {
        count,
        outputs: olds,
        goldens: news,
    }
}

// The miter with its gates merged, and the pairs of the nets that stand for an old output and its golden one, where they are not one net.
fn merged(miter: &Miter) -> Miter
    ensures { (j : Job) → MiterOf j miter.now → MergedOf j result }
{
    let merged = merge_gates(miter.inputs + miter.targets, miter.count, &miter.gates);
    let outs = miter.outs;
    let mut outputs = miter.outputs;
    move_nets(&mut outputs[..outs], &merged.stands);
    let mut goldens = miter.goldens;
    move_nets(&mut goldens[..outs], &merged.stands);
    let pairs = pairs_apart(&outputs[..outs], &goldens[..outs]);
    let gates = merged.gates;
    let outputs = pairs.outputs;
    let goldens = pairs.goldens;
    Miter {
        inputs: miter.inputs,
        targets: miter.targets,
        count: miter.count,
        gates,
        outs: pairs.count,
        outputs,
        goldens,
    }
}

// The miter of a good job's parts, its gates merged. A job of few inputs keeps its gates: evaluating them
// costs less.
pub(super) fn merged_miter(job: &JobParts) -> Miter
    requires { SomeParts job.now }
    ensures { (j : Job) → PartsOf j job.now → MergedOf j result }
{
    let miter = Miter::of_parts(job);
    if miter.inputs < LEAST_TO_MERGE {
        return miter;
    }
    merged(&miter)
}
