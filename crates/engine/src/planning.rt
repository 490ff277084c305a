// Makes plans: picks the gates of a miter that are needed, and puts them in lists (src/plan.rt).
ghost use Rattle.std.specs.Prelude.{◌≡◌, true, List, ℕ, ◌+◌, ◌≤◌, ◌<◌, max, take};
ghost use Rattle.records.specs.Bytes.{all};
ghost use Rattle.records.specs.Job.{Job};
ghost use Rattle.records.specs.Refusal.{candidate_good};
ghost use Rattle.records.specs.Claims.{Below};
ghost use Rattle.engine.specs.Inner.Packed.{operands_of};
ghost use Rattle.engine.specs.Inner.Miter.{MergedOf};
ghost use Rattle.engine.specs.Inner.Plan.{code_mark, marked_all, live_from, live_marks, leaves_from, marks_from, picked};
ghost use Rattle.engine.specs.Inner.Plan.{ListPut, ListsUpTo, NetsRead, ReadsOf, PlannedOf, TurnsOf};

use super::limits::{LISTED, LISTS, NETS};
use super::miter::Miter;
use super::packed::{NET, NET_AT, operands_of};
use super::plan::Plan;
use records::Support;

// The mark of a gate: the greatest of its operands' marks.
// Marks are numbers, as in the definition fanout. (The record library's walk goes over gates in bytes.)
fn gate_mark(c: u64, marks: &[u8; NETS]) -> u8
    ensures { result ≡ code_mark marks.now c }
{
    let mut mark = 0u8;
    for net in operands_of(c) {
        mark = mark.max(marks[net]);
    }
    mark
}

// A mark for each of the k nets from from on.
fn leaf_marks(from: usize, k: usize) -> [u8; NETS]
    requires { from + k ≤ 1024 }
    ensures { result ≡ leaves_from from k }
{
    let mut marks = [0u8; NETS];
    // fill was tried: the proof of returns stays open, over the language's own terms.
    for i in 0..k {
        marks[from + i] = 1;
    }
    marks
}

// The marks of all nets where the k leaves from from on have one: each gate's, in turn.
pub(super) fn mark_from(gates: &[u64], from: usize, k: usize) -> [u8; NETS]
    requires { from + k ≤ 1024 }
    ensures { result ≡ marks_from gates.now from k }
{
    let mut marks = leaf_marks(from, k);
    for &c in gates {
        let m = gate_mark(c, &marks);
        marks[(c / NET_AT % NET) as usize] = m;
    }
    marks
}

// The marks, and one for each of the nets.
fn mark_nets(nets: &[u16], mut marks: [u8; NETS]) -> [u8; NETS]
    requires { Below 1024 nets.now }
    ensures { result ≡ marked_all marks nets.now }
{
    for &net in nets {
        marks[net as usize] = 1;
    }
    marks
}

// Marks the operands of a gate.
fn mark_operands(c: u64, marks: &mut [u8; NETS])
    ensures { marks.new ≡ marked_all marks.old (operands_of c) }
{
    for net in operands_of(c) {
        marks[net] = 1;
    }
}

// The marks, and from the last gate to the first those of the operands of each gate with a mark.
fn mark_live(gates: &[u64], mut marks: [u8; NETS]) -> [u8; NETS]
    ensures { result ≡ live_from marks gates.now }
{
    for &c in gates.iter().rev() {
        if marks[(c / NET_AT % NET) as usize] != 0 {
            mark_operands(c, &mut marks);
        }
    }
    marks
}

// The gates that have a mark in live, and one in marks, where led, or none there, put from place at on; the end is behind them. Where there
// is no room, the rest is left out.
fn pick(
    gates: &[u64],
    live: &[u8; NETS],
    marks: &[u8; NETS],
    led: bool,
    at: usize,
    out: &mut [u64; LISTED],
) -> usize
    requires { at ≤ 2400 }
    ensures { ListPut (picked live.now marks.now led gates.now) at out.old result out.new }
{
    let mut end = at;
    for &c in gates {
        let net = (c / NET_AT % NET) as usize;
        if live[net] != 0 {
            if (marks[net] != 0) == led {
                if end < LISTED {
                    out[end] = c;
                    end += 1;
                }
            }
        }
    }
    end
}

// The live gates that no target leads to, the others, and those that each of the first turns targets leads to: one list behind the other,
// and the end of each.
fn lists_of(
    gates: &[u64],
    live: &[u8; NETS],
    inputs: usize,
    targets: usize,
    turns: usize,
    out: &mut [u64; LISTED],
) -> [usize; LISTS]
    requires { (inputs ≤ 20) × (targets ≤ 4) × (turns ≤ targets) }
    ensures { ListsUpTo (turns + 2) inputs targets live.now gates.now result out.new }
{
    let fan = mark_from(gates, inputs, targets);
    let mut ends = [0usize; LISTS];
    ends[0] = pick(gates, live, &fan, false, 0, out);
    ends[1] = pick(gates, live, &fan, true, ends[0], out);
    // By number, since t gives the target's net and the place of its end.
    for t in 0..turns {
        let marks = mark_from(gates, inputs + t, 1);
        ends[t + 2] = pick(gates, live, &marks, true, ends[t + 1], out);
    }
    ends
}

// The marks of the live nets: outputs of both circuits, nets that are read, and what leads to them.
fn live_marks(gates: &[u64], outputs: &[u16], goldens: &[u16], reads: &[u16]) -> [u8; NETS]
    requires { Below 1024 outputs.now × Below 1024 goldens.now × Below 1024 reads.now }
    ensures { result ≡ live_marks outputs.now goldens.now reads.now gates.now }
{
    let one = mark_nets(outputs, [0; NETS]);
    let two = mark_nets(goldens, one);
    let three = mark_nets(reads, two);
    mark_live(gates, three)
}

// The plan of a search over a miter's inputs where these nets are read, with lists for so many targets: all of them, or none where no target
// is set by itself.
pub(super) fn plan_of(miter: &Miter, reads: Support, turns: usize) -> Plan
    requires { NetsRead reads × (turns ≤ miter.now.targets) }
    ensures { (j : Job) (is : List ℕ) → MergedOf j miter.now → take reads.len reads.nets ≡ is → all (candidate_good j) is ≡ true
        → PlannedOf j is result × (turns ≡ miter.now.targets → TurnsOf j is result) }
{
    let from = &miter.gates[..miter.count];
    let live = live_marks(
        from,
        &miter.outputs[..miter.outs],
        &miter.goldens[..miter.outs],
        &reads.nets[..reads.len],
    );
    let mut gates = [0u64; LISTED];
    let ends = lists_of(from, &live, miter.inputs, miter.targets, turns, &mut gates);
    Plan {
        inputs: miter.inputs,
        targets: miter.targets,
        outs: miter.outs,
        outputs: miter.outputs,
        goldens: miter.goldens,
        reads,
        ends,
        gates,
    }
}

// The plan of a walk over a miter's inputs that reads these nets and compares no outputs: its gates lead to these nets, and no target leads
// to them.
pub(super) fn reads_of(miter: &Miter, reads: Support) -> Plan
    requires { NetsRead reads }
    ensures { (j : Job) (is : List ℕ) → MergedOf j miter.now → take reads.len reads.nets ≡ is
        → all (candidate_good j) is ≡ true → ReadsOf j is result }
{
    let from = &miter.gates[..miter.count];
    let live = live_marks(from, &[], &[], &reads.nets[..reads.len]);
    let fan = mark_from(from, miter.inputs, miter.targets);
    let mut gates = [0u64; LISTED];
    let end = pick(from, &live, &fan, false, 0, &mut gates);
    Plan {
        inputs: miter.inputs,
        targets: miter.targets,
        outs: 0,
        outputs: miter.outputs,
        goldens: miter.goldens,
        reads,
        ends: [end; LISTS],
        gates,
    }
}
