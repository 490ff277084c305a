// Netlists in a job's bytes: the checks of gates and outputs, and the targets' fanout.
ghost use Rattle.std.specs.Prelude.{◌≡◌, true, ℕ, ◌+◌, ◌*◌, ◌/◌, ◌≤◌, ◌<◌, max, length, get_or, take, ltb};
ghost use Rattle.records.specs.Bytes.{all};
ghost use Rattle.records.specs.Netlist.{mark_of, fanout};
ghost use Rattle.records.specs.Job.{gates_of, nets_of};
ghost use Rattle.records.specs.Refusal.{gates_good};
ghost use Rattle.records.specs.Service.{gate_from};
ghost use Rattle.records.specs.Inner.{check_of, leaf_marks, struct_slots};

use super::field::{Check, word_at};
use super::gate::{Gate, gate_good, slots_of};
use super::gates::gate_at;
use super::limits::{GATE_SIZE, NETS};

// The gate check: whether each gate of the gate field's bytes may drive its net, the first one net base.
pub(super) fn check_gates(s: &[u8], base: usize) -> Check
    requires { base < 65536 }
    ensures { result ≡ check_of (gates_good base (gates_of s.now)) }
{
    // By number, since i gives the gate's net.
    for i in 0..s.len() / GATE_SIZE {
        if !gate_good(gate_at(s, GATE_SIZE * i), base + i) {
            return Check::Failed;
        }
    }
    Check::Passed
}

// The output check: whether each net of the output field's bytes is below nets.
pub(super) fn check_outputs(s: &[u8], nets: usize) -> Check
    ensures { result ≡ check_of (all (λ i. ltb i nets) (nets_of s.now)) }
{
    // By index, since numbers are read at positions.
    for i in 0..s.len() / 2 {
        let net = word_at(s, 2 * i);
        if nets <= net {
            return Check::Failed;
        }
    }
    Check::Passed
}

// The mark of a gate: 1 where a used operand is marked.
// A mark is a number, as in the definition fanout, which takes the greatest of the operands' marks.
fn gate_mark(marks: &[u8; NETS], gate: Gate) -> u8
    requires { (gate.count ≤ 4) × ((i : ℕ) → i < gate.count → get_or (struct_slots gate) i 0 < 424) }
    ensures { result ≡ mark_of marks.now (gate_from gate) }
{
    let slots = slots_of(gate);
    let mut r = 0u8;
    for i in (0..gate.count as usize).rev() {
        r = marks[slots[i] as usize].max(r);
    }
    r
}

// The marks of inputs and targets: 0 and 1.
fn leaf_marks(inputs: usize, targets: usize) -> [u8; NETS]
    requires { inputs + targets ≤ 424 }
    ensures { take (inputs + targets) result ≡ leaf_marks inputs targets }
{
    let mut marks = [0u8; NETS];
    marks[inputs..inputs + targets].fill(1);
    marks
}

// The targets' fanout, a mark for each net of the old netlist whose gates have these bytes.
pub(super) fn fanout_marks(s: &[u8], inputs: usize, targets: usize) -> [u8; NETS]
    requires s_bound { inputs + targets + length s.now / 10 ≤ 424 }
    requires s_value { gates_good (inputs + targets) (gates_of s.now) ≡ true }
    ensures { take (inputs + targets + length s.now / 10) result ≡ fanout inputs targets (gates_of s.now) }
{
    let mut marks = leaf_marks(inputs, targets);
    let base = inputs + targets;
    // By number, since i gives the gate's net.
    for i in 0..s.len() / GATE_SIZE {
        marks[base + i] = gate_mark(&marks, gate_at(s, GATE_SIZE * i));
    }
    marks
}
