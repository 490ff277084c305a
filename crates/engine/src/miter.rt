// Both circuits as one netlist (the field's miter), with a gate in one number.
ghost use Rattle.std.specs.Prelude.{◌≡◌, map, ℕ, ◌+◌, ◌≤◌, ◌<◌, length, get_or, take};
ghost use Rattle.records.specs.Claims.{Below};
ghost use Rattle.records.specs.Service.{gate_from};
ghost use Rattle.engine.specs.Inner.Packed.{packed, packed_from};
ghost use Rattle.engine.specs.Inner.Shifted.{shifted_net, shifted, GateFits, GatesFit};

use super::limits::MITER_GATES;
use super::packed::pack;
use records::{Gate, JobParts, OUTPUTS, slots_of};

// Inputs, targets, old gates, golden gates. The golden nets are those of the golden outputs in the miter. The two lists of nets stand
// apart, since each is read by itself but for one comparison of both.
// Arrays with counts, since nothing here uses the heap.
#[derive(Drop)]
pub struct Miter {
    pub inputs: usize,
    pub targets: usize,
    pub count: usize,
    pub gates: [u64; MITER_GATES],
    pub outs: usize,
    pub outputs: [u16; OUTPUTS],
    pub goldens: [u16; OUTPUTS],
    ghost inputs_bound: { inputs ≤ 20 },
    ghost targets_bound: { targets ≤ 4 },
    ghost count_bound: { count ≤ 800 },
    ghost outs_bound: { outs ≤ 32 },
    ghost outputs_below: { Below 1024 outputs },
    ghost goldens_below: { Below 1024 goldens },
}

impl Miter {
    ghost use Rattle.records.specs.Job.{Job};
    ghost use Rattle.records.specs.Parts.{PartsOf};
    ghost use Rattle.engine.specs.Inner.Miter.{SomeParts, MiterOf};

    // The miter of a good job's parts.
    pub(super) fn of_parts(job: &JobParts) -> Miter
        requires { SomeParts job.now }
        ensures { (j : Job) → PartsOf j job.now → MiterOf j result }
    {
        let inputs = job.counts.inputs;
        let targets = job.counts.targets;
        let old_count = job.counts.old.gates;
        let golden_count = job.counts.golden.gates;
        let outs = job.counts.old.outputs;
        let base = inputs + targets;
        let shift = targets + old_count;
        let count = old_count + golden_count;
        let mut gates = [0u64; MITER_GATES];
        put_gates(
            &job.old[..old_count],
            inputs,
            0,
            base,
            &mut gates[..old_count],
        );
        put_gates(
            &job.golden[..golden_count],
            inputs,
            shift,
            base + old_count,
            &mut gates[old_count..count],
        );
        let outputs = nets_from(&job.outputs[..outs], inputs, 0);
        let goldens = nets_from(&job.goldens[..outs], inputs, shift);
        Miter {
            inputs,
            targets,
            count,
            gates,
            outs,
            outputs,
            goldens,
        }
    }
}

// A net in the miter: an input keeps its number, a gate's net stands shift further on.
fn shift_net(net: u16, inputs: usize, shift: usize) -> u16
    requires { net + shift < 1024 }
    ensures { (result ≡ shifted_net inputs shift net) × (result < 1024) }
{
    let net = net as usize;
    if net < inputs {
        return net as u16;
    }
    (net + shift) as u16
}

// The nets at their nets in the miter.
fn shift_nets(nets: &mut [u16], inputs: usize, shift: usize)
    requires { (i : ℕ) → i < length nets.old → get_or nets.old i 0 + shift < 1024 }
    ensures { nets.new ≡ map (shifted_net inputs shift) nets.old }
{
    for net in nets.iter_mut() {
        *net = shift_net(*net, inputs, shift);
    }
}

// .. of up to 32 nets, 0 behind them.
fn nets_from(nets: &[u16], inputs: usize, shift: usize) -> [u16; OUTPUTS]
    requires { (length nets.now ≤ 32) × ((i : ℕ) → i < length nets.now → get_or nets.now i 0 + shift < 1024) }
    ensures { Below 1024 result × (take (length nets.now) result ≡ map (shifted_net inputs shift) nets.now) }
{
    let mut r = [0u16; OUTPUTS];
    let used = &mut r[..nets.len()];
    used.copy_from_slice(nets);
    shift_nets(used, inputs, shift);
    r
}

// A gate that drives net own, in one number.
fn gate_code(gate: Gate, own: usize, inputs: usize, shift: usize) -> u64
    requires { GateFits gate shift × (own < 1024) }
    ensures { result ≡ packed own (shifted inputs shift (gate_from gate)) }
{
    let mut slots = slots_of(gate);
    shift_nets(&mut slots[..gate.count as usize], inputs, shift);
    pack(gate.kind, gate.count, own, slots)
}

// The gates, which drive the nets from base on, each in one number.
fn put_gates(gates: &[Gate], inputs: usize, shift: usize, base: usize, out: &mut [u64])
    requires { GatesFit gates.now shift base × (length out.old ≡ length gates.now) }
    ensures { out.new ≡ packed_from base (map (shifted inputs shift) (map gate_from gates.now)) }
{
    for (i, gate) in gates.iter().enumerate() {
        out[i] = gate_code(*gate, base + i, inputs, shift);
    }
}
