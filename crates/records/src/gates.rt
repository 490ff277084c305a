// Lists of gate structs, filled from bytes and put as bytes.
ghost use Rattle.std.specs.Prelude.{◌≡◌, ◌+◌, ◌*◌, ◌≤◌, length};
ghost use Rattle.records.specs.Bytes.{placed};
ghost use Rattle.records.specs.Job.{gate_bytes};
ghost use Rattle.records.specs.Service.{gate_from};
ghost use Rattle.records.specs.Inner.{struct_at, structs_at, gates_bytes};

use super::field::u16_at;
use super::gate::Gate;
use super::limits::GATE_SIZE;
use super::put::put_word;

// The gate whose bytes stand at a position.
pub(super) fn gate_at(s: &[u8], at: usize) -> Gate
    requires { at + 10 ≤ length s.now }
    ensures { result ≡ struct_at s.now at }
{
    Gate {
        kind: s[at],
        count: s[at + 1],
        first: u16_at(s, at + 2),
        second: u16_at(s, at + 4),
        third: u16_at(s, at + 6),
        fourth: u16_at(s, at + 8),
    }
}

// A gate's bytes.
fn put_gate(buf: &mut [u8], at: usize, gate: Gate)
    requires { at + 10 ≤ length buf.old }
    ensures { buf.new ≡ placed buf.old at (gate_bytes (gate_from gate)) }
{
    buf[at] = gate.kind;
    buf[at + 1] = gate.count;
    put_word(buf, at + 2, gate.first);
    put_word(buf, at + 4, gate.second);
    put_word(buf, at + 6, gate.third);
    put_word(buf, at + 8, gate.fourth);
}

// The first count places with the gates whose bytes stand from a position on.
pub(super) fn fill_gates(s: &[u8], at: usize, count: usize, gates: &mut [Gate])
    requires { (at + 10 * count ≤ length s.now) × (count ≤ length gates.old) }
    ensures { gates.new ≡ placed gates.old 0 (structs_at s.now at count) }
{
    // By index: one i says the gate's place and the position of its bytes.
    for i in 0..count {
        gates[i] = gate_at(s, at + GATE_SIZE * i);
    }
}

// The bytes of the first count gates, from a position on.
pub(super) fn put_gates(gates: &[Gate], count: usize, at: usize, buf: &mut [u8])
    requires { (at + 10 * count ≤ length buf.old) × (count ≤ length gates.now) }
    ensures { buf.new ≡ placed buf.old at (gates_bytes count gates.now) }
{
    // By index, as in fill_gates.
    for i in 0..count {
        put_gate(buf, at + GATE_SIZE * i, gates[i]);
    }
}
