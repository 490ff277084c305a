// The fields of a netlist that has no targets, put into the reply.
ghost use Rattle.std.specs.Prelude.{◌≡◌, map, ◌+◌, ◌*◌, ◌≤◌, ◌<◌, length};
ghost use Rattle.records.specs.Bytes.{flat, field};
ghost use Rattle.records.specs.Job.{gate_bytes};
ghost use Rattle.engine.specs.Inner.Sheet.{BytesPut};
ghost use Rattle.engine.specs.Inner.Packed.{gate_in};
ghost use Rattle.engine.specs.Inner.Netlist.{netlist_bytes};

use super::packed::{count_of, kind_of, slots_in};
use super::sheet::{put_bytes, put_nets, put_pairs};
use records::{GATE_SIZE, GATES};

// The bytes of the gate in the number c.
fn put_code(c: u64, bytes: &mut [u8])
    requires { length bytes.old ≡ 10 }
    ensures { bytes.new ≡ gate_bytes (gate_in c) }
{
    bytes[0] = kind_of(c);
    bytes[1] = count_of(c);
    put_pairs(&slots_in(c), &mut bytes[2..]);
}

// The bytes of gates, ten each.
fn put_codes(gates: &[u64], bytes: &mut [u8])
    requires { length bytes.old ≡ 10 * length gates.now }
    ensures { bytes.new ≡ flat gate_bytes (map gate_in gates.now) }
{
    for (i, c) in gates.iter().enumerate() {
        let at = GATE_SIZE * i;
        put_code(*c, &mut bytes[at..at + GATE_SIZE]);
    }
}

// The field of gates, from position at on.
fn put_gates(reply: &mut [u8], at: usize, gates: &[u64]) -> usize
    requires { (length gates.now ≤ 400) × (at + 3 + 10 * length gates.now ≤ length reply.old) }
    ensures { BytesPut reply.old at (field 2 (flat gate_bytes (map gate_in gates.now))) reply.new result }
{
    let mut bytes = [0u8; GATE_SIZE * GATES];
    let count = GATE_SIZE * gates.len();
    put_codes(gates, &mut bytes[..count]);
    put_bytes(reply, at, 2, &bytes[..count])
}

// The three fields of a netlist, at the start.
pub(super) fn put_netlist(reply: &mut [u8], inputs: usize, gates: &[u64], outputs: &[u16]) -> usize
    requires { (4075 ≤ length reply.old) × (inputs < 256) × (length gates.now ≤ 400) × (length outputs.now ≤ 32) }
    ensures { BytesPut reply.old 0 (netlist_bytes inputs (map gate_in gates.now) outputs.now) reply.new result }
{
    let a = put_bytes(reply, 0, 1, &[inputs as u8, 0]);
    let b = put_gates(reply, a, gates);
    put_nets(reply, b, 3, outputs)
}
