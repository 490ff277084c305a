// The sheets of judge and choose: their fields put into the reply.
ghost use Rattle.std.specs.Prelude.{◌≡◌, ◌++◌, ◌+◌, ◌*◌, ◌≤◌, ◌<◌, length};
ghost use Rattle.records.specs.Bytes.{flat, byte_pair, field};
ghost use Rattle.engine.specs.Verdict.{four_bytes};
ghost use Rattle.engine.specs.Inner.Sheet.{BytesPut, patch_bytes};

use records::{OUTPUTS, put_field};

// The bytes of numbers, two each.
pub(super) fn put_pairs(numbers: &[u16], bytes: &mut [u8])
    requires { length bytes.old ≡ 2 * length numbers.now }
    ensures { bytes.new ≡ flat byte_pair numbers.now }
{
    for (i, x) in numbers.iter().enumerate() {
        let at = 2 * i;
        bytes[at..at + 2].copy_from_slice(&x.to_be_bytes());
    }
}

// A field for which there is room, from position at on.
pub(super) fn put_bytes(reply: &mut [u8], at: usize, tag: u8, bytes: &[u8]) -> usize
    requires { (length bytes.now < 65536) × (at + 3 + length bytes.now ≤ length reply.old) }
    ensures { BytesPut reply.old at (field tag bytes.now) reply.new result }
{
    put_field(reply, at, tag, bytes)
}

// .. of nets, two bytes each.
pub(super) fn put_nets(reply: &mut [u8], at: usize, tag: u8, nets: &[u16]) -> usize
    requires { (length nets.now ≤ 32) × (at + 3 + 2 * length nets.now ≤ length reply.old) }
    ensures { BytesPut reply.old at (field tag (flat byte_pair nets.now)) reply.new result }
{
    let mut bytes = [0u8; 2 * OUTPUTS];
    let count = 2 * nets.len();
    put_pairs(nets, &mut bytes[..count]);
    put_bytes(reply, at, tag, &bytes[..count])
}

// .. of a number of four bytes.
fn put_number(reply: &mut [u8], at: usize, tag: u8, x: u32) -> usize
    requires { at + 7 ≤ length reply.old }
    ensures { BytesPut reply.old at (field tag (four_bytes x)) reply.new result }
{
    put_bytes(reply, at, tag, &x.to_be_bytes())
}

// .. of a vector list.
pub(super) fn put_vectors(reply: &mut [u8], at: usize, list: &[u8]) -> usize
    requires { (length list.now ≤ 16) × (at + 3 + length list.now ≤ length reply.old) }
    ensures { BytesPut reply.old at (field 19 list.now) reply.new result }
{
    put_bytes(reply, at, 19, list)
}

// The sheet of a patch: the nets of its support, its table, its cost and the notes.
// The reply's room stays a clause: what the services promise is of the whole lent buffer, not of its first bytes.
pub(super) fn put_patch(
    reply: &mut [u8],
    nets: &[u16],
    table: &[u8],
    cost: u32,
    notes: &[u8],
) -> usize
    requires { (2084 ≤ length reply.old) × (length nets.now ≤ 10) × (length table.now ≤ 1024) × (length notes.now ≤ 1024) }
    ensures { BytesPut reply.old 0 (patch_bytes nets.now table.now cost notes.now) reply.new result }
{
    let a = put_nets(reply, 0, 16, nets);
    let b = put_bytes(reply, a, 17, table);
    let c = put_number(reply, b, 18, cost);
    put_bytes(reply, c, 22, notes)
}

// The sheet of an unfixable input: the input and the vector list.
pub(super) fn put_unfixable(reply: &mut [u8], input: usize, list: &[u8]) -> usize
    requires { (26 ≤ length reply.old) × (input < 4294967296) × (length list.now ≤ 16) }
    ensures { BytesPut reply.old 0 (field 20 (four_bytes input) ++ field 19 list.now) reply.new result }
{
    let a = put_number(reply, 0, 20, input as u32);
    put_vectors(reply, a, list)
}

// The sheet of a blind reading.
pub(super) fn put_blind(reply: &mut [u8], reading: usize) -> usize
    requires { (5 ≤ length reply.old) × (reading < 65536) }
    ensures { BytesPut reply.old 0 (field 21 (byte_pair reading)) reply.new result }
{
    put_bytes(reply, 0, 21, &(reading as u16).to_be_bytes())
}
