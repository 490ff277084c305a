// A gate in one number, from the lowest bit on: its kind (4 bits), how many operands it has (3), the net that it drives (10), and
// what stands in its four operand slots (10 each).
// One number and no struct, as the innermost loops read one word a gate and cut its parts from it (DECISIONS, entry 41).
ghost use Rattle.std.specs.Prelude.{◌≡◌, ◌/◌, ◌%◌, ◌<◌};
ghost use Rattle.records.specs.Claims.{Below};
ghost use Rattle.engine.specs.Inner.Packed.{fields, kind_of, count_of, gate_with, packed, operands_of};
ghost use Rattle.engine.specs.Inner.Operands.{operands_left};

use records::SLOTS;

// Where its parts begin: what is below its count, its net and its operand slots; a count is below COUNTS, a net below NET.
pub(super) const COUNT_AT: u64 = 16;

pub(super) const COUNTS: u64 = 8;

pub(super) const NET_AT: u64 = 128;

pub(super) const NET: u64 = 1024;

pub(super) const SLOTS_AT: u64 = 131072;

// .. the slots behind the first
const SECOND_AT: u64 = NET * SLOTS_AT;

const THIRD_AT: u64 = NET * SECOND_AT;

const FOURTH_AT: u64 = NET * THIRD_AT;

// The gate of this kind with count operands, which drives net own, in one number.
pub(super) fn pack(kind: u8, count: u8, own: usize, slots: [u16; SLOTS]) -> u64
    requires { (kind < 16) × (count < 8) × (own < 1024) × Below 1024 slots }
    ensures { result ≡ packed own (gate_with kind count slots) }
{
    let low = kind as u64 + COUNT_AT * count as u64 + NET_AT * own as u64;
    let first = SLOTS_AT * slots[0] as u64 + SECOND_AT * slots[1] as u64;
    low + first + THIRD_AT * slots[2] as u64 + FOURTH_AT * slots[3] as u64
}

// The kind of the gate in the number c.
pub(super) fn kind_of(c: u64) -> u8
    ensures { result ≡ kind_of c }
{
    (c % COUNT_AT) as u8
}

// How many operands it has.
pub(super) fn count_of(c: u64) -> u8
    ensures { result ≡ count_of c }
{
    (c / COUNT_AT % COUNTS) as u8
}

// Its kind and count, as one number.
pub(super) fn form_of(c: u64) -> u64
    ensures { result ≡ c % 128 }
{
    c % NET_AT
}

// Its operand slots, as one number.
pub(super) fn slots_number(c: u64) -> u64
    ensures { result ≡ c / 131072 }
{
    c / SLOTS_AT
}

// What stands in its operand slots.
pub(super) fn slots_in(c: u64) -> [u16; SLOTS]
    ensures { result ≡ fields 4 (c / 131072) }
{
    let first = c / SLOTS_AT;
    let second = first / NET;
    let third = second / NET;
    let fourth = third / NET;
    [
        (first % NET) as u16,
        (second % NET) as u16,
        (third % NET) as u16,
        (fourth % NET) as u16,
    ]
}

// The nets of a gate's operands, first to last: those of the slots left, of which rest has the first in its lowest bits.
#[derive(Drop)]
pub struct Operands {
    left: u64,
    rest: u64,
}

pub(super) fn operands_of(c: u64) -> Operands
    ensures { operands_left result ≡ operands_of c }
{
    Operands {
        left: c / COUNT_AT % COUNTS,
        rest: c / SLOTS_AT,
    }
}

impl Iterator for Operands {
    ghost use Rattle.std.specs.Iterator.{YieldsFirst, item_count};
    ghost use Rattle.engine.specs.Inner.Operands.{operands_left};

    type Item = usize;

    ghost next_gives = { YieldsFirst operands_left };

    ghost remaining = { item_count operands_left };

    fn next(&mut self) -> Option<usize> {
        if self.left == 0 {
            return None;
        }
        let net = (self.rest % NET) as usize;
        self.left -= 1;
        self.rest = self.rest / NET;
        Some(net)
    }
}
