// Gates: the check of one gate, and its value on 0 and 1.
ghost use Rattle.std.specs.Prelude.{◌≡◌, cond, [], ◌∷◌, map, ◌%◌, ◌<◌, ltb, eqb, take};
ghost use Rattle.records.specs.Gate.{permits, gate_value};
ghost use Rattle.records.specs.Refusal.{gate_good};
ghost use Rattle.records.specs.Service.{struct_slots, gate_from};

use super::limits::SLOTS;

// A gate as it stands in a lent place: its kind, how many operands it has, and its operand slots, used or not.
// The kind is a number: write must refuse those above 9, and value and ternary_value promise answers there too.
#[derive(Clone, Copy)]
pub struct Gate {
    pub kind: u8,
    pub count: u8,
    pub first: u16,
    pub second: u16,
    pub third: u16,
    pub fourth: u16,
}

// The operand slots of a gate.
// A function, not a From, since its name is public.
pub fn slots_of(gate: Gate) -> [u16; SLOTS]
    ensures { result ≡ struct_slots gate }
{
    [gate.first, gate.second, gate.third, gate.fourth]
}

// Whether there is such a kind, and it may have so many operands.
fn permits(kind: u8, count: u8) -> bool
    ensures { result ≡ permits kind count }
{
    match kind {
        0 | 1 => count == 0,
        2 | 3 => count == 1,
        4..=9 => 2 <= count && count <= 4,
        _ => false,
    }
}

// Whether x may stand in an operand slot of a gate that drives net: below net where the slot is used, else 0.
fn slot_good(used: bool, x: usize, net: usize) -> bool
    ensures { result ≡ cond used (ltb x net) (eqb 0 x) }
{
    if used { x < net } else { x == 0 }
}

// Whether a gate may drive net.
pub(super) fn gate_good(gate: Gate, net: usize) -> bool
    ensures { result ≡ gate_good net (gate_from gate) }
{
    if !permits(gate.kind, gate.count) {
        return false;
    }
    let slots = slots_of(gate);
    let count = gate.count as usize;
    // By number, since whether a slot is used is told by its number.
    for i in 0..SLOTS {
        if !slot_good(i < count, slots[i] as usize, net) {
            return false;
        }
    }
    true
}

// A kind that inverts nothing, on two values; a kind above 9 has the value 0.
fn plain_value(kind: u8, x: u8, y: u8) -> u8
    requires { (kind % 2 ≡ 0) × (x < 2) × (y < 2) }
    ensures { (result ≡ gate_value kind (x ∷ y ∷ [])) × (result < 2) }
{
    match kind {
        2 => x,
        4 => x * y,
        6 => (x + y + x * y) % 2,
        8 => (x + y) % 2,
        _ => 0,
    }
}

// The value of a gate of this kind on the lowest bits of its first count operands, of all four where count is above 4. A count that the
// kind does not permit has a value too: and of none is 1, every other even kind of none is 0, an odd kind inverts that; buf and not
// look at the first operand alone, constants at none. A kind above 9 has the value 0.
pub fn value(kind: u8, count: u8, operands: [u8; SLOTS]) -> u8
    ensures { result ≡ gate_value kind (take count (map (λ v. v % 2) operands)) }
{
    if 9 < kind {
        return 0;
    }
    let plain = kind - kind % 2;
    let mut r = if plain == 4 { 1 } else { 0 };
    for i in (0..if count < 4 { count as usize } else { SLOTS }).rev() {
        r = plain_value(plain, operands[i] % 2, r);
    }
    if kind % 2 == 1 { 1 - r } else { r }
}
