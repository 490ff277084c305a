// Gates on 0, 1 and not yet known (2): each kind's three by three table, handed by value to the partial evaluation of the
// search, which goes with it from operand to operand.
ghost use Rattle.std.specs.Prelude.{min, ◌≡◌, map, take};
ghost use Rattle.engine.specs.Ternary.{unknown, ternary_value, ternary_table, entry};

use super::limits::UNKNOWN;
use records::SLOTS;

// The kinds not and and.
// They are numbers, since the tables are looked up by them, and the public functions promise answers for every number.
const NOT: u8 = 3;

const AND: u8 = 4;

// The tables, by kind; the first operand picks the row. A kind of one operand looks at the first alone, a constant at none.
const TABLES: [[[u8; 3]; 3]; 10] = [
    [[0, 0, 0], [0, 0, 0], [0, 0, 0]], // constant zero
    [[1, 1, 1], [1, 1, 1], [1, 1, 1]], // constant one
    [[0, 0, 0], [1, 1, 1], [2, 2, 2]], // buf
    [[1, 1, 1], [0, 0, 0], [2, 2, 2]], // not
    [[0, 0, 0], [0, 1, 2], [0, 2, 2]], // and
    [[1, 1, 1], [1, 0, 2], [1, 2, 2]], // nand
    [[0, 1, 2], [1, 1, 1], [2, 1, 2]], // or
    [[1, 0, 2], [0, 0, 0], [2, 0, 2]], // nor
    [[0, 1, 2], [1, 0, 2], [2, 2, 2]], // xor
    [[1, 0, 2], [0, 1, 2], [2, 2, 2]], // xnor
];

// The table of a kind; a kind above 9 has the value 0.
pub fn ternary_table(kind: u8) -> [[u8; 3]; 3]
    ensures { result ≡ ternary_table kind }
{
    if kind < 10 {
        TABLES[kind as usize]
    } else {
        [[0; 3]; 3]
    }
}

// The entry of a table at two operands; the first picks the row. An operand that is neither 0 nor 1 is not yet known.
pub fn ternary_entry(table: [[u8; 3]; 3], a: usize, b: usize) -> u8
    ensures { result ≡ entry table a b }
{
    table[a.min(UNKNOWN as usize)][b.min(UNKNOWN as usize)]
}

// What is known of a gate of this kind on what is known of its first count operands, of all four where count is above 4: the plain
// kind's table goes from the last of them to the first, and not's inverts what it gives for an odd kind. A kind above 9 has the value 0.
pub fn ternary_value(kind: u8, count: u8, operands: [u8; SLOTS]) -> u8
    ensures { result ≡ ternary_value kind (take count (map (λ x. min x unknown) operands)) }
{
    if 9 < kind {
        return 0;
    }
    let plain = kind - kind % 2;
    let table = ternary_table(plain);
    let mut r = if plain == AND { 1 } else { 0 };
    let used = SLOTS.min(count as usize);
    for i in (0..used).rev() {
        r = ternary_entry(table, operands[i] as usize, r as usize);
    }
    if kind % 2 == 1 {
        return ternary_entry(ternary_table(NOT), r as usize, 0);
    }
    r
}
