// Multiplexer trees: packed gates put behind those of a netlist, a tree over each target's column of a table.
ghost use Rattle.std.specs.Prelude.{◌≡◌, [], ◌∷◌, ℕ, ◌+◌, ◌-◌, ◌^◌, ◌≤◌, ◌<◌, eqb, length};
ghost use Rattle.records.specs.Bytes.{all};
ghost use Rattle.records.specs.Claims.{Below};
ghost use Rattle.engine.specs.Choice.{same};
ghost use Rattle.engine.specs.Eval.{bit, bits, number_of};
ghost use Rattle.records.specs.Gate.{gate_of};
ghost use Rattle.engine.specs.Tree.{column, join_of, builds_low, builds_high, join_gates, tree, tree_size};
ghost use Rattle.engine.specs.Inner.Tree.{GateRoom, GatesPut, column_part, TablePart, tree_start, join_size, JoinRoom, trees_size, TreesPut};
ghost use Rattle.engine.specs.declared.tree.Join.TheVariants.{Both};

use super::limits::NETS;
use super::packed::pack;
use super::table::reading_count;
use records::GATES;

// How the halves of a column, which differ, are joined: the gate that chooses, and the half that has a tree of its own, where one
// has. A half that is all 0 or all 1 has none (card 2 of document 02).
#[derive(Clone, Copy)]
pub enum Join {
    Buf,
    Not,
    AndHigh,
    AndLow,
    OrHigh,
    OrLow,
    Both,
}

// How a tree starts: it is one constant gate of this kind, or the tree of the column's halves, which are equal, or the halves
// joined.
#[derive(Drop)]
pub enum TreeStart {
    Constant(u8),
    Equal,
    Split(Join),
}

// One gate at place at, which drives net base + at, with up to two operands; the place behind it.
// The kind is a number, as the packed gate has it.
fn add_gate(
    kind: u8,
    count: u8,
    a: u16,
    b: u16,
    base: usize,
    at: usize,
    gates: &mut [u64; GATES],
) -> usize
    requires { GateRoom base (at + 1) gates.old × (kind < 16) × (count < 8) × (a < 1024) × (b < 1024) }
    ensures { GatesPut base at gates.old (gate_of kind count a b 0 0 ∷ []) result gates.new }
{
    gates[at] = pack(kind, count, base + at, [a, b, 0, 0]);
    at + 1
}

// The four gates of a multiplexer behind the first count gates: net low where net s is 0, the net of the last of these gates where it
// is 1.
fn put_mux(s: u16, low: u16, base: usize, count: usize, gates: &mut [u64; GATES]) -> usize
    requires { GateRoom base (count + 4) gates.old × (s < 1024) × (low < 1024) × (0 < count) }
    ensures { GatesPut base count gates.old (join_gates Both s low (base + count)) result gates.new }
{
    let n = (base + count) as u16;
    let a = add_gate(3, 1, s, 0, base, count, gates);
    let b = add_gate(4, 2, n, low, base, a, gates);
    let c = add_gate(4, 2, s, n - 1, base, b, gates);
    add_gate(6, 2, n + 1, n + 2, base, c, gates)
}

// The gates that join two halves behind the first high gates: low is where the low half's tree ends, high where the high half's does.
fn put_join(
    join: Join,
    s: u16,
    base: usize,
    low: usize,
    high: usize,
    gates: &mut [u64; GATES],
) -> usize
    requires { JoinRoom join s base low high gates.old }
    ensures { GatesPut base high gates.old (join_gates join s (base + low - 1) (base + high)) result
        gates.new }
{
    let n = (base + high) as u16;
    match join {
        Join::Buf => add_gate(2, 1, s, 0, base, high, gates),
        Join::Not => add_gate(3, 1, s, 0, base, high, gates),
        Join::AndHigh => add_gate(4, 2, s, n - 1, base, high, gates),
        Join::OrLow => add_gate(6, 2, s, n - 1, base, high, gates),
        Join::AndLow => {
            let next = add_gate(3, 1, s, 0, base, high, gates);
            add_gate(4, 2, n, n - 1, base, next, gates)
        }
        Join::OrHigh => {
            let next = add_gate(3, 1, s, 0, base, high, gates);
            add_gate(6, 2, n, n - 1, base, next, gates)
        }
        Join::Both => put_mux(s, (base + low - 1) as u16, base, high, gates),
    }
}

// The bit of target t in an entry.
fn bit_of(entry: u8, t: usize) -> u8
    requires { t < 8 }
    ensures { result ≡ bit t entry }
{
    (entry >> t) % 2
}

// Whether the column of target t is x at each entry.
fn column_is(table: &[u8], t: usize, x: u8) -> bool
    requires { t < 8 }
    ensures { result ≡ all (eqb x) (column table.now t) }
{
    table.iter().all(|e| bit_of(*e, t) == x)
}

// Whether the column of target t has the same bits in both halves.
fn halves_equal(low: &[u8], high: &[u8], t: usize) -> bool
    requires { (t < 8) × (length high.now ≡ length low.now) }
    ensures { result ≡ same (column low.now t) (column high.now t) }
{
    low.iter()
        .zip(high)
        .all(|(a, b)| bit_of(*a, t) == bit_of(*b, t))
}

// How the halves are joined in the column of target t.
fn join_of(low: &[u8], high: &[u8], t: usize) -> Join
    requires { t < 8 }
    ensures { result ≡ join_of (column low.now t) (column high.now t) }
{
    if column_is(low, t, 0) {
        if column_is(high, t, 1) {
            return Join::Buf;
        }
        return Join::AndHigh;
    }
    if column_is(low, t, 1) {
        if column_is(high, t, 0) {
            return Join::Not;
        }
        return Join::OrHigh;
    }
    if column_is(high, t, 0) {
        return Join::AndLow;
    }
    if column_is(high, t, 1) {
        return Join::OrLow;
    }
    Join::Both
}

impl Join {
    // Whether the low half has a tree.
    fn builds_low(self) -> bool
        ensures { result ≡ builds_low self }
    {
        matches!(self, Join::AndLow | Join::OrLow | Join::Both)
    }

    // Whether the high half has one.
    fn builds_high(self) -> bool
        ensures { result ≡ builds_high self }
    {
        matches!(self, Join::AndHigh | Join::OrHigh | Join::Both)
    }

    // How many gates join the halves.
    fn size(self) -> usize
        ensures { result ≡ join_size self }
    {
        match self {
            Join::AndLow | Join::OrHigh => 2,
            Join::Both => 4,
            _ => 1,
        }
    }
}

// How the tree over k nets and the column of target t at the first 2 ^ k entries starts.
fn tree_start(table: &[u8], k: usize, t: usize) -> TreeStart
    requires { TablePart table.now k t }
    ensures { result ≡ tree_start k (column_part table.now 0 k t) }
{
    let table = &table[..reading_count(k)];
    if column_is(table, t, 0) {
        return TreeStart::Constant(0);
    }
    if column_is(table, t, 1) {
        return TreeStart::Constant(1);
    }
    let (low, high) = table.split_at(table.len() / 2);
    if halves_equal(low, high, t) {
        return TreeStart::Equal;
    }
    TreeStart::Split(join_of(low, high, t))
}

// The column of target t at the first 2 ^ k entries, as one number: bit i is that of entry i.
fn column_word(table: &[u8], k: usize, t: usize) -> u64
    requires { TablePart table.now k t × (k ≤ 6) }
    ensures { result ≡ number_of (column_part table.now 0 k t) }
{
    let mut w = 0u64;
    for i in (0..reading_count(k)).rev() {
        w = 2 * w + bit_of(table[i], t) as u64;
    }
    w
}

// How two columns are joined that are numbers; ones has a 1 for each of their entries.
fn word_join(low: u64, high: u64, ones: u64) -> Join
    ensures { (n : ℕ) → ones ≡ 2 ^ n - 1 → low < 2 ^ n → high < 2 ^ n → result ≡ join_of (bits n low) (bits n high) }
{
    if low == 0 {
        if high == ones {
            return Join::Buf;
        }
        return Join::AndHigh;
    }
    if low == ones {
        if high == 0 {
            return Join::Not;
        }
        return Join::OrHigh;
    }
    if high == 0 {
        return Join::AndLow;
    }
    if high == ones {
        return Join::OrLow;
    }
    Join::Both
}

// How many gates the tree has over k nets and a column of 2 ^ k bits that is one number: one where there are two bits or one. It calls itself
// on each half.
fn word_size(w: u64, k: usize) -> usize
    requires { (k ≤ 6) × (w < 2 ^ 2 ^ k) }
    ensures { result ≡ tree_size k (bits (2 ^ k) w) }
{
    if k < 2 {
        return 1;
    }
    let half = reading_count(k - 1);
    let ones = (1u64 << half) - 1;
    let low = w & ones;
    let high = w >> half;
    if low == high {
        return word_size(low, k - 1);
    }
    let join = word_join(low, high, ones);
    let below = if join.builds_low() {
        word_size(low, k - 1)
    } else {
        0
    };
    let above = if join.builds_high() {
        word_size(high, k - 1)
    } else {
        0
    };
    below + above + join.size()
}

// How many gates the tree over k nets and the column of target t at the first 2 ^ k entries has. It calls itself on each half of the column;
// one of up to 64 entries becomes a number, for which each is read once, and above that each is read at most five times a net.
// k goes along with the table, since the number of gates is defined by it (specs/Tree.antt).
fn tree_size(table: &[u8], k: usize, t: usize) -> usize
    requires { TablePart table.now k t }
    ensures { result ≡ tree_size k (column_part table.now 0 k t) }
{
    if k <= 6 {
        return word_size(column_word(table, k, t), k);
    }
    let start = tree_start(table, k, t);
    match start {
        TreeStart::Constant(_) => 1,
        TreeStart::Equal => tree_size(table, k - 1, t),
        TreeStart::Split(join) => {
            let half = reading_count(k - 1);
            let low = if join.builds_low() {
                tree_size(table, k - 1, t)
            } else {
                0
            };
            let high = if join.builds_high() {
                tree_size(&table[half..], k - 1, t)
            } else {
                0
            };
            low + high + join.size()
        }
    }
}

// The tree over k nets and the column of target t at the first 2 ^ k entries, put behind the first count gates; gate i drives net base + i.
// The builder calls itself on each half of the column.
pub(super) fn put_tree(
    table: &[u8],
    t: usize,
    nets: &[u16],
    base: usize,
    count: usize,
    gates: &mut [u64; GATES],
) -> usize
    requires table_part { TablePart table.now (length nets.now) t × Below 1024 nets.now }
    requires gate_room { GateRoom base (count + tree_size (length nets.now) (column_part table.now 0 (length nets.now) t)) gates.old }
    ensures { GatesPut base count gates.old
        (tree (length nets.now) (base + count) nets.now (column_part table.now 0 (length nets.now) t)) result gates.new }
{
    let k = nets.len();
    let start = tree_start(table, k, t);
    match start {
        TreeStart::Constant(kind) => add_gate(kind, 0, 0, 0, base, count, gates),
        TreeStart::Equal => put_tree(table, t, &nets[..k - 1], base, count, gates),
        TreeStart::Split(join) => {
            let half = reading_count(k - 1);
            let mut low = count;
            if join.builds_low() {
                low = put_tree(table, t, &nets[..k - 1], base, count, gates);
            }
            let mut high = low;
            if join.builds_high() {
                high = put_tree(&table[half..], t, &nets[..k - 1], base, low, gates);
            }
            put_join(join, nets[k - 1], base, low, high, gates)
        }
    }
}

// How many gates the trees of all targets have, over k nets and the first 2 ^ k entries of a table.
pub(super) fn trees_size(table: &[u8], k: usize, targets: usize) -> usize
    requires { (k ≤ 10) × (2 ^ k ≤ length table.now) × (targets ≤ 4) }
    ensures { result ≡ trees_size targets 0 k table.now }
{
    // map and sum were tried: the proof of what sum requires stays open, as tree_size asks for a small t.
    let mut sum = 0usize;
    for t in 0..targets {
        sum += tree_size(table, k, t);
    }
    sum
}

// The trees of all targets, one after the other behind the first count gates, over the nets; gate i drives net base + i. The net of
// each tree is the number of its target afterwards, from place base on.
pub(super) fn put_trees(
    table: &[u8],
    nets: &[u16],
    targets: usize,
    base: usize,
    count: usize,
    numbers: &mut [u16; NETS],
    gates: &mut [u64; GATES],
) -> usize
    requires nets_bound { (length nets.now ≤ 10) × (2 ^ length nets.now ≤ length table.now) × Below 1024 nets.now }
    requires targets_bound { (targets ≤ 4) × (base + targets ≤ 1024) }
    requires gate_room { GateRoom base (count + trees_size targets 0 (length nets.now) table.now) gates.old }
    ensures { TreesPut targets (length nets.now) base nets.now table.now count numbers.old gates.old result
        numbers.new gates.new }
{
    let mut next = count;
    // By number, since t is the target itself.
    for t in 0..targets {
        next = put_tree(table, t, nets, base, next, gates);
        numbers[base + t] = (base + next - 1) as u16;
    }
    next
}
