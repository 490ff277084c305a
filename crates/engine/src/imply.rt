// What the values of some nets imply of others. Where the values of a cube imply both values of a net, no input gives a reading of the cube,
// and that is known without evaluating one. The gates are gone through twice: from the last to the first, each gate's net says what it can of
// its operands, and from the first to the last, what is known of its operands says what it can of its net. Where that is not enough, both values
// of a net are tried, an open operand of a gate that is not justified: its own value is known, and what is known of its operands does not give it.
ghost use Rattle.std.specs.Prelude.{◌≡◌, true, List, ℕ, ◌<◌, get_or, take, IfSome};
ghost use Rattle.std.specs.Result.{is_ok};
ghost use Rattle.records.specs.Netlist.{net_at};
ghost use Rattle.engine.specs.Inner.Imply.{Implied, Learns, AllHave, Forces, GateHas, ValuesOf, CubeHas, NoneGives, Unrefuted};
ghost use Rattle.engine.specs.Inner.Packed.{operands_of};

use super::cube::{Cover, Cube};
use super::limits::{NETS, UNKNOWN};
use super::packed::{COUNT_AT, COUNTS, NET, NET_AT, SLOTS_AT, operands_of};
use super::plan::Plan;
use super::ranges::ternary_gate;

// A net was to have both values, so no values of the nets agree with what is known.
#[derive(Drop)]
struct Contradiction;

// Notes that net i is v.
fn learn(i: usize, v: u8, known: &mut [u8; NETS]) -> Result<(), Contradiction>
    requires { i < 1024 }
    ensures { Learns (λ vs. net_at vs i ≡ v) known.old (is_ok result) known.new }
{
    let was = known[i];
    if UNKNOWN <= was {
        known[i] = v;
    } else if was != v {
        return Err(Contradiction);
    }
    Ok(())
}

// .. that each operand of gate c is v
fn learn_operands(c: u64, v: u8, known: &mut [u8; NETS]) -> Result<(), Contradiction>
    ensures { Learns (AllHave v (operands_of c)) known.old (is_ok result) known.new }
{
    for net in operands_of(c) {
        learn(net, v, known)?;
    }
    Ok(())
}

// Whether gate c, before its inversion, is v only where each operand is: it has one operand, it is and and v is 1, or it is or and v is 0.
// The kind is read as the number that the packed gate has.
fn forces(c: u64, v: u8) -> bool
    ensures { result ≡ true → Forces c v }
{
    if c / COUNT_AT % COUNTS == 1 {
        return true;
    }
    match c / 2 % 8 {
        2 => v == 1,
        3 => v == 0,
        _ => false,
    }
}

// Notes what the value of gate c's net says of its operands.
fn learn_from_net(c: u64, known: &mut [u8; NETS]) -> Result<(), Contradiction>
    ensures { Learns (GateHas c) known.old (is_ok result) known.new }
{
    let own = known[(c / NET_AT % NET) as usize];
    if UNKNOWN <= own {
        return Ok(());
    }
    let v = (own + (c % 2) as u8) % 2;
    if forces(c, v) {
        return learn_operands(c, v, known);
    }
    Ok(())
}

// .. for each gate, from the last to the first
fn learn_backward(gates: &[u64], known: &mut [u8; NETS]) -> Result<(), Contradiction>
    ensures { Learns (ValuesOf gates.now) known.old (is_ok result) known.new }
{
    for c in gates.iter().rev() {
        learn_from_net(*c, known)?;
    }
    Ok(())
}

// Notes what is known of gate c's net by its operands. Most gates have two operands of which nothing is known, and say nothing.
fn learn_from_operands(c: u64, known: &mut [u8; NETS]) -> Result<(), Contradiction>
    ensures { Learns (GateHas c) known.old (is_ok result) known.new }
{
    let rest = c / SLOTS_AT;
    if c / COUNT_AT % COUNTS == 2
        && UNKNOWN <= known[(rest % NET) as usize]
        && UNKNOWN <= known[(rest / NET % NET) as usize]
    {
        return Ok(());
    }
    let v = ternary_gate(c, known);
    if UNKNOWN <= v {
        return Ok(());
    }
    learn((c / NET_AT % NET) as usize, v, known)
}

// .. for each gate, from the first to the last
fn learn_forward(gates: &[u64], known: &mut [u8; NETS]) -> Result<(), Contradiction>
    ensures { Learns (ValuesOf gates.now) known.old (is_ok result) known.new }
{
    for c in gates {
        learn_from_operands(*c, known)?;
    }
    Ok(())
}

// Notes the values of a cube's nets.
fn learn_cube(plan: &Plan, cube: Cube, known: &mut [u8; NETS]) -> Result<(), Contradiction>
    ensures { Learns (CubeHas plan.now cube) known.old (is_ok result) known.new }
{
    let value = cube.value as usize;
    let care = cube.care as usize;
    // By number, since k is also a bit of the cube.
    for k in 0..plan.reads.len {
        if (care >> k) % 2 == 1 {
            learn(plan.reads.nets[k] as usize, ((value >> k) % 2) as u8, known)?;
        }
    }
    Ok(())
}

// The first open operand of gate c.
fn open_operand(c: u64, known: &[u8; NETS]) -> Option<usize>
    ensures { IfSome result (λ i. i < 1024) }
{
    operands_of(c).find(|net| UNKNOWN <= known[*net])
}

// An open operand of the last gate that is not justified.
fn open_net(gates: &[u64], known: &[u8; NETS]) -> Option<usize>
    ensures { IfSome result (λ i. i < 1024) }
{
    for c in gates.iter().rev() {
        if known[(*c / NET_AT % NET) as usize] < UNKNOWN && UNKNOWN <= ternary_gate(*c, known) {
            return open_operand(*c, known);
        }
    }
    None
}

// Whether what is known implies both values of a net, or does so in both cases of an open net, and so on, so many nets deep.
fn contradicts(gates: &[u64], known: [u8; NETS], splits: usize) -> bool
    ensures { result ≡ true → (vs : List ℕ) → ValuesOf gates.now vs → Implied known vs → ⊥ }
{
    let mut more = known;
    if learn_backward(gates, &mut more).is_err() {
        return true;
    }
    if learn_forward(gates, &mut more).is_err() {
        return true;
    }
    if splits == 0 {
        return false;
    }
    let Some(i) = open_net(gates, &more) else {
        return false;
    };
    more[i] = 0;
    if !contradicts(gates, more, splits - 1) {
        return false;
    }
    more[i] = 1;
    contradicts(gates, more, splits - 1)
}

// Whether a cube's values contradict each other.
fn refuted(plan: &Plan, cube: Cube, splits: usize) -> bool
    ensures { result ≡ true → (vs : List ℕ) → ValuesOf (take (get_or plan.now.ends 0 0) plan.now.gates) vs → CubeHas plan.now cube vs → ⊥ }
{
    let mut known = [UNKNOWN; NETS];
    if learn_cube(plan, cube, &mut known).is_err() {
        return true;
    }
    contradicts(&plan.gates[..plan.ends[0]], known, splits)
}

// The cubes of a cover that are not refuted, with so many nets split for each. Those that are go to never, unless it has 64 already. A cube costs
// two steps a gate of the plan, and as many for each case tried.
pub(super) fn unrefuted(plan: &Plan, cover: &Cover, splits: usize, never: &mut Cover) -> Cover
    requires { NoneGives plan.now never.old }
    ensures { Unrefuted plan.now cover.now result × NoneGives plan.now never.new }
{
    let mut left = Cover::empty();
    for cube in cover.cubes() {
        if !refuted(plan, *cube, splits) {
            left.push(*cube);
        } else if !never.is_full() {
            never.push(*cube);
        }
    }
    left
}
