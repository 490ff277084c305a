// Partial evaluation of packed gates: one evaluation on 0, 1 and not yet known (2) speaks for a whole range of inputs, which the
// search then need not look at one by one.
ghost use Rattle.std.specs.Prelude.{◌≡◌, ◌↔◌, true, List, map, ℕ, ◌+◌, ◌≤◌, ◌<◌, min, get_or, take};
ghost use Rattle.records.specs.Bytes.{tabulate, placed};
ghost use Rattle.records.specs.Netlist.{net_at};
ghost use Rattle.records.specs.Job.{Job};
ghost use Rattle.engine.specs.Rectify.{rectifies};
ghost use Rattle.engine.specs.Ternary.{unknown};
ghost use Rattle.engine.specs.Inner.Packed.{count_of, operands_of, evaluated};
ghost use Rattle.engine.specs.Inner.Plan.{PlannedOf};
ghost use Rattle.engine.specs.Inner.Ranges.{code_ternary, partial_input, InRange, Known};

use super::limits::{NETS, UNKNOWN};
use super::packed::{COUNT_AT, COUNTS, NET, NET_AT, SLOTS_AT};
use super::plan::Plan;
use super::ternary::{ternary_entry, ternary_table, ternary_value};
use records::SLOTS;

// What is known of the operands of a packed gate, which has four at most; 0 behind them.
fn known_operands(c: u64, known: &[u8; NETS]) -> [u8; SLOTS]
    ensures { take (min (count_of c) 4) result ≡ map (net_at known.now) (take 4 (operands_of c)) }
{
    let mut r = [0u8; SLOTS];
    let mut rest = c / SLOTS_AT;
    let count = (c / COUNT_AT % COUNTS) as usize;
    for i in 0..SLOTS {
        if i < count {
            r[i] = known[(rest % NET) as usize];
        }
        rest = rest / NET;
    }
    r
}

// What is known of a packed gate's net. Most gates have two operands: their kind's table says it at one look.
// What is known is a number, since the three by three tables are looked up by it.
pub(super) fn ternary_gate(c: u64, known: &[u8; NETS]) -> u8
    ensures { result ≡ code_ternary known.now c }
{
    let kind = (c % COUNT_AT) as u8;
    let count = c / COUNT_AT % COUNTS;
    if count == 2 {
        let rest = c / SLOTS_AT;
        let a = known[(rest % NET) as usize] as usize;
        let b = known[(rest / NET % NET) as usize] as usize;
        return ternary_entry(ternary_table(kind), a, b);
    }
    let operands = known_operands(c, known);
    ternary_value(kind, count as u8, operands)
}

// Each gate, one after the other, sets what is known of its own net.
fn eval_partial(gates: &[u64], known: &mut [u8; NETS])
    ensures { known.new ≡ evaluated code_ternary known.old gates.now }
{
    for &c in gates {
        known[(c / NET_AT % NET) as usize] = ternary_gate(c, known);
    }
}

// What is known of input i where the inputs from low on are the bits of prefix.
fn partial_input(i: usize, low: usize, prefix: usize) -> u8
    requires { i < 64 }
    ensures { result ≡ partial_input low prefix i }
{
    if i < low {
        return UNKNOWN;
    }
    ((prefix >> (i - low)) % 2) as u8
}

// What is known of the inputs, from net 0 on: those from low on are the bits of prefix, the others not yet known.
fn load_partial(inputs: usize, low: usize, prefix: usize, known: &mut [u8; NETS])
    requires { inputs < 64 }
    ensures { known.new ≡ placed known.old 0 (tabulate inputs (partial_input low prefix)) }
{
    // By number, since i is the input itself.
    for i in 0..inputs {
        known[i] = partial_input(i, low, prefix);
    }
}

// Not yet known, on count known from net at on: the targets.
fn load_unknown(at: usize, count: usize, known: &mut [u8; NETS])
    requires { at + count ≤ 1024 }
    ensures { known.new ≡ placed known.old at (tabulate count (λ i. unknown)) }
{
    // fill was tried: the proof of returns stays open, over the language's own terms.
    for i in 0..count {
        known[at + i] = UNKNOWN;
    }
}

// Whether each output has one known value in both circuits.
fn known_equal(plan: &Plan, known: &[u8; NETS]) -> bool
    ensures { (result ≡ true) ↔ ((i : ℕ) → i < plan.now.outs → Known
        (get_or known.now (get_or plan.now.outputs i 0) 0) (get_or known.now (get_or plan.now.goldens i 0) 0)) }
{
    // By index, over the plan itself: it keeps the bounds of its nets, so that callers owe none.
    for i in 0..plan.outs {
        let x = known[plan.outputs[i] as usize];
        if UNKNOWN <= x {
            return false;
        }
        if x != known[plan.goldens[i] as usize] {
            return false;
        }
    }
    true
}

// Whether it is settled that every vector rectifies every input whose bits from bit low on are prefix: each output has one known
// value in both circuits. It costs one gate evaluation a live gate for the whole range.
pub(super) fn settled(plan: &Plan, low: usize, prefix: usize) -> bool
    ensures { result ≡ true → (j : Job) (is : List ℕ) → PlannedOf j is plan.now
        → (x v : ℕ) → InRange low prefix x → rectifies j x v ≡ true }
{
    let mut known = [0u8; NETS];
    load_partial(plan.inputs, low, prefix, &mut known);
    load_unknown(plan.inputs, plan.targets, &mut known);
    eval_partial(&plan.gates[..plan.ends[1]], &mut known);
    known_equal(plan, &known)
}
