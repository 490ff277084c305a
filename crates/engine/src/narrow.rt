// Jobs of at most six inputs: one word a net has its values at all inputs, bit y that at input y, and no list of gates is made. Where six
// inputs are not used, the 64 places of a word repeat those of the inputs there are. (The kernel with a parameter for the words of a net
// would not be plainer: what it says of scenario y is at word 16 * i + y / 64, and a product of two variables is beyond linear arithmetic.)
ghost use Rattle.std.specs.Prelude.{◌≡◌, map, cond, ℕ, ◌%◌, ◌^◌, ◌≤◌, ◌<◌, length, take};
ghost use Rattle.records.specs.Claims.{Below};
ghost use Rattle.records.specs.Job.{Job};
ghost use Rattle.records.specs.Netlist.{net_at};
ghost use Rattle.engine.specs.Choice.{same};
ghost use Rattle.engine.specs.Eval.{bit, number_of};
ghost use Rattle.engine.specs.Support.{candidate_nets};
ghost use Rattle.engine.specs.Inner.Guess.{ListTo};
ghost use Rattle.engine.specs.Inner.Miter.{MergedOf};
ghost use Rattle.engine.specs.Inner.Narrow.{values_at, leaf_at, LeavesLoaded, WordsRan, NarrowOf, ValuesOf, MasksOf};
ghost use Rattle.engine.specs.Inner.Note.{gathered};
ghost use Rattle.engine.specs.Inner.Packed.{code_value};
ghost use Rattle.engine.specs.Inner.Plan.{NetsRead};
ghost use Rattle.engine.specs.Inner.Search.{SetsTo};

use super::kernel::apply;
use super::leaves::set_row;
use super::limits::{NETS, READINGS, ROW, ROWS, UNSEEN};
use super::list::Vectors;
use super::masks::vector_at;
use super::miter::Miter;
use super::note::{list_block, meet_block};
use super::packed::{NET, NET_AT, operands_of};
use super::search::{Met, all_vectors};
use super::word::{broadcast, input_word};
use records::Support;

// The word of leaf i at a vector: an input's, or that of a target behind the inputs.
fn leaf_word(inputs: usize, vector: usize, i: usize) -> u64
    requires { i < 64 }
    ensures { (y : ℕ) → y < 64 → bit y result ≡ leaf_at inputs vector y i }
{
    if i < inputs {
        return input_word(i, 0);
    }
    broadcast(vector >> (i - inputs))
}

// The words of the first count nets become those of the leaves at a vector.
fn load_leaves(inputs: usize, count: usize, vector: usize, words: &mut [u64; NETS])
    requires { count ≤ 64 }
    ensures { LeavesLoaded inputs vector count words.old words.new }
{
    // By number, since i is the leaf itself.
    for i in 0..count {
        words[i] = leaf_word(inputs, vector, i);
    }
}

// The word of gate c, from those of its operands. The first joins zeros by operation 3, or.
fn gate_word(c: u64, words: &[u64; NETS]) -> u64
    ensures { (y : ℕ) → y < 64 → bit y result ≡ code_value (values_at words.now y) c }
{
    let mut r = 0u64;
    let mut op = 3u64;
    for net in operands_of(c) {
        r = apply(op, r, words[net]);
        op = c / 2 % 8;
    }
    r ^ broadcast(c as usize)
}

// The gates, in turn.
fn run_words(gates: &[u64], words: &mut [u64; NETS])
    ensures { WordsRan gates.now words.old words.new }
{
    for gate in gates {
        let r = gate_word(*gate, words);
        words[(*gate / NET_AT % NET) as usize] = r;
    }
}

// 1 where the outputs have the values of the goldens.
fn equal_word(outputs: &[u16], goldens: &[u16], words: &[u64; NETS]) -> u64
    requires long { length outputs.now ≡ length goldens.now }
    requires nets { Below 1024 outputs.now × Below 1024 goldens.now }
    ensures { (y : ℕ) → y < 64 → bit y result ≡ cond (same (map (net_at (values_at words.now y)) outputs.now)
        (map (net_at (values_at words.now y)) goldens.now)) 1 0 }
{
    let mut r = !0u64;
    for (output, golden) in outputs.iter().zip(goldens) {
        r &= words[usize::from(*output)] ^ words[usize::from(*golden)] ^ !0;
    }
    r
}

// The words of all nets at a vector.
fn eval_vector(miter: &Miter, vector: usize, words: &mut [u64; NETS])
    ensures { (j : Job) → NarrowOf j miter.now.inputs miter.now.targets (take miter.now.count miter.now.gates)
        → ValuesOf j vector words.new }
{
    load_leaves(miter.inputs, miter.inputs + miter.targets, vector, words);
    run_words(&miter.gates[..miter.count], words);
}

// The rows of all vectors: bit y of row v is 1 where vector v rectifies input y. It costs, for each vector, one gate evaluation a gate, on
// one word. The words become those at the last vector.
fn word_masks(miter: &Miter, words: &mut [u64; NETS]) -> [u64; ROWS]
    requires { miter.now.inputs ≤ 6 }
    ensures masks { (j : Job) → MergedOf j miter.now → MasksOf j result }
    ensures words { (j : Job) → MergedOf j miter.now → (v : ℕ) × ValuesOf j v words.new }
{
    let outputs = &miter.outputs[..miter.outs];
    let goldens = &miter.goldens[..miter.outs];
    let vectors = 1usize << miter.targets;
    let mut masks = [0u64; ROWS];
    // By number, since the step says the vector.
    for step in 0..vectors {
        let v = vector_at(0, step);
        eval_vector(miter, v, words);
        let r = equal_word(outputs, goldens, words);
        set_row(v, [r; ROW], &mut masks);
    }
    masks
}

// The rows of the nets, at most 16; those behind them are 0.
fn read_words(nets: &[u16], words: &[u64; NETS]) -> [u64; ROWS]
    requires { (length nets.now ≤ 16) × Below 1024 nets.now }
    ensures { (y : ℕ) → y < 1024
        → gathered result y ≡ number_of (map (net_at (values_at words.now (y % 64))) nets.now) }
{
    let mut rows = [0u64; ROWS];
    for (k, net) in nets.iter().enumerate() {
        set_row(k, [words[usize::from(*net)]; ROW], &mut rows);
    }
    rows
}

// The vector list over all inputs of a miter with six at most.
pub(super) fn list_of_words(miter: &Miter) -> Vectors
    requires { miter.now.inputs ≤ 6 }
    ensures { (j : Job) → MergedOf j miter.now → ListTo j (2 ^ j.inputs) result }
{
    let mut words = [0u64; NETS];
    let masks = word_masks(miter, &mut words);
    list_block(masks, 0, 1usize << miter.inputs, Vectors::start())
}

// The sets of all readings of these nets, over all inputs of a miter with six at most.
pub(super) fn sets_of_words(miter: &Miter, reads: Support) -> Met
    requires { (miter.now.inputs ≤ 6) × NetsRead reads }
    ensures { (j : Job) → MergedOf j miter.now → take reads.len reads.nets ≡ candidate_nets j → SetsTo j (2 ^ j.inputs) result.skipped result.sets }
{
    let mut words = [0u64; NETS];
    let masks = word_masks(miter, &mut words);
    let readings = read_words(&reads.nets[..reads.len], &words);
    let mut sets = [UNSEEN + all_vectors(miter.targets) as u32; READINGS];
    meet_block(masks, readings, 1, &mut sets);
    Met { sets, skipped: 0 }
}
