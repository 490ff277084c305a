// Single nets and rows of a block of 1,024 inputs: scenario y of block b is input 1,024 * b + y. A row is the 16 words of a net.
ghost use Rattle.std.specs.Prelude.{◌≡◌, cond, ℕ, ◌+◌, ◌*◌, ◌≤◌, ◌<◌, min, eqb, length, take};
ghost use Rattle.engine.specs.Eval.{bit};
ghost use Rattle.engine.specs.Inner.Cover.{reading_in};
ghost use Rattle.engine.specs.Inner.Kernel.{row_value, value_in, NetSet, NetsSet};
ghost use Rattle.engine.specs.Inner.Note.{gathered};
ghost use Rattle.engine.specs.Inner.Search.{RowEqual};

use super::limits::{BLOCK, ROW, ROWS, WORDS};
use super::plan::Plan;
use super::word::{broadcast, input_word};
use std::array;

// How many of the inputs left are in one block.
pub(super) fn block_inputs(left: usize) -> usize
    ensures { result ≡ min left 1024 }
{
    left.min(BLOCK)
}

// The row r becomes that of net i. (With copy_from_slice rows that are made anew would be copied twice. The kernel's store has one caller,
// so that it is part of the kernel's loop.)
pub(super) fn set_row(i: usize, r: [u64; ROW], words: &mut [u64])
    requires { 16 * i + 16 ≤ length words.old }
    ensures { NetSet i (row_value r) words.old words.new }
{
    for w in 0..ROW {
        words[ROW * i + w] = r[w];
    }
}

// Net i becomes the lowest bit of x in every scenario.
pub(super) fn set_net(i: usize, x: usize, words: &mut [u64; WORDS])
    requires { i < 1024 }
    ensures { NetSet i (λ y. bit 0 x) words.old words.new }
{
    set_row(i, [broadcast(x); ROW], words);
}

// The row of input i in block b.
fn input_row(i: usize, b: usize) -> [u64; ROW]
    requires { (i < 64) × (b < 65536) }
    ensures { (y : ℕ) → y < 1024 → row_value result y ≡ bit i (1024 * b + y) }
{
    array::from_fn(|w| input_word(i, ROW * b + w))
}

// The rows of the inputs in block b, from net 0 on.
pub(super) fn load_inputs(inputs: usize, b: usize, words: &mut [u64; WORDS])
    requires { (inputs ≤ 20) × (b < 65536) }
    ensures { NetsSet 0 inputs (λ y k. bit k (1024 * b + y)) words.old words.new }
{
    // By number, since i is the input itself.
    for i in 0..inputs {
        set_row(i, input_row(i, b), words);
    }
}

// The targets, from net at on, become the bits of a vector in every scenario.
pub(super) fn set_vector(at: usize, targets: usize, vector: usize, words: &mut [u64; WORDS])
    requires { (at + targets ≤ 1024) × (targets ≤ 16) }
    ensures { NetsSet at targets (λ y k. bit k vector) words.old words.new }
{
    // By number, since i is a bit of the vector.
    for i in 0..targets {
        set_net(at + i, vector >> i, words);
    }
}

// The row of net i.
pub(super) fn row_of(i: usize, words: &[u64]) -> [u64; ROW]
    requires { 16 * i + 16 ≤ length words.now }
    ensures { (y : ℕ) → y < 1024 → row_value result y ≡ value_in words.now y i }
{
    array::from_fn(|w| words[ROW * i + w])
}

// The rows of the nets that a plan reads; the others of the 16 rows are 0.
pub(super) fn read_rows(plan: &Plan, words: &[u64; WORDS]) -> [u64; ROWS]
    ensures { (y : ℕ) → y < 1024 → gathered result y ≡ reading_in words.now (take plan.now.reads.len plan.now.reads.nets) y }
{
    let mut rows = [0u64; ROWS];
    // By number, since k says the row too. The plan keeps the bounds of its nets, so that callers owe none.
    for k in 0..plan.reads.len {
        let r = row_of(plan.reads.nets[k] as usize, words);
        set_row(k, r, &mut rows);
    }
    rows
}

// The row r, with 0 where the nets a and b differ.
fn keep_equal(a: usize, b: usize, r: &mut [u64; ROW], words: &[u64; WORDS])
    requires { (a < 1024) × (b < 1024) }
    ensures { (y : ℕ) → y < 1024 → row_value r.new y
        ≡ cond (eqb (value_in words.now y a) (value_in words.now y b)) (row_value r.old y) 0 }
{
    // By index: the innermost loop, over three rows at one index.
    for w in 0..ROW {
        r[w] &= words[ROW * a + w] ^ words[ROW * b + w] ^ !0;
    }
}

// 1 where a plan's outputs have the values of the goldens.
pub(super) fn equal_row(plan: &Plan, words: &[u64; WORDS]) -> [u64; ROW]
    ensures { RowEqual plan.now words.now result }
{
    let mut r = [!0u64; ROW];
    // By index, over the plan itself: it keeps the bounds of its nets, so that callers owe none.
    for k in 0..plan.outs {
        keep_equal(
            plan.outputs[k] as usize,
            plan.goldens[k] as usize,
            &mut r,
            words,
        );
    }
    r
}
