// The rows of a block, transposed: 16 rows of 16 words, word w of row i at 16 i + w. Each column of 16 words is turned by itself, so
// that a word has what all rows say of four scenarios.
ghost use Rattle.std.specs.Prelude.{◌≡◌, ◌^◌, ◌≤◌, ◌<◌};
ghost use Rattle.engine.specs.Inner.Turn.{Moved, HalfMask, SwappedRow, Swapped, Turned, Column, Placed, ColumnsTurned};

use super::limits::{ROW, ROWS};
use std::array;

fn power(e: u64) -> usize
    requires { e < 4 }
    ensures { (result ≡ 2 ^ e) × (result ≤ 8) }
{
    1 << e
}

// The share of bit e in a row's number. (Written i & power(e), the compiler unrolls no stage.)
fn moved(e: u64, i: usize) -> usize
    requires { (e < 4) × (i < 16) }
    ensures { Moved e i result }
{
    (i >> e) % 2 << e
}

// Row i after bit e of the rows' numbers and of the bits' places have changed places. The mask low has the places without bit e.
fn row(x: &[u64; ROW], e: u64, low: u64, i: usize) -> u64
    requires { (e < 4) × (i < 16) × HalfMask e low }
    ensures { SwappedRow e x.now i result }
{
    let d = power(e);
    let right = moved(e, i);
    let lo = i - right;
    ((x[lo] >> right) & low) | ((x[lo + d] << (d - right)) & !low)
}

fn stage(x: [u64; ROW], e: u64, low: u64) -> [u64; ROW]
    requires { (e < 4) × HalfMask e low }
    ensures { Swapped e x result }
{
    array::from_fn(|i| row(&x, e, low, i))
}

// Bit 16 k + j of word i becomes bit 16 k + i of word j.
fn turn(x: [u64; ROW]) -> [u64; ROW]
    ensures { Turned x result }
{
    let a = stage(x, 3, 0x00ff_00ff_00ff_00ff);
    let b = stage(a, 2, 0x0f0f_0f0f_0f0f_0f0f);
    let c = stage(b, 1, 0x3333_3333_3333_3333);
    stage(c, 0, 0x5555_5555_5555_5555)
}

// Word w of each row.
fn column(x: &[u64; ROWS], w: usize) -> [u64; ROW]
    requires { w < 16 }
    ensures { Column x.now w result }
{
    array::from_fn(|i| x[ROW * i + w])
}

fn put_column(w: usize, c: [u64; ROW], x: &mut [u64; ROWS])
    requires { w < 16 }
    ensures { Placed w 16 c x.old x.new }
{
    // By index: an innermost loop, over two arrays at one index.
    for i in 0..ROW {
        x[ROW * i + w] = c[i];
    }
}

// Turns the block's first columns in place: bit 16 k + i of word w of row j is then what bit 16 k + j of word w of row i was.
pub(super) fn transpose(x: &mut [u64; ROWS], columns: usize)
    requires { columns ≤ 16 }
    ensures { ColumnsTurned columns x.old x.new }
{
    // By number, since w is the column itself.
    for w in 0..columns {
        let c = turn(column(x, w));
        put_column(w, c, x);
    }
}
