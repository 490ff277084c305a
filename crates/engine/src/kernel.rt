// Packed gates evaluated in 1,024 scenarios at once: 16 words of 64 scenarios a net, word w of net i at 16 * i + w.
ghost use Rattle.std.specs.Prelude.{◌≡◌, map, ℕ, ◌+◌, ◌*◌, ◌%◌, ◌≤◌, ◌<◌, length, get_or};
ghost use Rattle.std.specs.Int.Bits.{bit_xor};
ghost use Rattle.std.proofs.Math.Seq.{slice};
ghost use Rattle.engine.specs.Inner.Packed.{operation, operands_of, folded};
ghost use Rattle.engine.specs.Inner.Kernel.{applied, Filled, row_value, value_in, Ran};

use super::limits::{ROW, WORDS};
use super::packed::{COUNT_AT, COUNTS, NET, NET_AT, SLOTS_AT};
use super::word::broadcast;

// An operation on two words: 2 is and, 3 is or, any other is parity. A fourth arm would cost a jump table.
// The operation is a number, as it stands in the packed gate.
pub(super) fn apply(op: u64, a: u64, b: u64) -> u64
    ensures { result ≡ applied op a b }
{
    match op {
        2 => a & b,
        3 => a | b,
        _ => a ^ b,
    }
}

// The operation on the words in r and those that stand from place at on.
fn join(op: u64, at: usize, r: &mut [u64; ROW], words: &[u64; WORDS])
    requires { at + 16 ≤ 16384 }
    ensures { Filled (λ w. applied op (get_or r.old w 0) (get_or words.now (at + w) 0)) 0 16
        r.old r.new }
{
    // By index: the innermost loop, over two arrays at one index.
    for w in 0..ROW {
        r[w] = apply(op, r[w], words[at + w]);
    }
}

// The words of r, inverted where x has a 1, stored from place at on.
pub(super) fn store(at: usize, x: u64, r: [u64; ROW], words: &mut [u64; WORDS])
    requires { at + 16 ≤ 16384 }
    ensures { Filled (λ w. bit_xor (get_or r w 0) x) at 16 words.old words.new }
{
    // By index, as in join.
    for w in 0..ROW {
        words[at + w] = r[w] ^ x;
    }
}

// Gate c's operation over the words of its operands. The first joins zeros by operation 3, or.
fn gate_words(c: u64, words: &[u64; WORDS]) -> [u64; ROW]
    ensures { (y : ℕ) → y < 1024
        → row_value result y ≡ folded (operation c) (map (value_in words.now y) (operands_of c)) }
{
    let mut r = [0u64; ROW];
    let mut op = 3u64;
    let mut rest = c / SLOTS_AT;
    for _ in 0..c / COUNT_AT % COUNTS {
        join(op, ROW * (rest % NET) as usize, &mut r, words);
        op = c / 2 % 8;
        rest /= NET;
    }
    r
}

// Gates from..to of a list, in turn.
// Two ends and no slice, which would ask that from is at most to; where no target has a list of its own, that is not known.
pub(super) fn run(gates: &[u64], from: usize, to: usize, words: &mut [u64; WORDS])
    requires { to ≤ length gates.now }
    ensures { Ran (slice from to gates.now) words.old words.new }
{
    for i in from..to {
        let c = gates[i];
        let r = gate_words(c, words);
        store(
            ROW * (c / NET_AT % NET) as usize,
            broadcast(c as usize),
            r,
            words,
        );
    }
}
