// What a block of 1,024 inputs adds to the search: its rows of masks say which vectors rectify each input, its rows of readings what the
// candidates give there. The sets of vectors are narrowed by all of its inputs; the vector list is stepped only at inputs that no listed
// vector rectifies.
ghost use Rattle.std.specs.Prelude.{List, ⊤, ◌≡◌, ℕ, ◌+◌, ◌*◌, ◌/◌, ◌%◌, ◌^◌, ◌≤◌, ◌<◌, length, get_or, take};
ghost use Rattle.std.specs.Int.Bits.{bit_or};
ghost use Rattle.engine.specs.Inner.List.{listed_of};
ghost use Rattle.engine.specs.Inner.Note.{narrowed, sets_from, gathered, Stepped, Joined, CoveredTo, ListNoted};

use super::leaves::row_of;
use super::limits::{READING, READINGS, ROW, ROWS, SET, VECTORS, WORD};
use super::list::Vectors;
use super::turn::transpose;
use super::word::{first_zero, join_rows};

// What one input does to the sets of vectors of all readings: the low bits of two words have its reading, and the set of the vectors that
// rectify it.
trait Step {
    ghost gives: { List ℕ → ℕ → ℕ → List ℕ → Type 0 } = { λ before reading set after. ⊤ };

    fn step(reading: u64, set: u64, sets: &mut [u32; READINGS])
        ensures { gives sets.old (reading % 1024) (set % 65536) sets.new };
}

// The set of the reading is cut down to its part in the input's.
struct Meet;

impl Step for Meet {
    ghost gives = { λ before reading set after. after ≡ narrowed before reading set };

    fn step(reading: u64, set: u64, sets: &mut [u32; READINGS]) {
        let at = (reading % READING) as usize;
        let was = sets[at];
        let now = was & ((set % SET) as u32);
        if now != was {
            sets[at] = now;
        }
    }
}

// An input narrows the first set of its reading, in the low half of its place, where it leaves it a vector, else the second.
struct Sort;

impl Step for Sort {
    fn step(reading: u64, set: u64, sets: &mut [u32; READINGS]) {
        let at = (reading % READING) as usize;
        let mask = (set % SET) as u32;
        let both = sets[at];
        sets[at] = if both & mask != 0 {
            both & (mask | 0xffff_0000)
        } else {
            both & ((mask << 16) | 0xffff)
        };
    }
}

// A step for each scenario of a block's first columns. Transposed, a word has the sets, or the readings, of four of them.
fn step_block<S: Step>(
    mut masks: [u64; ROWS],
    mut readings: [u64; ROWS],
    columns: usize,
    sets: &mut [u32; READINGS],
)
    requires { columns ≤ 16 }
    ensures { Stepped S.gives (gathered masks) (gathered readings) (64 * columns) sets.old sets.new }
{
    transpose(&mut masks, columns);
    transpose(&mut readings, columns);
    // By index: innermost loops, over two arrays at one index: word after word, and of each word the scenarios 0, 16, 32, 48, 1, 17, ..
    for w in 0..columns {
        for i in 0..ROW {
            let at = ROW * i + w;
            for quarter in 0..4usize {
                S::step(
                    readings[at] >> (16 * quarter),
                    masks[at] >> (16 * quarter),
                    sets,
                );
            }
        }
    }
}

// The sets after the scenarios of a block's first columns.
pub(super) fn meet_block(
    masks: [u64; ROWS],
    readings: [u64; ROWS],
    columns: usize,
    sets: &mut [u32; READINGS],
)
    requires { columns ≤ 16 }
    ensures { sets.new
        ≡ sets_from (gathered masks) (λ y. gathered readings y % 1024) sets.old 0 (64 * columns) }
{
    step_block::<Meet>(masks, readings, columns, sets);
}

// The first and second sets after the scenarios of a block's first columns.
pub(super) fn sort_block(
    masks: [u64; ROWS],
    readings: [u64; ROWS],
    columns: usize,
    sets: &mut [u32; READINGS],
)
    requires { columns ≤ 16 }
{
    step_block::<Sort>(masks, readings, columns, sets);
}

// The set of the vectors that rectify input y of the block.
fn gather_rows(masks: &[u64; ROWS], y: usize) -> u16
    requires { y < 1024 }
    ensures { result ≡ gathered masks.now y }
{
    let w = y / WORD;
    let b = y % WORD;
    let mut r = 0usize;
    // By index: a column of the rows, 16 words from one place to the next.
    for i in (0..VECTORS).rev() {
        r = 2 * r + ((masks[ROW * i + w] >> b) % 2) as usize;
    }
    r as u16
}

// The row that has a 1 where a listed vector rectifies the input.
fn listed_row(masks: &[u64; ROWS], list: &Vectors) -> [u64; ROW]
    ensures { Joined masks.now (listed_of list.now).vectors result }
{
    let mut words = [0u64; ROW];
    for v in list.listed() {
        let next = join_rows(words, row_of(usize::from(*v), masks));
        words = next;
    }
    words
}

// The first input from y on that no listed vector rectifies, at least 1,024 where there is none.
fn next_uncovered(masks: &[u64; ROWS], list: &Vectors, y: usize) -> usize
    ensures { CoveredTo masks.now list.now y result }
{
    let next = first_zero(listed_row(masks, list));
    next.max(y)
}

// The list after the first count inputs of a block. Those that a listed vector rectifies leave it as it is, so it goes from one that
// none rectifies to the next: at most 16 steps in the whole search, one for each vector.
pub(super) fn list_block(
    masks: [u64; ROWS],
    first: usize,
    count: usize,
    mut list: Vectors,
) -> Vectors
    requires { (count ≤ 1024) × (first < 2 ^ 32) }
    ensures { ListNoted masks first count list result }
{
    // A while, since the steps are uneven.
    let mut y = next_uncovered(&masks, &list, 0);
    while y < count {
        let set = gather_rows(&masks, y);
        list.step(set, first + y);
        if list.stuck.is_some() {
            return list;
        }
        y = next_uncovered(&masks, &list, y + 1);
    }
    list
}
