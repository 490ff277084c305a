// The sizes of the engine's arrays and of what they hold, and of the buffers that its services ask for (specs/Verdict.antt, specs/Fit.antt).
// Bounds of numbers (a net below 1,024, a target below 4) stay clauses: a type for each would wrap every place where it is an index.
use records::{GATES, INPUTS, TARGETS};

// Nets of ten bits each.
pub const NETS: usize = 1024;
// The scenarios of a word.
pub const WORD: usize = 64;
// How many inputs it has the values for: 2 ^ 6 settings (src/narrow.rt).
pub const WORD_INPUTS: usize = 6;
// The words of a net.
pub const ROW: usize = 16;

// The scenarios of a row: a block of inputs.
pub const BLOCK: usize = WORD * ROW;
// The blocks that partial evaluation speaks for at once, and how many low inputs it leaves open: 2 ^ 15 inputs in all.
pub const RANGE: usize = 32;

pub const RANGE_INPUTS: usize = 15;
// The last range of a job with the most inputs.
pub const LAST_RANGE: usize = (1 << (INPUTS - RANGE_INPUTS)) - 1;

pub const WORDS: usize = ROW * NETS;
// The settings of four targets (vectors), and a row for each.
pub const VECTORS: usize = 16;

pub const ROWS: usize = ROW * VECTORS;
// How many blocks more a test that may save a block's work may fail on than it does not, and up to which wait it waits for longer (src/trust.rt).
pub const TRUST: usize = 64;
// How many tries of partial evaluation may settle nothing at first; each that settles a range gives one back (src/trust.rt).
pub const TRIES: usize = 8;
// The readings of ten candidates.
pub const READINGS: usize = 1024;
// A quarter of a transposed word holds a reading, below READING, or a set of vectors, a bit for each, below SET.
pub const READING: u64 = READINGS as u64;

pub const SET: u64 = 65536;
// The bit behind those of the vectors in the set of a reading: 1 where no input that was looked at gives it.
pub const UNSEEN: u32 = 65536;
// The cubes of a cover, and how many of them may be tested on a block: of ten nets each, more would cost as much as a look at each of its inputs
// (src/given.rt).
pub const CUBES: usize = 64;

pub const TESTED: usize = 16;
// What is not yet known of a net, beside 0 and 1: a number, since the three by three tables are looked up by it (src/ternary.rt).
pub const UNKNOWN: u8 = 2;

// How many nets deep both cases are tried to refute a cube (src/imply.rt), and how often a cover is made anew.
pub const SPLITS: usize = 4;

pub const RENEWALS: usize = 8;
// The gates of both netlists, and those with a list for each target.
pub const MITER_GATES: usize = GATES + GATES;

pub const LISTED: usize = MITER_GATES + TARGETS * GATES;

// The lists of gates of a plan: two, and one for each target (src/plan.rt).
pub const LISTS: usize = 2 + TARGETS;

// From how many inputs on merging gates saves more than it costs (src/merge.rt).
pub const LEAST_TO_MERGE: usize = 13;

pub const LONGEST_JUDGE: usize = 26;

pub const LONGEST_CHOOSE: usize = 2084;

pub const LONGEST_FIT: usize = 4075;
