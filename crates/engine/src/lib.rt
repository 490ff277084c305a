// The engine: whether every input of a job is fixable (judge), its cheapest patch (choose), the old circuit with a sheet's table built in
// (fit) or driven by it, against the golden one (compare), and the three by three tables of the gates for the search. Values of all nets
// are in 1,024 scenarios at once, 16 words a net. Every service refuses with a reason that document 01 numbers, and leaves every
// lent byte as it was then.
#![tactic(auto)]

mod best;
mod choosing;
mod comparing;
mod cover;
mod cube;
mod drive;
mod fitting;
mod given;
mod guess;
mod imply;
mod judging;
mod kernel;
mod leaves;
mod limits;
mod list;
mod masks;
mod merge;
mod miter;
mod narrow;
mod netlist;
mod note;
mod packed;
mod pick;
mod plan;
mod planning;
mod ranges;
mod renumber;
mod search;
mod sheet;
mod sole;
mod table;
mod ternary;
mod tree;
mod trust;
mod turn;
mod word;

pub use choosing::{BlindReading, Choice, ChosenSheet, PatchCost, choose};
pub use comparing::{Comparison, DifferingInput, compare};
pub use fitting::fit;
pub use judging::{JudgedSheet, Judgement, UnfixableInput, judge};
pub use limits::{LONGEST_CHOOSE, LONGEST_FIT, LONGEST_JUDGE};
pub use ternary::{ternary_entry, ternary_table, ternary_value};
