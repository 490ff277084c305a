// The record library: a job's bytes read into lent places or into parts by value, parts written as a job's bytes, with gates as
// structs or in columns, a patch sheet read against a job's candidates, the gates' values, a field put into a buffer, and a byte as a
// number. Each service that reads or writes refuses with the reason that document 01 numbers, and leaves every lent place as it was then.
#![tactic(auto)]

mod candidate;
mod columns;
mod field;
mod fill;
mod gate;
mod gates;
mod job;
mod limits;
mod loading;
mod netlist;
mod put;
mod reading;
mod refusal;
mod sheet;
mod writing;

pub use columns::{read_columns, write_columns};
pub use field::wide;
pub use gate::{Gate, slots_of, value};
pub use job::{Counts, SideCounts};
pub use limits::{CANDIDATES, GATE_SIZE, GATES, INPUTS, LONGEST_JOB, OUTPUTS, SLOTS, TARGETS};
pub use loading::{JobParts, load};
pub use put::put_field;
pub use reading::read;
pub use refusal::Refusal;
pub use sheet::{PatchSheet, Support, read_sheet};
pub use writing::write;
