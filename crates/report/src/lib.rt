// The report: what the program `rectify` prints for a job's bytes (rectify_text), written to a lent buffer. It asks the engine's
// judge, then choose where every input is fixable, and prints their sheets as the lines of document 01, or `refused` and the number.
#![tactic(auto)]

mod text;

pub use text::{LONGEST_TEXT, rectify_text};
