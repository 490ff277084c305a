// What the programs share: arguments, files by name or standard input, and replies. No public function has a `requires`.
// No contract can say which bytes are read or written.
#![tactic(auto)]

mod input;
mod output;

pub use input::{Unread, argument, is_argument, read_argument, read_named, read_standard};
pub use output::{check_written, write_reply};
