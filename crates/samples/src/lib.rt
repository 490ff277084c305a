// What the programs over calls on file share: the next call of standard input, what stands in it, lists with a pattern, and hashes. No
// public function has a `requires`.
#![tactic(auto)]

mod call;
mod list;
mod number;

pub use call::{Call, CutShort, read_call};
pub use list::{Place, hash, new_buffer, new_list, patterned};
pub use number::word_at;
