// The index of an accepted stream, written as a file; and the entry of each record.
//
// `write_index` has no `requires`: any bytes and any output get an answer. The stream is checked first, and a refusal
// writes no byte. Assumes nothing.
#![tactic(auto)]

mod entry;
mod file;

pub use entry::entry_of;
pub use file::write_index;
