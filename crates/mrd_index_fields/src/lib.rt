// The fields of an index file, front, entries and end: put into an output, and compared with bytes.
//
// Each put asks that its field fits; the callers, all proved, have tested it before. A comparison takes any bytes.
// Assumes nothing.
#![tactic(auto)]

mod entry;
mod put;
mod same;

pub use entry::{END, ENTRY, Entry, FRONT};
pub use put::{put_end, put_entry, put_front};
pub use same::{end_same, entry_same, front_same};
