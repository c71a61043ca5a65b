// Find: a record of a stream by its counters.
//
// The public function has no `requires`: any bytes, any record number and any counters get an answer.
// Nothing is copied, and one walk goes over the stream. Assumes nothing.
#![tactic(auto)]

mod search;

pub use search::find;
