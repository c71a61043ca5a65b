// What is written for C: how much of an output, the position after a message, and whether a given index is the
// one that would be written, as C structs.
//
// `refusal` is 0 or the number of refusal, `record` and `byte` say where a stream is refused, and what an answer
// lacks is 0. Assumes nothing.
#![tactic(auto)]

mod matched;
mod put;
mod written;

pub use matched::Matched;
pub use put::Put;
pub use written::Written;
