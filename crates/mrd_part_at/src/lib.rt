// Which record and which part of a stream a byte belongs to.
//
// `part_at` has no `requires`: any bytes and any byte number get an answer. Nothing is copied, and one walk goes over
// the stream. Assumes nothing.
#![tactic(auto)]

mod holder;
mod parts;

pub use parts::{PartPlace, part_at};
