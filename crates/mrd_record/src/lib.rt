// One record of a stream: the place of the one at a cursor, and a record's fixed part.
//
// `place_at` has no `requires`: any cursor gets an answer. `fixed_part` asks that the record lies in the
// stream, as every answered place does. Nothing is copied. Assumes nothing.
#![tactic(auto)]

mod record;

pub use record::{fixed_part, place_at};
