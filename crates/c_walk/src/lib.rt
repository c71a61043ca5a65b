// A walk over a stream for C: the stream's answer, the cursor, one made from an index, and one step as C structs.
//
// `refusal` is 0 or the number of refusal, `record` and `byte` say where a stream is refused, and what an answer
// lacks is 0. Assumes nothing.
#![tactic(auto)]

mod checked;
mod walk;

pub use checked::Checked;
pub use walk::{Cursor, CursorAnswer, Step};
