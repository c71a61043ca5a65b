// The fixed part of one message, of any kind: the checks of its own bytes, its message's size, its kind with that kind's
// own numbers, and what tells it from others of its kind.
//
// A fixed part is as long as its kind says, by an invariant. Assumes nothing.
#![tactic(auto)]

mod message;
mod text;

pub use message::FixedPart;
pub use text::{NameBytes, TextCount};
