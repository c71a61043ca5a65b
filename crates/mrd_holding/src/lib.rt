// Which part of one message a byte belongs to, and of a header's byte which element.
//
// `part_holding` asks that the fixed part gives the message's size, and that the byte lies in the message; the callers,
// all proved, give it so. Assumes nothing.
#![tactic(auto)]

mod holding;

pub use holding::{HeldPart, MessagePart, part_holding};
