// The parts of one message that a view can show, and where each lies in it.
//
// `locate` asks that the fixed part gives the message's size, `spanned` that the bytes are there; the callers, all
// proved, give it so. Assumes nothing.
#![tactic(auto)]

mod parts;

pub use parts::{Extent, Part, locate, spanned};
