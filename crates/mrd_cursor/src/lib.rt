// Where a walk over a stream is, and the order of messages.
//
// A cursor is three plain numbers. Anyone may make one; a walk begins at `Cursor::beginning()`. Assumes
// nothing.
#![tactic(auto)]

mod cursor;

pub use cursor::{Cursor, Phase};
