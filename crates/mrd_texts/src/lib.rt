// The texts of one message, by the caller's profile: check 21 of a message that is whole, and of what is given for
// one.
//
// `message_is_utf8` asks that the message has its kind's size; its callers, all proved, give it so. Assumes nothing.
#![tactic(auto)]

mod texts;

pub use texts::{encoded, message_is_utf8};
