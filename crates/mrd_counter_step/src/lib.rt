// The step between two scan counters, and 32 bits read as a signed number, which it needs.
//
// Assumes nothing.
#![tactic(auto)]

mod counter;

pub use counter::{as_signed, counter_step};
