// The acquisition header: the checks that it must pass, the sizes and numbers that it gives, and what its channel
// mask says.
//
// A header has its 340 bytes by an invariant. Assumes nothing.
#![tactic(auto)]

mod acquisition;

pub use acquisition::{AcquisitionHeader, COUNTER_COUNT};
