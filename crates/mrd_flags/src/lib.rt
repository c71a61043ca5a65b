// The flags of an acquisition, by number: test, set and clear; and the numbers by their names.
//
// Assumes nothing.
#![tactic(auto)]

mod acquisition_flag;
mod flags;

pub use acquisition_flag::AcquisitionFlag;
pub use flags::{flag_clear, flag_set, flag_test};
