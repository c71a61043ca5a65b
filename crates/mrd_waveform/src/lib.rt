// The waveform header in either layout: the check that it must pass, the sizes and numbers that it gives,
// and its filler made zero.
//
// A header has as many bytes as its layout says by an invariant. Assumes nothing.
#![tactic(auto)]

mod waveform;

pub use waveform::{WaveformHeader, clear_filler};
