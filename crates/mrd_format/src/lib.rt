// The format of one message: the eight kinds, the refusals and their numbers, the rules that a caller says of a stream,
// the shape of a message, what a channel mask says, and sizes that cannot wrap. The header tables, the checks
// and the rest of the format's definitions stand in specs/.
//
// Assumes nothing.
#![tactic(auto)]

mod kind;
mod mask;
mod refusal;
mod rules;
mod shape;
pub mod size;

pub use kind::Kind;
pub use mask::Mask;
pub use refusal::Refusal;
pub use rules::{Layout, Profile, Rules, WaveformOffsets};
pub use shape::{AcquisitionShape, ImageShape, Shape, TextShape, WaveformShape};
