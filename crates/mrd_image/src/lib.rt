// The image header and the 8-byte attribute length after it: the checks that they must pass, and the
// sizes and numbers that they give.
//
// A fixed part has its 206 bytes by an invariant, and a header the 198 that are its own. Assumes nothing.
#![tactic(auto)]

mod image;

pub use image::{ImageFixedPart, ImageHeader};
