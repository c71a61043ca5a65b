// Tagged fields, 'one-byte tag, two-byte length, body': put into an output and compared with bytes, part by part,
// each at its place.
//
// Each function asks that its bytes lie in the slice; the callers, all proved, have tested the whole field before.
// Assumes nothing.
#![tactic(auto)]

mod put;
mod same;

pub use put::{put_at, put_tag};
pub use same::{same_at, tag_same};
