// A field of a header, by its offset; and which element a byte of a header belongs to.
//
// `header_byte` asks that the byte lies in the header; the callers, all proved, give it so. Assumes nothing.
#![tactic(auto)]

mod byte;
mod element;
mod letters;
mod value;

pub use byte::{ElementPlace, header_byte};
pub use element::read_element;
pub use value::Value;
