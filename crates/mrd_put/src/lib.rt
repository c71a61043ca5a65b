// The bytes of a message after its id, put at the front of a part of the output.
//
// The caller has judged what is given: the function asks that the header and the fixed part it makes are
// whole, that a text's and an image's attributes' length fit four bytes, and that the part of the output
// has room. Assumes nothing.
#![tactic(auto)]

mod put;

pub use put::put_content;
