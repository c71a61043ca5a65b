// A given index, a file or columns, compared with the one that the stream yields.
//
// No public function here has a `requires`: any bytes and any index get an answer. A comparison is one walk and
// keeps nothing. Assumes nothing.
#![tactic(auto)]

mod compare;
mod given;

pub use compare::{columns_match, index_matches};
