// A record's place and kind for C.
//
// `refusal` is 0 or the number of refusal, `record` and `byte` say where a stream is refused, and what an answer
// lacks is 0. Assumes nothing.
#![tactic(auto)]

mod placed;

pub use placed::Placed;
