// What is saved of a torn stream, for C.
//
// `refusal` is 0 or the number of refusal, and what an answer lacks is 0 or false. Assumes nothing.
#![tactic(auto)]

mod salvaged;

pub use salvaged::Salvaged;
