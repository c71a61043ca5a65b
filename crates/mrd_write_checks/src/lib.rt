// What is given to the writer for one message, judged before the output is looked at: checks 3 to 10
// in order, and then 18.
//
// The public function has no `requires`: any kind, header, name and lengths get an answer. Assumes nothing.
#![tactic(auto)]

mod contents;
mod lengths;
mod message;

pub use contents::judge;
pub use lengths::Lengths;
pub use message::Message;
