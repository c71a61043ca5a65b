// A question for C, and what is replied to it.
//
// `refusal` is 0 or the number of refusal, `record` and `byte` say where a stream is refused, and what a reply
// lacks is 0. Assumes nothing.
#![tactic(auto)]

mod question;
mod reply;

pub use question::Question;
pub use reply::Reply;
