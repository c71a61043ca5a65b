// One message judged where a walk is: the order of checks, in five stages, each with its own function.
//
// In the plain profile a message is judged by its fixed part and by how many bytes there are: no payload byte is read.
// In the strict one its texts are read too, where all other checks passed. Assumes nothing.
#![tactic(auto)]

mod sort;
mod stages;

pub use sort::Sort;
pub use stages::{
    MAX_MESSAGES, Message, Whole, judge, judge_fixed, judge_front, judge_id, judge_message,
    judge_size, judge_text,
};
