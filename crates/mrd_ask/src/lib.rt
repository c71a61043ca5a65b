// A question about a record as a value, and what is replied to it: with no index given, or with one, as a file
// or as columns.
//
// A given index is compared with the stream first, whole, and believed only where it is the stream's own; the
// question then goes as it does with none. No function here has a `requires`. Assumes nothing.
#![tactic(auto)]

mod asked;
mod indexed;
mod question;
mod view;

pub use asked::ask;
pub use indexed::{ask_with_columns, ask_with_file};
pub use question::{Question, Reply};
pub use view::reply_view;
