// The writer: one message put into an output from a given position on.
//
// The public function has no `requires`: any id, header, parts, output and position get an answer. A
// refusal changes no byte of the output, and a message no byte before or after itself. Assumes nothing.
#![tactic(auto)]

mod writer;

pub use mrd_write_checks::Message;
pub use writer::write;
