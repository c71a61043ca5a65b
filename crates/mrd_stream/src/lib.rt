// The stream: checked whole, walked record by record, and asked for a record's place and kind.
//
// No public function here has a `requires`: any bytes, any number and any cursor get an answer. Nothing
// is copied, nothing is kept, and no payload byte is read. Assumes nothing.
#![tactic(auto)]

mod answer;
mod reader;
mod refused;

pub use answer::{Place, PlacedRecord, Step};
pub use reader::{check, check_from, concluded, next, place};
pub use refused::{Refused, StreamRefusal};
