// Fields: an element of a record's header, by the record's number or at a cursor.
//
// No public function here has a `requires`: any bytes, any record number, any cursor and any offset get an
// answer. Assumes nothing.
#![tactic(auto)]

mod fields;

pub use fields::{field, field_at};
