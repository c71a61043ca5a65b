// Views: a part of a record, by the record's number or at a cursor.
//
// No public function here has a `requires`: any bytes, any record number, any cursor and any part get an
// answer. Nothing is copied: a view is a part of the given stream. Assumes nothing.
#![tactic(auto)]

mod at_cursor;
mod views;

pub use at_cursor::{view_at, view_place_at};
pub use views::{Span, view, view_place};
