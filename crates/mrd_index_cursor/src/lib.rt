// A cursor at a record, made from the columns of an index.
//
// No function here has a `requires`: any columns and any number get an answer, at a cost that does not grow with
// either. Columns that were once found to be the index of a stream (`mrd_index_match::columns_match`) give cursors
// at which the views and fields are those of the record with that number. Assumes nothing.
#![tactic(auto)]

mod jump;

pub use jump::cursor_for;
