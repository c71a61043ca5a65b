// The library for C: the functions of include/cotterleaf.h, each a call of one function of the crates below with
// its answer laid out as a C struct.
//
// No function here has a `requires`: any bytes and any numbers get an answer. Each contract is an equation with
// the definition that the inner function's contract cites, so nothing is decided here. Assumes nothing.
#![tactic(auto)]

mod ask;
mod at_cursor;
mod index;
mod part_at;
mod record;
mod salvage;
mod scalars;
mod stream;
mod writing;

pub use ask::{mrd_ask_with_columns, mrd_ask_with_file};
pub use at_cursor::{mrd_cursor_for, mrd_field_at, mrd_view_at};
pub use index::{mrd_columns_match, mrd_fill_columns, mrd_index_matches};
pub use part_at::mrd_part_at;
pub use record::{mrd_field, mrd_find, mrd_view};
pub use salvage::{mrd_salvage, mrd_salvage_report};
pub use scalars::{mrd_counter_step, mrd_flag_clear, mrd_flag_set, mrd_flag_test};
pub use stream::{mrd_beginning, mrd_check, mrd_check_from, mrd_next, mrd_place};
pub use writing::{mrd_normal_form, mrd_write, mrd_write_index};
