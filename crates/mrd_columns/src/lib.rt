// The index of an accepted stream in memory: three columns filled.
//
// No public function here has a `requires`: any bytes and any columns get an answer. The stream is checked first, and
// a refusal writes nothing. Assumes nothing.
#![tactic(auto)]

mod columns;

pub use columns::fill_columns;
