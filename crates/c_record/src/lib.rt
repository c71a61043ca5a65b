// One record for C: the parts by number; where a part lies, a header element and the record looked for as C
// structs.
//
// `refusal` is 0 or the number of refusal, `record` and `byte` say where a stream is refused, and what an answer
// lacks is 0. Assumes nothing.
#![tactic(auto)]

mod field;
mod found;
mod parts;
mod view;

pub use field::FieldAnswer;
pub use found::Found;
pub use parts::part_of;
pub use view::ViewPlace;
