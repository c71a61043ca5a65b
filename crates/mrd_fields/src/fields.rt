// A field of a record's header, by its offset.
ghost use Rattle.mrd_logic.specs.Answer.{answered};
ghost use Rattle.mrd_stream.specs.ReaderMeaning.{record_meaning};
ghost use Rattle.mrd_record.specs.AtCursor.{Lies, place_at};
ghost use Rattle.mrd_fields.specs.Fields.{field_by, field_of, TellsField};

use mrd_cursor::Cursor;
use mrd_element::{Value, read_element};
use mrd_format::{Refusal, Rules};
use mrd_record::{fixed_part, place_at};
use mrd_stream::{PlacedRecord, Refused};

// The element of record n's header that starts at this offset, counted from the header's first byte; else the
// stream's refusal, 16, or 20 where no header element starts there. One walk over the stream.
#[tactic(auto, using(mrd_record::specs::RecordLaws::placed_lies), unfolding(crate::specs::Fields::field_of))]
pub fn field(rules: Rules, s: &[u8], n: usize, offset: usize) -> Result<Value, Refused>
    ensures { TellsField result (field_of rules s.now n offset) }
{
    let here = mrd_stream::place(rules, s, n)?;
    record_field(s, here, offset)
}

// The element that starts at this offset in the header of the record that is due at c, at a cost that does
// not grow with the stream.
#[tactic(auto, using(mrd_record::specs::RecordLaws::due_lies))]
pub fn field_at(rules: Rules, c: Cursor, s: &[u8], offset: usize) -> Result<Value, Refused>
    ensures { TellsField result (field_by (place_at rules c s.now) offset s.now) }
{
    let due = place_at(rules, c, s)?;
    record_field(s, due, offset)
}

// The same for a record that lies in s.
fn record_field(s: &[u8], here: PlacedRecord, offset: usize) -> Result<Value, Refused>
    requires { Lies s.now (record_meaning here) }
    ensures { TellsField result (field_by (answered (record_meaning here)) offset s.now) }
{
    let element = read_element(fixed_part(s, here), offset);
    element.ok_or(Refused::Alone(Refusal::NoField))
}
