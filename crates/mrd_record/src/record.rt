// The record at a cursor, at a cost that does not grow with the stream, and the fixed part of a record.
ghost use Rattle.std.specs.Prelude.{◌≡◌};
ghost use Rattle.mrd_format.specs.Message.{fixed_part};
ghost use Rattle.mrd_format.specs.Shapes.{kind_of};
ghost use Rattle.mrd_stream.specs.ReaderMeaning.{record_meaning, placed_meaning};
ghost use Rattle.mrd_cut.specs.CutPlaces.{part_at};
ghost use Rattle.mrd_record.specs.AtCursor.{place_at, Lies};

use mrd_cursor::Cursor;
use mrd_format::{Kind, Refusal, Rules};
use mrd_message::FixedPart;
use mrd_stream::{PlacedRecord, Refused, Step};

// The place and kind of the record that is due at c; the stream's refusal where its message is refused, 16
// where none is left.
#[tactic(auto, unfolding(crate::specs::AtCursor::place_at))]
pub fn place_at(rules: Rules, c: Cursor, s: &[u8]) -> Result<PlacedRecord, Refused>
    ensures { placed_meaning result ≡ place_at rules c s.now }
{
    match mrd_stream::next(rules, c, s) {
        Step::Message(here, _) => Ok(here),
        Step::End(answer) => {
            answer?;
            Err(Refused::Alone(Refusal::NoRecord))
        }
    }
}

// The fixed part of a record that lies in s.
pub fn fixed_part(s: &[u8], here: PlacedRecord) -> FixedPart<'_>
    requires { Lies s.now (record_meaning here) }
    ensures kind { result.kind ≡ kind_of here.shape }
    ensures bytes { result.bytes.now ≡ fixed_part (kind_of here.shape) (part_at s.now (record_meaning here)) }
{
    let kind = here.shape.kind();
    let from = here.place.start + Kind::ID_SIZE;
    let to = from + kind.fixed_size();
    FixedPart {
        kind,
        bytes: &s[from..to],
    }
}
