// The part of a stream that a byte belongs to.
ghost use Rattle.std.specs.Prelude.{◌≡◌};
ghost use Rattle.mrd_logic.specs.Answer.{answered};
ghost use Rattle.mrd_stream.specs.ReaderMeaning.{record_meaning};
ghost use Rattle.mrd_part_at.specs.PartAt.{part_in, part_of_byte, place_meaning, answer_meaning, HoldsByte};

use crate::holder::record_holding;
use mrd_format::Rules;
use mrd_holding::{MessagePart, part_holding};
use mrd_record::fixed_part;
use mrd_stream::{PlacedRecord, Refused};
use mrd_views::Span;

// A part of a record, and where it lies in the stream.
#[derive(Clone, Copy)]
pub struct PartPlace {
    pub record: PlacedRecord,
    pub part: MessagePart,
    pub span: Span,
}

// The record and the part that this byte belongs to, and of a header's byte the element; else the stream's refusal, or
// 16 for a byte past the end. One walk over the stream.
#[tactic(auto, unfolding(crate::specs::PartAt::part_of_byte))]
pub fn part_at(rules: Rules, s: &[u8], byte: usize) -> Result<PartPlace, Refused>
    ensures { answer_meaning result ≡ part_of_byte rules s.now byte }
{
    let here = record_holding(rules, s, byte)?;
    Ok(part_in(s, here, byte))
}

// The part of a record that holds this byte of s.
fn part_in(s: &[u8], here: PlacedRecord, byte: usize) -> PartPlace
    requires { HoldsByte s.now byte (record_meaning here) }
    ensures { answered (place_meaning result) ≡ part_in s.now byte (record_meaning here) }
{
    let place = here.place;
    let at = byte - place.start;
    let held = part_holding(fixed_part(s, here), place.size, at);
    PartPlace {
        record: here,
        part: held.part,
        span: Span {
            start: place.start + held.extent.offset,
            length: held.extent.size,
        },
    }
}
