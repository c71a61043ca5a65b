// Views: a part of a record, as that part of the given stream itself.
ghost use Rattle.std.specs.Prelude.{◌≡◌, ◌+◌};
ghost use Rattle.mrd_logic.specs.Answer.{answered};
ghost use Rattle.mrd_stream.specs.ReaderMeaning.{record_meaning};
ghost use Rattle.mrd_record.specs.AtCursor.{Lies};
ghost use Rattle.mrd_views.specs.Views.{view_of, view_by, shown, start_of, view_meaning, ViewIn};

use mrd_format::{Refusal, Rules};
use mrd_parts::{Part, locate, spanned};
use mrd_record::fixed_part;
use mrd_stream::{PlacedRecord, Refused};

// Where a view lies in the stream: its first byte and its length.
#[derive(Clone, Copy)]
pub struct Span {
    pub start: usize,
    pub length: usize,
}

// Where a part of record n lies; else the stream's refusal, 16, or 17 where the record has no such part or
// channel. One walk over the stream.
#[tactic(auto, using(mrd_record::specs::RecordLaws::placed_lies), unfolding(crate::specs::Views::view_of))]
pub fn view_place(rules: Rules, s: &[u8], n: usize, part: Part) -> Result<Span, Refused>
    ensures { view_meaning result ≡ view_of rules s.now n part }
{
    let here = mrd_stream::place(rules, s, n)?;
    record_view(s, here, part)
}

// A part of record n: that part of the stream, or the empty part at the stream's front where
// view_place is a refusal. One walk over the stream.
#[tactic(auto, using(crate::specs::ViewLaws::view_lies))]
pub fn view(rules: Rules, s: &[u8], n: usize, part: Part) -> &[u8]
    ensures result_value { result.now ≡ shown (view_of rules s.now n part) s.now }
    ensures ref_ptr_value { (result.ref_ptr.0 ≡ s.entry.ref_ptr.0) × (result.ref_ptr.1 ≡ s.entry.ref_ptr.1 + start_of (view_of rules s.now n part)) }
{
    let place = view_place(rules, s, n, part);
    viewed(place, s)
}

// Where a part of a record that lies in s is.
pub(crate) fn record_view(s: &[u8], here: PlacedRecord, part: Part) -> Result<Span, Refused>
    requires { Lies s.now (record_meaning here) }
    ensures { view_meaning result ≡ view_by (answered (record_meaning here)) part s.now }
{
    let sought = locate(fixed_part(s, here), here.place.size, part);
    let extent = sought.ok_or(Refusal::NoPart)?;
    Ok(Span {
        start: here.place.start + extent.offset,
        length: extent.size,
    })
}

// The part of s that lies at this place, or the empty part at the front of s.
pub(crate) fn viewed(place: Result<Span, Refused>, s: &[u8]) -> &[u8]
    requires { ViewIn s.now (view_meaning place) }
    ensures result_value { result.now ≡ shown (view_meaning place) s.now }
    ensures ref_ptr_value { (result.ref_ptr.0 ≡ s.entry.ref_ptr.0) × (result.ref_ptr.1 ≡ s.entry.ref_ptr.1 + start_of (view_meaning place)) }
{
    match place {
        Ok(span) => spanned(s, span.start, span.length),
        Err(_) => spanned(s, 0, 0),
    }
}
