// Views of the record at a cursor, at a cost that does not grow with the stream.
ghost use Rattle.std.specs.Prelude.{◌≡◌, ◌+◌};
ghost use Rattle.mrd_record.specs.AtCursor.{place_at};
ghost use Rattle.mrd_views.specs.Views.{view_by, shown, start_of, view_meaning};

use crate::views::{Span, record_view, viewed};
use mrd_cursor::Cursor;
use mrd_format::Rules;
use mrd_parts::Part;
use mrd_record::place_at;
use mrd_stream::Refused;

// Where a part of the record lies that is due at c; the stream's refusal where its message is refused, 16
// where none is left, 17 where it has no such part or channel.
#[tactic(auto, using(mrd_record::specs::RecordLaws::due_lies))]
pub fn view_place_at(rules: Rules, c: Cursor, s: &[u8], part: Part) -> Result<Span, Refused>
    ensures { view_meaning result ≡ view_by (place_at rules c s.now) part s.now }
{
    let due = place_at(rules, c, s)?;
    record_view(s, due, part)
}

// That part of the stream, or the empty part at the stream's front where view_place_at is a refusal.
#[tactic(auto, using(crate::specs::ViewLaws::due_view_lies))]
pub fn view_at(rules: Rules, c: Cursor, s: &[u8], part: Part) -> &[u8]
    ensures result_value { result.now ≡ shown (view_by (place_at rules c s.now) part s.now) s.now }
    ensures ref_ptr_value { (result.ref_ptr.0 ≡ s.entry.ref_ptr.0) × (result.ref_ptr.1 ≡ s.entry.ref_ptr.1 + start_of (view_by (place_at rules c s.now) part s.now)) }
{
    let place = view_place_at(rules, c, s, part);
    viewed(place, s)
}
