// What does the record hold where a walk is, or where an index says that it starts?
ghost use Rattle.std.specs.Prelude.{◌≡◌};
ghost use Rattle.mrd_fields.specs.Fields.{field_by};
ghost use Rattle.mrd_index_cursor.specs.IndexCursor.{cursor_for};
ghost use Rattle.mrd_record.specs.AtCursor.{place_at};
ghost use Rattle.mrd_views.specs.Views.{view_by};
ghost use Rattle.c_record.specs.RecordStructs.{c_view, c_field};
ghost use Rattle.c_record.specs.PartNumbers.{part_numbered};
ghost use Rattle.c_walk.specs.WalkStructs.{cursor_of, c_cursor_answer};
ghost use Rattle.c_rules.specs.RulesStruct.{rules_of};

use c_record::{FieldAnswer, ViewPlace, part_of};
use c_rules::Rules;
use c_walk::{Cursor, CursorAnswer};

// The cursor at record n, from two columns of an index that was found to be the stream's own.
#[unsafe(no_mangle)]
pub extern "C" fn mrd_cursor_for(
    rules: Rules,
    starts: &[u64],
    ids: &[u16],
    n: usize,
) -> CursorAnswer
    ensures { result ≡ c_cursor_answer (cursor_for (rules_of rules) starts.now ids.now n) }
{
    CursorAnswer::from(mrd_index_cursor::cursor_for(rules.into(), starts, ids, n))
}

// Where a part of the record lies that is due at the cursor.
#[unsafe(no_mangle)]
pub extern "C" fn mrd_view_at(
    rules: Rules,
    stream: &[u8],
    cursor: Cursor,
    part: u32,
    channel: usize,
) -> ViewPlace
    ensures { result ≡ c_view (view_by (place_at (rules_of rules) (cursor_of cursor) stream.now) (part_numbered part channel) stream.now) }
{
    let c = cursor.into();
    let asked = part_of(part, channel);
    ViewPlace::from(mrd_views::view_place_at(rules.into(), c, stream, asked))
}

// The element that starts at this offset in its header.
#[unsafe(no_mangle)]
pub extern "C" fn mrd_field_at(
    rules: Rules,
    stream: &[u8],
    cursor: Cursor,
    offset: usize,
) -> FieldAnswer
    ensures { result ≡ c_field (field_by (place_at (rules_of rules) (cursor_of cursor) stream.now) offset stream.now) }
{
    let c = cursor.into();
    FieldAnswer::of(mrd_fields::field_at(rules.into(), c, stream, offset))
}
