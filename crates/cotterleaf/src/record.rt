// What does a record hold, and which record holds it?
ghost use Rattle.std.specs.Prelude.{◌≡◌};
ghost use Rattle.mrd_find.specs.Find.{find_of};
ghost use Rattle.mrd_fields.specs.Fields.{field_of};
ghost use Rattle.mrd_views.specs.Views.{view_of};
ghost use Rattle.c_record.specs.RecordStructs.{c_view, c_field, c_found};
ghost use Rattle.c_record.specs.PartNumbers.{part_numbered};
ghost use Rattle.c_rules.specs.RulesStruct.{rules_of};

use c_record::{FieldAnswer, Found, ViewPlace, part_of};
use c_rules::Rules;

// Where a part of record n lies; `channel` is looked at for a channel alone.
#[unsafe(no_mangle)]
pub extern "C" fn mrd_view(
    rules: Rules,
    stream: &[u8],
    n: usize,
    part: u32,
    channel: usize,
) -> ViewPlace
    ensures { result ≡ c_view (view_of (rules_of rules) stream.now n (part_numbered part channel)) }
{
    ViewPlace::from(mrd_views::view_place(rules.into(), stream, n, part_of(part, channel)))
}

// The element of record n's header that starts at this offset.
#[unsafe(no_mangle)]
pub extern "C" fn mrd_field(rules: Rules, stream: &[u8], n: usize, offset: usize) -> FieldAnswer
    ensures { result ≡ c_field (field_of (rules_of rules) stream.now n offset) }
{
    FieldAnswer::of(mrd_fields::field(rules.into(), stream, n, offset))
}

// The first acquisition from record n on with these counters.
#[unsafe(no_mangle)]
pub extern "C" fn mrd_find(rules: Rules, stream: &[u8], n: usize, counters: &[u16; 17]) -> Found
    ensures { result ≡ c_found (find_of (rules_of rules) stream.now n counters.now) }
{
    Found::from(mrd_find::find(rules.into(), stream, n, counters))
}
