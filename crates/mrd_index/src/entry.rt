// The index's entry for one record: where it starts, its id and its scan counter.
ghost use Rattle.std.specs.Prelude.{◌≡◌};
ghost use Rattle.mrd_stream.specs.ReaderMeaning.{record_meaning};
ghost use Rattle.mrd_index_fields.specs.IndexFields.{entry_meaning};
ghost use Rattle.mrd_index.specs.Entries.{entry_at, WithinStream};

use mrd_index_fields::Entry;
use mrd_message::FixedPart;
use mrd_stream::PlacedRecord;

// The entry of a record of the stream s.
pub fn entry_of(s: &[u8], here: PlacedRecord) -> Entry
    requires { WithinStream s.now (record_meaning here) }
    ensures { entry_meaning result ≡ entry_at s.now (record_meaning here) }
{
    let start = here.place.start;
    let kind = here.shape.kind();
    Entry {
        start: start as u64,
        id: kind.id(),
        counter: FixedPart::of(kind, &s[start..]).scan_counter(),
    }
}
