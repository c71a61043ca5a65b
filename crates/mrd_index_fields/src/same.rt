// The fields of an index file compared with the bytes of a given one.
ghost use Rattle.std.specs.Prelude.{◌≡◌, ◌<◌, ◌^◌, drop};
ghost use Rattle.mrd_logic.specs.Lists.{begins, equal};
ghost use Rattle.mrd_stream.specs.Index.{front_field, entry_field, end_field};
ghost use Rattle.mrd_index_fields.specs.IndexFields.{entry_meaning};

use crate::entry::{END, ENTRY, Entry, FRONT};
use mrd_tagged::{same_at, tag_same};

// Whether file begins with edition 1 and the stream's length.
pub fn front_same(file: &[u8], total: u64) -> bool
    ensures { result ≡ begins (front_field total) file.now }
{
    if file.len() < FRONT {
        return false;
    }
    let rest = tag_same(file, 5, 2, 8) & same_at(file, 8, total);
    tag_same(file, 0, 1, 2) & (same_at(file, 3, 1u16) & rest)
}

// Whether the field of this entry stands in file from `at` on.
pub fn entry_same(file: &[u8], at: usize, entry: Entry) -> bool
    requires { at < 2 ^ 32 }
    ensures { result ≡ begins (entry_field (entry_meaning entry)) (drop at file.now) }
{
    if file.len() < at + ENTRY {
        return false;
    }
    let rest = same_at(file, at + 11, entry.id) & same_at(file, at + 13, entry.counter);
    tag_same(file, at, 3, 14) & (same_at(file, at + 3, entry.start) & rest)
}

// Whether file holds the record count from `at` on and nothing after it.
pub fn end_same(file: &[u8], at: usize, count: u32) -> bool
    requires { at < 2 ^ 32 }
    ensures { result ≡ equal (drop at file.now) (end_field count) }
{
    if file.len() != at + END {
        return false;
    }
    tag_same(file, at, 4, 4) & same_at(file, at + 3, count)
}
