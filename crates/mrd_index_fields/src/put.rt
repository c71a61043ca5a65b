// The fields of an index file put into an output; the other bytes keep their content.
ghost use Rattle.std.specs.Prelude.{◌≡◌, ◌+◌, ◌≤◌, length};
ghost use Rattle.mrd_numbers.specs.Stored.{stored};
ghost use Rattle.mrd_stream.specs.Index.{front_field, entry_field, end_field};
ghost use Rattle.mrd_index_fields.specs.IndexFields.{entry_meaning};

use crate::entry::{ENTRY, Entry};
use mrd_tagged::{put_at, put_tag};

// Edition 1, and the stream's length.
pub fn put_front(out: &mut [u8], total: u64)
    requires { 16 ≤ length out.old }
    ensures { out.new ≡ stored 0 (front_field total) out.old }
{
    put_tag(out, 0, 1, 2);
    put_at(out, 3, 1u16);
    put_tag(out, 5, 2, 8);
    put_at(out, 8, total);
}

// One record's entry, from `at` on. The test is for a stream that changes between the check and the walk: no byte
// is written past the output then.
pub fn put_entry(out: &mut [u8], at: usize, entry: Entry)
    requires { at + 17 ≤ length out.old }
    ensures { out.new ≡ stored at (entry_field (entry_meaning entry)) out.old }
{
    if out.len() < at + ENTRY {
        return;
    }
    put_tag(out, at, 3, 14);
    put_at(out, at + 3, entry.start);
    put_at(out, at + 11, entry.id);
    put_at(out, at + 13, entry.counter);
}

// The record count, from `at` on.
pub fn put_end(out: &mut [u8], at: usize, count: u32)
    requires { at + 7 ≤ length out.old }
    ensures { out.new ≡ stored at (end_field count) out.old }
{
    put_tag(out, at, 4, 4);
    put_at(out, at + 3, count);
}
