// A given index, in one of its two forms, and what can be asked of it.
ghost use Rattle.std.specs.Prelude.{◌≡◌, ℕ, Bool, true, ◌<◌, ◌≤◌};
ghost use Rattle.mrd_cursor.specs.Cursors.{max_messages};
ghost use Rattle.mrd_stream.specs.Index.{Entry as IndexEntry};
ghost use Rattle.mrd_index_fields.specs.IndexFields.{entry_meaning};
ghost use Rattle.mrd_index_match.specs.Compare.{front_in_file, entry_in_file, end_in_file, entry_in_columns};

use mrd_index_fields::{ENTRY, Entry, FRONT, end_same, entry_same, front_same};

// Each method tells whether a part of the index is the stream's own.
pub(crate) trait GivenIndex {
    ghost front_by: { Self → ℕ → Bool };

    ghost entry_by: { Self → ℕ → IndexEntry → Bool };

    ghost end_by: { Self → ℕ → Bool };

    // What stands before the entries, for a stream of so many bytes.
    fn begins(&self, total: usize) -> bool
        ensures { result ≡ front_by self.now total };

    // The entry of record n.
    fn holds(&self, n: usize, entry: Entry) -> bool
        requires { n < max_messages }
        ensures { result ≡ entry_by self.now n (entry_meaning entry) };

    // What stands after the entries, for a stream of so many records.
    fn ends(&self, count: usize) -> bool
        requires { count ≤ max_messages }
        ensures { result ≡ end_by self.now count };
}

// An index file.
#[derive(Clone, Copy)]
pub(crate) struct GivenFile<'a> {
    pub(crate) bytes: &'a [u8],
}

impl<'a> GivenIndex for GivenFile<'a> {
    ghost front_by = { λ g. front_in_file g.bytes.now };

    ghost entry_by = { λ g. entry_in_file g.bytes.now };

    ghost end_by = { λ g. end_in_file g.bytes.now };

    fn begins(&self, total: usize) -> bool {
        front_same(self.bytes, total as u64)
    }

    fn holds(&self, n: usize, entry: Entry) -> bool {
        entry_same(self.bytes, FRONT + ENTRY * n, entry)
    }

    fn ends(&self, count: usize) -> bool {
        end_same(self.bytes, FRONT + ENTRY * count, count as u32)
    }
}

// Three columns. They have nothing before or after the records' places.
#[derive(Clone, Copy)]
pub(crate) struct GivenColumns<'a> {
    pub(crate) starts: &'a [u64],
    pub(crate) ids: &'a [u16],
    pub(crate) counters: &'a [u32],
}

impl<'a> GivenIndex for GivenColumns<'a> {
    ghost front_by = { λ g total. true };

    ghost entry_by = { λ g. entry_in_columns g.starts.now g.ids.now g.counters.now };

    ghost end_by = { λ g count. true };

    fn begins(&self, _total: usize) -> bool {
        true
    }

    fn holds(&self, n: usize, entry: Entry) -> bool {
        let (Some(start), Some(id), Some(counter)) = (
            self.starts.get(n),
            self.ids.get(n),
            self.counters.get(n),
        ) else {
            return false;
        };
        *start == entry.start && *id == entry.id && *counter == entry.counter
    }

    fn ends(&self, _count: usize) -> bool {
        true
    }
}
