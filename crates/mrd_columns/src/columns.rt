// The index in memory: three given columns, start, id and counter, with one place for each record.
ghost use Rattle.std.specs.Prelude.{◌≡◌, ◌+◌, [], ◌∷◌, length};
ghost use Rattle.mrd_numbers.specs.Stored.{stored, front};
ghost use Rattle.mrd_stream.specs.Index.{entries, start_column, id_column, counter_column};
ghost use Rattle.mrd_stream.specs.Output.{written_meaning, output_by};
ghost use Rattle.mrd_columns.specs.Columns.{columns_answer, Rooms};

use mrd_cursor::Cursor;
use mrd_format::{Refusal, Rules};
use mrd_index::entry_of;
use mrd_index_fields::Entry;
use mrd_stream::{Refused, Step, check};

// Fills the columns with the index of the stream s, place n for record n, and answers the number of records;
// else answers the stream's refusal, or 14 where any column is shorter than that. Later places keep their
// content, and a refusal changes none.
pub fn fill_columns(
    rules: Rules,
    s: &[u8],
    starts: &mut [u64],
    ids: &mut [u16],
    counters: &mut [u32],
) -> Result<usize, Refused>
    ensures result_value { written_meaning result ≡ columns_answer rules s.now (length starts.old) (length ids.old) (length counters.old) }
    ensures starts_after { starts.new ≡ output_by (written_meaning result) (start_column rules s.now) starts.old }
    ensures ids_after { ids.new ≡ output_by (written_meaning result) (id_column rules s.now) ids.old }
    ensures counters_after { counters.new ≡ output_by (written_meaning result) (counter_column rules s.now) counters.old }
{
    let count = check(rules, s)?;
    if (starts.len() < count) | ((ids.len() < count) | (counters.len() < count)) {
        return Err(Refused::Alone(Refusal::OutputShort));
    }
    put_places(rules, s, starts, ids, counters);
    Ok(count)
}

// Writes the entry of each record of s to its place in the columns: one step for each record.
fn put_places(rules: Rules, s: &[u8], starts: &mut [u64], ids: &mut [u16], counters: &mut [u32])
    requires { Rooms (length (entries rules s.now)) (length starts.old) (length ids.old) (length counters.old) }
    ensures starts_after { starts.new ≡ front (start_column rules s.now) starts.old }
    ensures ids_after { ids.new ≡ front (id_column rules s.now) ids.old }
    ensures counters_after { counters.new ≡ front (counter_column rules s.now) counters.old }
{
    let mut c = Cursor::beginning();
    loop {
        match mrd_stream::next(rules, c, s) {
            Step::Message(record, next) => {
                let entry = entry_of(s, record);
                put_place(record.place.number, entry, starts, ids, counters);
                c = next;
            }
            Step::End(_) => return,
        }
    }
}

// Writes an entry to place n of the columns. The tests are for a stream that changes between the check and the
// walk: nothing is written past a column then.
fn put_place(n: usize, entry: Entry, starts: &mut [u64], ids: &mut [u16], counters: &mut [u32])
    requires { Rooms (n + 1) (length starts.old) (length ids.old) (length counters.old) }
    ensures starts_after { starts.new ≡ stored n (entry.start ∷ []) starts.old }
    ensures ids_after { ids.new ≡ stored n (entry.id ∷ []) ids.old }
    ensures counters_after { counters.new ≡ stored n (entry.counter ∷ []) counters.old }
{
    if (starts.len() <= n) | ((ids.len() <= n) | (counters.len() <= n)) {
        return;
    }
    starts[n] = entry.start;
    ids[n] = entry.id;
    counters[n] = entry.counter;
}
