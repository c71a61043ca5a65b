// The index as a file: a run of tagged fields, written to the front of an output.
ghost use Rattle.std.specs.Prelude.{◌≡◌, ◌+◌, ◌≤◌, length};
ghost use Rattle.mrd_numbers.specs.Stored.{stored};
ghost use Rattle.mrd_stream.specs.Index.{entries, entry_fields};
ghost use Rattle.mrd_stream.specs.Output.{written_meaning};
ghost use Rattle.mrd_index.specs.File.{index_answer, index_output};

use crate::entry::entry_of;
use mrd_cursor::Cursor;
use mrd_format::{Refusal, Rules};
use mrd_index_fields::{END, ENTRY, FRONT, put_end, put_entry, put_front};
use mrd_stream::{Refused, Step, check};

// Writes the index of the stream s to the front of out and answers its length, which is 23 bytes and 17 for
// each record; else answers the stream's refusal, or 14 where out is shorter than that. The rest of out keeps
// its content, and a refusal changes no byte.
pub fn write_index(rules: Rules, s: &[u8], out: &mut [u8]) -> Result<usize, Refused>
    ensures result_value { written_meaning result ≡ index_answer rules s.now (length out.old) }
    ensures out_after { out.new ≡ index_output rules s.now out.old }
{
    let count = check(rules, s)?;
    let end = FRONT + ENTRY * count;
    let size = end + END;
    if out.len() < size {
        return Err(Refused::Alone(Refusal::OutputShort));
    }
    put_front(out, s.len() as u64);
    put_entries(rules, s, out);
    put_end(out, end, count as u32);
    Ok(size)
}

// Writes the entry of each record of s, from byte 16 of out on: one step for each record.
fn put_entries(rules: Rules, s: &[u8], out: &mut [u8])
    requires { 16 + length (entry_fields (entries rules s.now)) ≤ length out.old }
    ensures { out.new ≡ stored 16 (entry_fields (entries rules s.now)) out.old }
{
    let mut c = Cursor::beginning();
    loop {
        match mrd_stream::next(rules, c, s) {
            Step::Message(record, next) => {
                let at = FRONT + ENTRY * record.place.number;
                put_entry(out, at, entry_of(s, record));
                c = next;
            }
            Step::End(_) => return,
        }
    }
}
