// The record that holds a byte.
ghost use Rattle.std.specs.Prelude.{◌≡◌};
ghost use Rattle.mrd_stream.specs.ReaderMeaning.{placed_meaning};
ghost use Rattle.mrd_part_at.specs.PartAt.{record_holding};

use mrd_cursor::Cursor;
use mrd_format::{Refusal, Rules};
use mrd_stream::{PlacedRecord, Refused, Step, check_from, concluded};

// The place and kind of the record that holds this byte; else the stream's refusal, also where the byte stands before
// the fault, or 16 for a byte past the end. One walk over the stream: the messages adjoin, so the first that ends past
// the byte holds it.
pub(crate) fn record_holding(rules: Rules, s: &[u8], byte: usize) -> Result<PlacedRecord, Refused>
    ensures { placed_meaning result ≡ record_holding rules s.now byte }
{
    let mut c = Cursor::beginning();
    loop {
        match mrd_stream::next(rules, c, s) {
            Step::Message(here, after) => {
                if byte < after.start {
                    let rest = check_from(rules, after, s);
                    return concluded(Ok(here), rest);
                }
                c = after;
            }
            Step::End(answer) => return concluded(Err(Refused::Alone(Refusal::NoRecord)), answer),
        }
    }
}
