// The first acquisition whose seventeen counters are those asked for.
ghost use Rattle.std.specs.Prelude.{◌≡◌};
ghost use Rattle.mrd_format.specs.Shapes.{kind_of};
ghost use Rattle.mrd_find.specs.Find.{candidate, find_of};
ghost use Rattle.mrd_find.specs.FoundMeaning.{found_meaning};

use mrd_acquisition::{AcquisitionHeader, COUNTER_COUNT};
use mrd_cursor::Cursor;
use mrd_format::{Kind, Refusal, Rules};
use mrd_message::FixedPart;
use mrd_stream::{PlacedRecord, Refused, Step, check_from, concluded};

// The number of the first acquisition from record n on with these counters; else the stream's refusal,
// also where a match stands before the fault, or 16. One walk over the stream.
pub fn find(
    rules: Rules,
    s: &[u8],
    n: usize,
    counters: &[u16; COUNTER_COUNT],
) -> Result<usize, Refused>
    ensures { found_meaning result ≡ find_of rules s.now n counters.now }
{
    let mut c = Cursor::beginning();
    'records: loop {
        match mrd_stream::next(rules, c, s) {
            Step::Message(here, next) => {
                if !candidate(here, n) {
                    c = next;
                    continue 'records;
                }
                let fixed = FixedPart::of(Kind::Acquisition, &s[here.place.start..]);
                let header = AcquisitionHeader { bytes: fixed.bytes };
                // Most differ early, so each is read only where those before it are the same.
                for i in 0..COUNTER_COUNT {
                    if header.encoding_counter(i) != counters[i] {
                        c = next;
                        continue 'records;
                    }
                }
                let rest = check_from(rules, next, s);
                return concluded(Ok(here.place.number), rest);
            }
            Step::End(answer) => return concluded(Err(Refused::Alone(Refusal::NoRecord)), answer),
        }
    }
}

// Whether a record is an acquisition, and record n or a later one.
fn candidate(here: PlacedRecord, n: usize) -> bool
    ensures { result ≡ candidate n here.place.number (kind_of here.shape) }
{
    n <= here.place.number && here.shape.kind().id() == Kind::ACQUISITION
}
