// A given index compared with the one that the stream yields, in one walk and with no second buffer.
ghost use Rattle.std.specs.Prelude.{◌≡◌, ◌&&◌, length};
ghost use Rattle.mrd_stream.specs.Walk.{answer as stream_answer};
ghost use Rattle.mrd_stream.specs.Index.{entries};
ghost use Rattle.mrd_stream.specs.ReaderMeaning.{checked_meaning};
ghost use Rattle.mrd_index_match.specs.Compare.{matched_meaning, file_match, columns_match, all_same, Counts, conclusion};

use crate::given::{GivenColumns, GivenFile, GivenIndex};
use mrd_cursor::Cursor;
use mrd_format::{Refusal, Rules};
use mrd_index::entry_of;
use mrd_stream::{Refused, Step, StreamRefusal};

// Whether a given file is the index of the stream s, byte for byte and in whole: 15 where it is not; else the stream's
// refusal.
#[tactic(auto, using(crate::specs::CompareLaws::file_match_lem))]
pub fn index_matches(rules: Rules, s: &[u8], file: &[u8]) -> Result<(), Refused>
    ensures { matched_meaning result ≡ file_match rules s.now file.now }
{
    compare(rules, s, &GivenFile { bytes: file })
}

// Whether three given columns hold the index of the stream s, none too short and its numbers in each record's place:
// 15 where they do not; else the stream's refusal. What a column holds after the records' places is not looked at.
#[tactic(auto, using(crate::specs::CompareLaws::columns_match_lem))]
pub fn columns_match(
    rules: Rules,
    s: &[u8],
    starts: &[u64],
    ids: &[u16],
    counters: &[u32],
) -> Result<(), Refused>
    ensures { matched_meaning result ≡ columns_match rules s.now starts.now ids.now counters.now }
{
    let given = GivenColumns {
        starts,
        ids,
        counters,
    };
    compare(rules, s, &given)
}

// Compares what is given with the index of s, record by record.
#[tactic(auto, using(crate::specs::Comparing::walked))]
fn compare<G: GivenIndex>(rules: Rules, s: &[u8], given: &G) -> Result<(), Refused>
    ensures { matched_meaning result ≡ conclusion (G.end_by given.now) (G.front_by given.now (length s.now) && all_same (G.entry_by given.now) 0 (entries rules s.now)) (stream_answer rules s.now) }
{
    let mut same = given.begins(s.len());
    let mut c = Cursor::beginning();
    loop {
        match mrd_stream::next(rules, c, s) {
            Step::Message(record, next) => {
                if same {
                    same = given.holds(record.place.number, entry_of(s, record));
                }
                c = next;
            }
            Step::End(answer) => return concluded(same, answer, given),
        }
    }
}

// The answer at the end of the walk, where all was the same so far or not.
fn concluded<G: GivenIndex>(
    same: bool,
    answer: Result<usize, StreamRefusal>,
    given: &G,
) -> Result<(), Refused>
    requires { Counts (checked_meaning answer) }
    ensures { matched_meaning result ≡ conclusion (G.end_by given.now) same (checked_meaning answer) }
{
    let count = answer?;
    if same & given.ends(count) {
        return Ok(());
    }
    Err(Refused::Alone(Refusal::IndexDiffers))
}
