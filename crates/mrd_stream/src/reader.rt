// The reader: a whole stream checked, walked record by record, and asked for a record's place and kind.
ghost use Rattle.std.specs.Prelude.{◌≡◌, ◌+◌, ◌<◌, ◌^◌, Err, IfOk, IfErr};
ghost use Rattle.mrd_cursor.specs.Cursors.{max_messages};
ghost use Rattle.mrd_logic.specs.Answer.{refused};
ghost use Rattle.mrd_format.specs.Refusals.{number_of};
ghost use Rattle.mrd_stream.specs.Walk.{ended, verdict, answer, from};
ghost use Rattle.mrd_stream.specs.Places.{place, step, yielded};
ghost use Rattle.mrd_stream.specs.Seek.{kept_by};
ghost use Rattle.mrd_stream.specs.declared.refused.Refused.TheVariants.{Stream};
ghost use Rattle.mrd_stream.specs.ReaderMeaning.{checked_meaning, placed_meaning, record_meaning, step_meaning};

use crate::answer::{Place, PlacedRecord, Step};
use crate::refused::{Refused, StreamRefusal};
use mrd_cursor::Cursor;
use mrd_format::{Profile, Refusal, Rules};
use mrd_judge::{judge, judge_message};
use mrd_message::FixedPart;

// One step over the stream s: the message that is due at c, with its place and kind and the cursor of
// what follows, or the stream's answer. From Cursor::beginning() on, the steps hand out the stream's
// messages in order and then its answer; any other cursor gets some answer too. A step reads the fixed
// part of one message, and of its payload in the strict profile the text alone.
pub fn next(rules: Rules, c: Cursor, s: &[u8]) -> Step
    ensures { step_meaning result ≡ step rules c s.now }
{
    if s.len() <= c.start {
        return Step::End(ended(c));
    }
    let rest = &s[c.start..];
    match judge_message(rules, c, rest) {
        Ok(message) => yields(c, FixedPart::of(message.kind, rest), message.size),
        Err(why) => Step::End(refused(c, why)),
    }
}

// The answer where no bytes are left.
fn ended(c: Cursor) -> Result<usize, StreamRefusal>
    ensures { checked_meaning result ≡ ended c }
{
    if c.phase.is_closed() {
        return Ok(c.number);
    }
    refused(c, Refusal::NoClose)
}

// The answer where the message that is due is refused.
fn refused(c: Cursor, why: Refusal) -> Result<usize, StreamRefusal>
    ensures { checked_meaning result ≡ refused (number_of why) c.number c.start }
{
    Err(StreamRefusal {
        why,
        record: c.number,
        byte: c.start,
    })
}

// A message that passed every check, as a record.
fn yields(c: Cursor, fixed: FixedPart<'_>, size: usize) -> Step
    requires { (c.number < max_messages) × (c.start + size < 2 ^ 64) }
    ensures { step_meaning result ≡ yielded c fixed.entry.kind fixed.entry.bytes.now size }
{
    let place = Place {
        number: c.number,
        start: c.start,
        size,
    };
    let record = PlacedRecord {
        place,
        shape: fixed.shape(),
    };
    Step::Message(record, c.after(fixed.kind, size))
}

// Checks a whole stream: accepted with the number of its records, or the refusal of its first faulty
// message.
pub fn check(rules: Rules, s: &[u8]) -> Result<usize, StreamRefusal>
    ensures { checked_meaning result ≡ answer rules s.now }
{
    check_from(rules, Cursor::beginning(), s)
}

// Checks what a walk still has before it: the answer that its steps from c on end in. Where c comes
// from a walk over s, that is the stream's answer; any other cursor gets some answer too.
pub fn check_from(rules: Rules, c: Cursor, s: &[u8]) -> Result<usize, StreamRefusal>
    ensures { checked_meaning result ≡ verdict (from rules c s.now) }
{
    match rules.profile {
        Profile::Plain => check_plain(rules, c, s),
        Profile::Strict => check_strict(rules, c, s),
    }
}

// The same by steps, whatever the profile.
fn check_strict(rules: Rules, c: Cursor, s: &[u8]) -> Result<usize, StreamRefusal>
    ensures { checked_meaning result ≡ verdict (from rules c s.now) }
{
    let mut c = c;
    loop {
        match next(rules, c, s) {
            Step::Message(_, after) => c = after,
            Step::End(answer) => return answer,
        }
    }
}

// The same in the plain profile, with no record made and no text looked at.
fn check_plain(rules: Rules, c: Cursor, s: &[u8]) -> Result<usize, StreamRefusal>
    requires { rules.profile ≡ Profile.Plain }
    ensures { checked_meaning result ≡ verdict (from rules c s.now) }
{
    let mut c = c;
    while c.start < s.len() {
        match judge(rules, c, &s[c.start..]) {
            Ok(whole) => c = c.after(whole.sort.kind(rules), whole.size),
            Err(why) => return refused(c, why),
        }
    }
    ended(c)
}

// The place and kind of record n; else the stream's refusal, or 16 where there is no such record. One
// walk over the whole stream.
pub fn place(rules: Rules, s: &[u8], n: usize) -> Result<PlacedRecord, Refused>
    ensures { placed_meaning result ≡ place rules s.now n }
{
    let mut c = Cursor::beginning();
    let mut found = Err(Refused::Alone(Refusal::NoRecord));
    loop {
        match next(rules, c, s) {
            Step::Message(record, after) => {
                found = kept(found, record, n);
                c = after;
            }
            // What `concluded` says; a call of it would copy what was found, which takes more stack.
            Step::End(Ok(_)) => return found,
            Step::End(Err(refusal)) => return Err(Refused::Stream(refusal)),
        }
    }
}

// This record where it is record n, else what was found before.
fn kept(
    before: Result<PlacedRecord, Refused>,
    here: PlacedRecord,
    n: usize,
) -> Result<PlacedRecord, Refused>
    ensures { placed_meaning result ≡ kept_by (record_meaning here) n (placed_meaning before) }
{
    if here.place.number == n {
        return Ok(here);
    }
    before
}

// What a walk concludes: what was found, where the stream is accepted; else the stream's refusal, with
// its record and byte, whatever was found before.
pub fn concluded<T: Drop>(
    found: Result<T, Refused>,
    answer: Result<usize, StreamRefusal>,
) -> Result<T, Refused>
    ensures accepted { IfOk answer (λ _. result ≡ found) }
    ensures refused { IfErr answer (λ e. result ≡ Err (Stream e)) }
{
    match answer {
        Ok(_) => found,
        Err(refusal) => Err(Refused::Stream(refusal)),
    }
}
