// How far a walk over a stream comes, and what is kept of the stream by that.
ghost use Rattle.std.specs.Prelude.{◌≡◌, ◌≤◌, ◌<◌, ◌^◌};
ghost use Rattle.mrd_salvage.specs.Reached.{reach_at, reached, report_by};

use crate::report::Report;
use mrd_cursor::Cursor;
use mrd_format::Rules;
use mrd_judge::{MAX_MESSAGES, judge_message};

// Where a walk stops, at the first fault or at the end: how many messages it has passed, where the last of them ends
// and where it starts, and whether it is a close.
#[derive(Clone, Copy)]
pub(crate) struct Reach {
    pub number: usize,
    pub end: usize,
    pub last: usize,
    pub closed: bool,
}

impl Reach {
    fn at(c: Cursor, last: usize) -> Reach
        ensures { result ≡ reach_at c last }
    {
        Reach {
            number: c.number,
            end: c.start,
            last,
            closed: c.phase.is_closed(),
        }
    }

    // The report on a stream of this length. A close that is added is a message more, so of the most that a stream may
    // have the last is not kept.
    pub(crate) fn report(self, length: usize) -> Report
        requires { (self.end ≤ length) × (self.last ≤ length) × (length < 2 ^ 63) }
        ensures { result ≡ report_by self length }
    {
        if self.closed {
            return Report::as_they_are(self.number, self.end, length);
        }
        if MAX_MESSAGES - 1 < self.number {
            return Report::with_close(MAX_MESSAGES - 1, self.last, length);
        }
        Report::with_close(self.number, self.end, length)
    }
}

// The walk over s from its beginning, as a check's: no record is made.
pub(crate) fn walk(rules: Rules, s: &[u8]) -> Reach
    ensures { result ≡ reached rules s.now }
{
    let mut c = Cursor::beginning();
    let mut last: usize = 0;
    while c.start < s.len() {
        let Ok(message) = judge_message(rules, c, &s[c.start..]) else {
            return Reach::at(c, last);
        };
        last = c.start;
        c = c.after(message.kind, message.size);
    }
    Reach::at(c, last)
}
