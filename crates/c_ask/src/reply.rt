// A reply as a C struct.
ghost use Rattle.std.specs.Prelude.{◌≡◌, T};
ghost use Rattle.mrd_ask.specs.Replies.{meaning, apart_in};
ghost use Rattle.c_ask.specs.AskStructs.{refused_reply, c_reply};

use c_place::Placed;
use c_record::{FieldAnswer, Found, ViewPlace};
use mrd_stream::Refused;

// The answer of what was asked stands in the member for it. The other three hold no answer; each of the four
// carries the reply's refusal, record and byte.
#[repr(C)]
#[derive(Clone, Copy)]
pub struct Reply {
    pub refusal: u32,
    pub record: usize,
    pub byte: usize,
    pub place: Placed,
    pub view: ViewPlace,
    pub field: FieldAnswer,
    pub found: Found,
}

impl Reply {
    // A reply without an answer.
    fn refused(number: u8, record: usize, byte: usize) -> Reply
        ensures { result ≡ refused_reply number «record» byte }
    {
        Reply {
            refusal: number as u32,
            record: record,
            byte: byte,
            place: Placed::refused(number, record, byte),
            view: ViewPlace::new(number, record, byte, 0, 0),
            field: FieldAnswer::refused(number, record, byte),
            found: Found::new(number, record, byte, 0),
        }
    }

    // No `From`: it asks of a field what `FieldAnswer::value` does.
    pub fn of(reply: Result<mrd_ask::Reply, Refused>) -> Reply
        requires { T (apart_in reply) }
        ensures { result ≡ c_reply (meaning reply) }
    {
        let mut r = Reply::refused(0, 0, 0);
        match reply {
            Ok(mrd_ask::Reply::Place(here)) => {
                r.place = Placed::from(here);
                r
            }
            Ok(mrd_ask::Reply::View(span)) => {
                r.view = ViewPlace::new(0, 0, 0, span.start, span.length);
                r
            }
            Ok(mrd_ask::Reply::Field(value)) => {
                r.field = FieldAnswer::value(value);
                r
            }
            Ok(mrd_ask::Reply::Found(number)) => {
                r.found = Found::new(0, 0, 0, number);
                r
            }
            Err(e) => Reply::refused(e.number(), e.record(), e.byte()),
        }
    }
}
