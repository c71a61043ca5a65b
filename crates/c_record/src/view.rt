// Where a part of a record lies, as a C struct.
ghost use Rattle.std.specs.Prelude.{◌≡◌};
ghost use Rattle.mrd_views.specs.Views.{view_meaning};
ghost use Rattle.c_record.specs.RecordStructs.{view_as, c_view};

use mrd_stream::Refused;
use mrd_views::Span;

// Where a part of a record lies in the stream.
#[repr(C)]
#[derive(Clone, Copy)]
pub struct ViewPlace {
    pub refusal: u32,
    pub record: usize,
    pub byte: usize,
    pub start: usize,
    pub length: usize,
}

impl ViewPlace {
    pub fn new(refusal: u8, record: usize, byte: usize, start: usize, length: usize) -> ViewPlace
        ensures { result ≡ view_as refusal «record» byte start length }
    {
        ViewPlace {
            refusal: refusal as u32,
            record: record,
            byte: byte,
            start: start,
            length: length,
        }
    }
}

impl From<Result<Span, Refused>> for ViewPlace {
    ghost from_gives = { λ answer r. r ≡ c_view (view_meaning answer) };

    fn from(answer: Result<Span, Refused>) -> ViewPlace {
        match answer {
            Ok(span) => ViewPlace::new(0, 0, 0, span.start, span.length),
            Err(e) => ViewPlace::new(e.number(), e.record(), e.byte(), 0, 0),
        }
    }
}
