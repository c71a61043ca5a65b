// A stream's answer as a C struct.
ghost use Rattle.std.specs.Prelude.{◌≡◌};
ghost use Rattle.mrd_stream.specs.ReaderMeaning.{checked_meaning};
ghost use Rattle.c_walk.specs.WalkStructs.{checked_as, c_checked};

use mrd_stream::StreamRefusal;

// A stream's answer: accepted with `count` records, or refused.
#[repr(C)]
#[derive(Clone, Copy)]
pub struct Checked {
    pub refusal: u32,
    pub record: usize,
    pub byte: usize,
    pub count: usize,
}

impl Checked {
    pub fn new(refusal: u8, record: usize, byte: usize, count: usize) -> Checked
        ensures { result ≡ checked_as refusal «record» byte count }
    {
        Checked {
            refusal: refusal as u32,
            record: record,
            byte: byte,
            count: count,
        }
    }
}

impl From<Result<usize, StreamRefusal>> for Checked {
    ghost from_gives = { λ answer r. r ≡ c_checked (checked_meaning answer) };

    fn from(answer: Result<usize, StreamRefusal>) -> Checked {
        match answer {
            Ok(count) => Checked::new(0, 0, 0, count),
            Err(r) => Checked::new(r.why.number(), r.record, r.byte, 0),
        }
    }
}
