// A given index compared, as a C struct.
ghost use Rattle.std.specs.Prelude.{◌≡◌};
ghost use Rattle.mrd_index_match.specs.Compare.{matched_meaning};
ghost use Rattle.c_written.specs.WrittenStructs.{matched_as, c_matched};

use mrd_stream::Refused;

// Whether a given index is the stream's own: 0 where it is.
#[repr(C)]
#[derive(Clone, Copy)]
pub struct Matched {
    pub refusal: u32,
    pub record: usize,
    pub byte: usize,
}

impl Matched {
    fn new(refusal: u8, record: usize, byte: usize) -> Matched
        ensures { result ≡ matched_as refusal «record» byte }
    {
        Matched {
            refusal: refusal as u32,
            record: record,
            byte: byte,
        }
    }
}

impl From<Result<(), Refused>> for Matched {
    ghost from_gives = { λ answer r. r ≡ c_matched (matched_meaning answer) };

    fn from(answer: Result<(), Refused>) -> Matched {
        match answer {
            Ok(()) => Matched::new(0, 0, 0),
            Err(e) => Matched::new(e.number(), e.record(), e.byte()),
        }
    }
}
