// The record that was looked for, as a C struct.
ghost use Rattle.std.specs.Prelude.{◌≡◌};
ghost use Rattle.mrd_find.specs.FoundMeaning.{found_meaning};
ghost use Rattle.c_record.specs.RecordStructs.{found_as, c_found};

use mrd_stream::Refused;

// The number of the record that was looked for.
#[repr(C)]
#[derive(Clone, Copy)]
pub struct Found {
    pub refusal: u32,
    pub record: usize,
    pub byte: usize,
    pub number: usize,
}

impl Found {
    pub fn new(refusal: u8, record: usize, byte: usize, number: usize) -> Found
        ensures { result ≡ found_as refusal «record» byte number }
    {
        Found {
            refusal: refusal as u32,
            record: record,
            byte: byte,
            number: number,
        }
    }
}

impl From<Result<usize, Refused>> for Found {
    ghost from_gives = { λ answer r. r ≡ c_found (found_meaning answer) };

    fn from(answer: Result<usize, Refused>) -> Found {
        match answer {
            Ok(number) => Found::new(0, 0, 0, number),
            Err(e) => Found::new(e.number(), e.record(), e.byte(), 0),
        }
    }
}
