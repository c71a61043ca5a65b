// What stands at the front of an output, as a C struct.
ghost use Rattle.std.specs.Prelude.{◌≡◌};
ghost use Rattle.mrd_stream.specs.Output.{written_meaning};
ghost use Rattle.c_written.specs.WrittenStructs.{written_as, c_written};

use mrd_stream::Refused;

// How much stands at the front of an output.
#[repr(C)]
#[derive(Clone, Copy)]
pub struct Written {
    pub refusal: u32,
    pub record: usize,
    pub byte: usize,
    pub length: usize,
}

impl Written {
    fn new(refusal: u8, record: usize, byte: usize, length: usize) -> Written
        ensures { result ≡ written_as refusal «record» byte length }
    {
        Written {
            refusal: refusal as u32,
            record: record,
            byte: byte,
            length: length,
        }
    }
}

impl From<Result<usize, Refused>> for Written {
    ghost from_gives = { λ answer r. r ≡ c_written (written_meaning answer) };

    fn from(answer: Result<usize, Refused>) -> Written {
        match answer {
            Ok(length) => Written::new(0, 0, 0, length),
            Err(e) => Written::new(e.number(), e.record(), e.byte(), 0),
        }
    }
}
