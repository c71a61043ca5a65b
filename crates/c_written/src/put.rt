// The position after a message that was written, as a C struct.
ghost use Rattle.std.specs.Prelude.{◌≡◌};
ghost use Rattle.mrd_writer.specs.Write.{write_meaning};
ghost use Rattle.c_written.specs.WrittenStructs.{c_put};

use mrd_format::Refusal;

// The position after a message that was written.
#[repr(C)]
#[derive(Clone, Copy)]
pub struct Put {
    pub refusal: u32,
    pub position: usize,
}

impl From<Result<usize, Refusal>> for Put {
    ghost from_gives = { λ answer r. r ≡ c_put (write_meaning answer) };

    fn from(answer: Result<usize, Refusal>) -> Put {
        match answer {
            Ok(position) => Put {
                refusal: 0,
                position: position,
            },
            Err(refusal) => Put {
                refusal: refusal.number() as u32,
                position: 0,
            },
        }
    }
}
