// Why a stream is refused, and why a question about one is.
ghost use Rattle.std.specs.Prelude.{◌≡◌};
ghost use Rattle.mrd_stream.specs.Refused.{number_told, record_told, byte_told, ByStream, ByRefusal};

use mrd_format::Refusal;
use std::error::Error;
use std::fmt;

// A stream is refused: why, the record that its walk met, counted from 0, and the byte where that message starts.
#[derive(Clone, Copy, Debug, PartialEq, Eq)]
pub struct StreamRefusal {
    pub why: Refusal,
    pub record: usize,
    pub byte: usize,
}

// A question is refused.
#[derive(Clone, Copy, Debug, PartialEq, Eq)]
pub enum Refused {
    // The stream itself is.
    Stream(StreamRefusal),
    // The question is, with a number alone.
    Alone(Refusal),
}

impl Refused {
    // The number of the refusal, 1 to 21.
    pub fn number(self) -> u8
        ensures { result ≡ number_told self }
    {
        match self {
            Refused::Stream(refusal) => refusal.why.number(),
            Refused::Alone(why) => why.number(),
        }
    }

    // The record at which the stream is refused; 0 beside a number alone.
    pub fn record(self) -> usize
        ensures { result ≡ record_told self }
    {
        match self {
            Refused::Stream(refusal) => refusal.record,
            Refused::Alone(_) => 0,
        }
    }

    // The byte at which the stream is refused; 0 beside a number alone.
    pub fn byte(self) -> usize
        ensures { result ≡ byte_told self }
    {
        match self {
            Refused::Stream(refusal) => refusal.byte,
            Refused::Alone(_) => 0,
        }
    }
}

impl From<StreamRefusal> for Refused {
    ghost from_gives = { ByStream };

    fn from(refusal: StreamRefusal) -> Self {
        Self::Stream(refusal)
    }
}

impl From<Refusal> for Refused {
    ghost from_gives = { ByRefusal };

    fn from(why: Refusal) -> Self {
        Self::Alone(why)
    }
}

impl fmt::Display for StreamRefusal {
    fn fmt<W: fmt::Write>(&self, f: &mut fmt::Formatter<W>) -> fmt::Result {
        let number = self.why.number();
        let (record, byte) = (self.record, self.byte);
        write!(f, "refused {number} at record {record} byte {byte}")
    }
}

impl fmt::Display for Refused {
    fn fmt<W: fmt::Write>(&self, f: &mut fmt::Formatter<W>) -> fmt::Result {
        match self {
            Refused::Stream(refusal) => refusal.fmt(f),
            Refused::Alone(why) => why.fmt(f),
        }
    }
}

impl Error for StreamRefusal {}

impl Error for Refused {}
