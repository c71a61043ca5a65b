// Why something is refused: the errors, with their numbers. C has the same names in capitals, as `MRD_REFUSED_ID_CUT`.
ghost use Rattle.std.specs.Prelude.{◌≡◌};
ghost use Rattle.mrd_format.specs.Refusals.{number_of};

use std::error::Error;
use std::fmt;

#[derive(Clone, Copy, Debug, PartialEq, Eq)]
pub enum Refusal {
    // One byte remains where an id is due.
    IdCut = 1,
    // The id is not in the table of kinds.
    UnknownId = 2,
    // The fixed part doesn't fit in what remains; of the writer: the header bytes are not as long as the
    // kind's fixed header.
    FixedPartCut = 3,
    // The version is not 1.
    Version = 4,
    // No zero among the name's 1,024 bytes; of the writer: a name over 1,023 bytes or holding a zero.
    Name = 5,
    // Active channels above available.
    Channels = 6,
    // Discard pre plus discard post above the number of samples.
    Discard = 7,
    // An image's data type is not 1 to 8.
    DataType = 8,
    // An image header's attribute length is neither 0 nor the 8-byte length after it.
    AttributeLength = 9,
    // The whole message, id included, is over 268,435,456 bytes.
    TooLarge = 10,
    // The whole message doesn't fit in what remains.
    MessageCut = 11,
    // The order of messages is broken.
    Order = 12,
    // The stream ends without a close.
    NoClose = 13,
    // The output is too short, or the start position is past its end.
    OutputShort = 14,
    // The index differs from the one the stream yields.
    IndexDiffers = 15,
    // There is no such record, or no such byte.
    NoRecord = 16,
    // The record has no such part or channel.
    NoPart = 17,
    // Of the writer: a body's length isn't what its header says, or a part its kind lacks isn't empty.
    BodyLength = 18,
    // A message begins after 1,000,000 messages.
    TooMany = 19,
    // No header element starts at that offset, or the record has no header.
    NoField = 20,
    // In the strict profile: a name, a text or attributes are not UTF-8.
    TextNotUtf8 = 21,
}

impl Refusal {
    // The number that stands for it, 1 to 21.
    pub fn number(self) -> u8
        ensures { result ≡ number_of self }
    {
        self as u8
    }
}

impl fmt::Display for Refusal {
    fn fmt<W: fmt::Write>(&self, f: &mut fmt::Formatter<W>) -> fmt::Result {
        let number = self.number();
        write!(f, "refused {number}")
    }
}

impl Error for Refusal {}
