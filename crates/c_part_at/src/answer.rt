// What a byte belongs to, as a C struct.
ghost use Rattle.std.specs.Prelude.{◌≡◌};
ghost use Rattle.mrd_stream.specs.ReaderMeaning.{record_meaning};
ghost use Rattle.mrd_part_at.specs.PartAt.{place_meaning, answer_meaning};
ghost use Rattle.c_place.specs.PlacedStruct.{c_record};
ghost use Rattle.c_part_at.specs.PartStruct.{refused_part, part_as, c_named, c_part, header_number, element_offset, element_size, in_header};

use crate::number::{channel_of, number_of};
use c_place::Placed;
use mrd_element::ElementPlace;
use mrd_holding::MessagePart;
use mrd_part_at::PartPlace;
use mrd_stream::{PlacedRecord, Refused};
use mrd_views::Span;

// The numbers of the parts that no view shows, after those of a view.
const ID: u32 = 8;

const LENGTH: u32 = 9;

const HEADER: u32 = 10;

const NAME_REST: u32 = 11;

// The record that the byte belongs to, the part by its number, and where that lies in the stream; of a header's byte the
// element, by its offset in the header and its size, both 0 for filler.
#[repr(C)]
#[derive(Clone, Copy)]
pub struct PartAnswer {
    pub refusal: u32,
    pub record: usize,
    pub byte: usize,
    pub place: Placed,
    pub part: u32,
    pub channel: usize,
    pub start: usize,
    pub length: usize,
    pub element_offset: usize,
    pub element_size: usize,
}

impl PartAnswer {
    // An answer without a part.
    fn refused(number: u8, record: usize, byte: usize) -> PartAnswer
        ensures { result ≡ refused_part number «record» byte }
    {
        PartAnswer {
            refusal: number as u32,
            record: record,
            byte: byte,
            place: Placed::refused(number, record, byte),
            part: 0,
            channel: 0,
            start: 0,
            length: 0,
            element_offset: 0,
            element_size: 0,
        }
    }

    // A part by its number, where no element is told.
    fn part(here: PlacedRecord, span: Span, part: u32, channel: usize) -> PartAnswer
        ensures { result ≡ part_as (c_record (record_meaning here)) part channel span 0 0 }
    {
        PartAnswer {
            refusal: 0,
            record: 0,
            byte: 0,
            place: Placed::from(here),
            part: part,
            channel: channel,
            start: span.start,
            length: span.length,
            element_offset: 0,
            element_size: 0,
        }
    }

    // A header, and the element that the byte belongs to.
    fn header(here: PlacedRecord, span: Span, byte: Option<ElementPlace>) -> PartAnswer
        ensures { result ≡ part_as (c_record (record_meaning here)) header_number 0 span (element_offset (in_header byte)) (element_size (in_header byte)) }
    {
        let mut r = PartAnswer::part(here, span, HEADER, 0);
        let Some(place) = byte else {
            return r;
        };
        r.element_offset = place.offset;
        r.element_size = place.size;
        r
    }

    fn at(place: PartPlace) -> PartAnswer
        ensures { result ≡ c_named (place_meaning place) }
    {
        let here = place.record;
        let span = place.span;
        let part = place.part;
        match part {
            MessagePart::Id => PartAnswer::part(here, span, ID, 0),
            MessagePart::Length => PartAnswer::part(here, span, LENGTH, 0),
            MessagePart::Header(byte) => PartAnswer::header(here, span, byte),
            MessagePart::NameRest => PartAnswer::part(here, span, NAME_REST, 0),
            MessagePart::Shown(shown) => {
                PartAnswer::part(here, span, number_of(shown), channel_of(shown))
            }
        }
    }
}

impl From<Result<PartPlace, Refused>> for PartAnswer {
    ghost from_gives = { λ answer r. r ≡ c_part (answer_meaning answer) };

    fn from(answer: Result<PartPlace, Refused>) -> PartAnswer {
        match answer {
            Ok(place) => PartAnswer::at(place),
            Err(e) => PartAnswer::refused(e.number(), e.record(), e.byte()),
        }
    }
}
