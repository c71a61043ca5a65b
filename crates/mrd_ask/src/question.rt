// A question about a record of a stream, and what is replied to it.
use mrd_element::Value;
use mrd_parts::Part;
use mrd_stream::PlacedRecord;
use mrd_views::Span;

// The record by its number from 0.
#[derive(Clone, Copy)]
pub enum Question {
    // Its place and kind.
    Place(usize),
    // Where a part of it lies.
    View(usize, Part),
    // The element of its header that starts at an offset, counted from the header's first byte.
    Field(usize, usize),
    // The first acquisition from it on with the counters that are asked for.
    Find(usize),
}

// What each kind of question asks for.
#[derive(Clone, Copy)]
pub enum Reply {
    Place(PlacedRecord),
    View(Span),
    Field(Value),
    Found(usize),
}
