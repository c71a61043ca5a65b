// What the reader answers, and why it refuses.
use crate::refused::StreamRefusal;
use mrd_cursor::Cursor;
use mrd_format::Shape;

// Where a record lies: its number from 0, its first byte, and its size with the id.
#[derive(Clone, Copy)]
pub struct Place {
    pub number: usize,
    pub start: usize,
    pub size: usize,
}

// A record's place, and beside it its kind with that kind's own numbers.
#[derive(Clone, Copy)]
pub struct PlacedRecord {
    pub place: Place,
    pub shape: Shape,
}

// What one step of a walk hands out.
#[derive(Clone, Copy)]
pub enum Step {
    // A message, and the cursor of what follows it.
    Message(PlacedRecord, Cursor),
    // No more messages: the stream's answer, which is the number of its records where it is accepted.
    End(Result<usize, StreamRefusal>),
}
