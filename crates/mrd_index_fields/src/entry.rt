// The index's entry for one record, and the sizes of the fields.

// The bytes before the first entry: edition and stream length.
pub const FRONT: usize = 16;

// The bytes of one entry.
pub const ENTRY: usize = 17;

// The bytes after the last entry: the record count.
pub const END: usize = 7;

// Where the record starts, its id and its scan counter.
#[derive(Clone, Copy)]
pub struct Entry {
    pub start: u64,
    pub id: u16,
    pub counter: u32,
}
