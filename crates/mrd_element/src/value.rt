// What a field holds.
//
// Assumes nothing.

// What a header element holds.
#[derive(Clone, Copy)]
pub enum Value {
    // A whole number of 2, 4 or 8 bytes.
    Whole(u64),
    // A signed number.
    Signed(i32),
    // A float that is no NaN.
    Float(f32),
    // A NaN, by its bit pattern: an f32 is not promised to keep it.
    Nan(u32),
}
