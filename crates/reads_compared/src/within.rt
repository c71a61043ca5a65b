// A number read where its bytes lie in the slice, and 0 elsewhere, in either way.
ghost use Rattle.std.specs.Prelude.{◌≡◌, ◌+◌, leb};
ghost use Rattle.reads_compared.specs.Within.{num_within, read_width, xor_to};

use crate::reads::Reads;

// Whether `width` bytes from `at` on lie in a slice of this length. A sum of both could wrap.
fn lies(length: usize, at: usize, width: usize) -> bool
    ensures { result ≡ leb (at + width) length }
{
    width <= length && at <= length - width
}

pub fn read_u16<R: Reads>(s: &[u8], at: usize) -> u16
    ensures { result ≡ num_within 2 s.now at }
{
    if lies(s.len(), at, 2) {
        R::read_u16(s, at)
    } else {
        0
    }
}

pub fn read_u32<R: Reads>(s: &[u8], at: usize) -> u32
    ensures { result ≡ num_within 4 s.now at }
{
    if lies(s.len(), at, 4) {
        R::read_u32(s, at)
    } else {
        0
    }
}

pub fn read_u64<R: Reads>(s: &[u8], at: usize) -> u64
    ensures { result ≡ num_within 8 s.now at }
{
    if lies(s.len(), at, 8) {
        R::read_u64(s, at)
    } else {
        0
    }
}

// The number at a place, by its width, 8 bytes for any width but 2 and 4.
fn number<R: Reads>(s: &[u8], at: usize, width: usize) -> u64
    ensures { result ≡ num_within (read_width width) s.now at }
{
    match width {
        2 => read_u16::<R>(s, at) as u64,
        4 => read_u32::<R>(s, at) as u64,
        _ => read_u64::<R>(s, at),
    }
}

// The numbers at the first places, each read in the loop itself: 'exclusive or' of all of them.
pub fn xor<R: Reads>(s: &[u8], width: usize, places: usize) -> u64
    ensures { result ≡ xor_to (read_width width) s.now places }
{
    let mut x = 0;
    for at in 0..places {
        x ^= number::<R>(s, at, width);
    }
    x
}
