// The number reads of `mrd_numbers` beside those that they replaced, for C and Rust: a test compares both on
// the same bytes, and a benchmark times both. This is no part of the library.
//
// No exported function has a `requires`: any slice and any place get an answer. Assumes nothing.
#![tactic(auto)]

mod reads;
mod within;

ghost use Rattle.std.specs.Prelude.{◌≡◌};
ghost use Rattle.reads_compared.specs.Within.{num_within, read_width, xor_to};

use reads::{New, Old};

// The number of the two bytes from `at` on, as it was read before; 0 where they do not lie in s.
#[unsafe(no_mangle)]
pub extern "C" fn old_read_u16(s: &[u8], at: usize) -> u16
    ensures { result ≡ num_within 2 s.now at }
{
    within::read_u16::<Old>(s, at)
}

// The number of the four bytes from `at` on, as it was read before; 0 where they do not lie in s.
#[unsafe(no_mangle)]
pub extern "C" fn old_read_u32(s: &[u8], at: usize) -> u32
    ensures { result ≡ num_within 4 s.now at }
{
    within::read_u32::<Old>(s, at)
}

// The number of the eight bytes from `at` on, as it was read before; 0 where they do not lie in s.
#[unsafe(no_mangle)]
pub extern "C" fn old_read_u64(s: &[u8], at: usize) -> u64
    ensures { result ≡ num_within 8 s.now at }
{
    within::read_u64::<Old>(s, at)
}

// The number of the two bytes from `at` on, as it is read now; 0 where they do not lie in s.
#[unsafe(no_mangle)]
pub extern "C" fn new_read_u16(s: &[u8], at: usize) -> u16
    ensures { result ≡ num_within 2 s.now at }
{
    within::read_u16::<New>(s, at)
}

// The number of the four bytes from `at` on, as it is read now; 0 where they do not lie in s.
#[unsafe(no_mangle)]
pub extern "C" fn new_read_u32(s: &[u8], at: usize) -> u32
    ensures { result ≡ num_within 4 s.now at }
{
    within::read_u32::<New>(s, at)
}

// The number of the eight bytes from `at` on, as it is read now; 0 where they do not lie in s.
#[unsafe(no_mangle)]
pub extern "C" fn new_read_u64(s: &[u8], at: usize) -> u64
    ensures { result ≡ num_within 8 s.now at }
{
    within::read_u64::<New>(s, at)
}

// The numbers at the first places, each read in the loop itself: 'exclusive or' of all of them.
#[unsafe(no_mangle)]
pub extern "C" fn old_xor(s: &[u8], width: usize, places: usize) -> u64
    ensures { result ≡ xor_to (read_width width) s.now places }
{
    within::xor::<Old>(s, width, places)
}

// The numbers at the first places, each read in the loop itself: 'exclusive or' of all of them.
#[unsafe(no_mangle)]
pub extern "C" fn new_xor(s: &[u8], width: usize, places: usize) -> u64
    ensures { result ≡ xor_to (read_width width) s.now places }
{
    within::xor::<New>(s, width, places)
}
