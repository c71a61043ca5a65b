// The two ways of reading a number.
ghost use Rattle.std.specs.Prelude.{◌≡◌, ◌+◌, ◌≤◌, length};
ghost use Rattle.mrd_numbers.specs.Little.{num};

use mrd_numbers::Little;

// The numbers of the two, four and eight bytes from `at` on.
pub trait Reads {
    fn read_u16(s: &[u8], at: usize) -> u16
        requires { at + 2 ≤ length s.now }
        ensures { result ≡ num 2 s.now at };

    fn read_u32(s: &[u8], at: usize) -> u32
        requires { at + 4 ≤ length s.now }
        ensures { result ≡ num 4 s.now at };

    fn read_u64(s: &[u8], at: usize) -> u64
        requires { at + 8 ≤ length s.now }
        ensures { result ≡ num 8 s.now at };
}

// As it was before: two halves, put together by a product and a sum.
#[derive(Clone, Copy)]
pub struct Old;

impl Reads for Old {
    #[tactic(auto, using(mrd_numbers::specs::Laws::num_two))]
    fn read_u16(s: &[u8], at: usize) -> u16 {
        s[at] as u16 + s[at + 1] as u16 * 256
    }

    fn read_u32(s: &[u8], at: usize) -> u32 {
        Old::read_u16(s, at) as u32 + Old::read_u16(s, at + 2) as u32 * 65536
    }

    fn read_u64(s: &[u8], at: usize) -> u64 {
        Old::read_u32(s, at) as u64 + Old::read_u32(s, at + 4) as u64 * 4294967296
    }
}

// As it is now.
#[derive(Clone, Copy)]
pub struct New;

impl Reads for New {
    fn read_u16(s: &[u8], at: usize) -> u16 {
        u16::read(s, at)
    }

    fn read_u32(s: &[u8], at: usize) -> u32 {
        u32::read(s, at)
    }

    fn read_u64(s: &[u8], at: usize) -> u64 {
        u64::read(s, at)
    }
}
