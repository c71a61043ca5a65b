// Numbers of two, four and eight bytes, the least significant byte first.
ghost use Rattle.std.specs.Prelude.{◌≡◌, ℕ, ◌+◌, ◌≤◌, ◌<◌, ◌^◌, ◌++◌, length, drop};
ghost use Rattle.mrd_numbers.specs.Little.{num, to_bytes};

// A number that has so many bytes.
pub trait Little: Copy {
    ghost width: { ℕ };

    ghost value: { Self → ℕ };

    // The number of the bytes from `at` on.
    fn read(s: &[u8], at: usize) -> Self
        requires { at + width ≤ length s.now }
        ensures { value result ≡ num width s.now at };

    // Stores the number in the first bytes of out; the others keep their content.
    fn put(self, out: &mut [u8])
        requires { width ≤ length out.old }
        ensures { out.new ≡ to_bytes width (value self) ++ drop width out.old };

    // The same number in eight bytes.
    fn widen(self) -> u64
        ensures value { result ≡ value self }
        ensures fits { value self < 256 ^ width };
}

impl Little for u16 {
    ghost width = { 2 };

    ghost value = { λ n. n };

    #[tactic(auto, using(crate::specs::Laws::num_two))]
    fn read(s: &[u8], at: usize) -> u16 {
        u16::from_le_bytes([s[at], s[at + 1]])
    }

    fn put(self, out: &mut [u8]) {
        out[..2].copy_from_slice(&self.to_le_bytes());
    }

    fn widen(self) -> u64 {
        self as u64
    }
}

impl Little for u32 {
    ghost width = { 4 };

    ghost value = { λ n. n };

    #[tactic(auto, using(crate::specs::Laws::num_four))]
    fn read(s: &[u8], at: usize) -> u32 {
        u32::from_le_bytes([s[at], s[at + 1], s[at + 2], s[at + 3]])
    }

    fn put(self, out: &mut [u8]) {
        out[..4].copy_from_slice(&self.to_le_bytes());
    }

    fn widen(self) -> u64 {
        self as u64
    }
}

impl Little for u64 {
    ghost width = { 8 };

    ghost value = { λ n. n };

    #[tactic(auto, using(crate::specs::Laws::num_eight))]
    fn read(s: &[u8], at: usize) -> u64 {
        u64::from_le_bytes([
            s[at],
            s[at + 1],
            s[at + 2],
            s[at + 3],
            s[at + 4],
            s[at + 5],
            s[at + 6],
            s[at + 7],
        ])
    }

    fn put(self, out: &mut [u8]) {
        out[..8].copy_from_slice(&self.to_le_bytes());
    }

    fn widen(self) -> u64 {
        self
    }
}
