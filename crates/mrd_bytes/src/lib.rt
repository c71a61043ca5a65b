// Bytes copied to the front of others, and the place of a byte.
//
// Assumes nothing.
#![tactic(auto)]

ghost use Rattle.std.specs.Prelude.{◌≡◌, ◌≤◌, ◌++◌, length, take, drop};
ghost use Rattle.mrd_bytes.specs.Bytes.{index_of};

// Copies src to the front of out; the bytes after it stay.
pub fn copy(src: &[u8], out: &mut [u8])
    requires { length src.now ≤ length out.old }
    ensures { (length out.new ≡ length out.old) × (out.new ≡ take (length src.now) src.now ++ drop (length src.now) out.old) }
{
    out[..src.len()].copy_from_slice(src);
}

// The place of the first byte b in s, or the length of s where there is none.
pub fn find(s: &[u8], b: u8) -> usize
    ensures { (result ≡ index_of b s.now) × (result ≤ length s.now) }
{
    s.iter().position(|&x| x == b).unwrap_or(s.len())
}
