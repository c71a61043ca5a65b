// Numbers in bytes: two, four and eight bytes of a slice as a little-endian number, read and written.
//
// Each read asks that its bytes lie in the slice, and each write that they fit at the front of the
// part it is given; the callers, all proved, have tested the whole fixed part before. Assumes nothing.
//
// A read is std's `from_le_bytes` of its bytes, of which the compiler makes one load (`tests/reads/loads` looks at it).
#![tactic(auto)]

mod little;

ghost use Rattle.std.specs.Prelude.{◌≡◌, ◌≤◌, ◌++◌, length, drop, replicate};

pub use little::Little;

// Stores zeros in the first n bytes of out; the others keep their content.
pub fn put_zeros(out: &mut [u8], n: usize)
    requires { n ≤ length out.old }
    ensures { out.new ≡ replicate n 0 ++ drop n out.old }
{
    out[..n].fill(0);
}
