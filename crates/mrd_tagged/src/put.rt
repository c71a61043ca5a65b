// The parts of a tagged field put into an output from `at` on; the other bytes keep their content.
ghost use Rattle.std.specs.Prelude.{◌≡◌, ◌+◌, ◌≤◌, length};
ghost use Rattle.mrd_numbers.specs.Little.{to_bytes};
ghost use Rattle.mrd_numbers.specs.Stored.{stored};
ghost use Rattle.mrd_tagged.specs.Tagged.{heading};

use mrd_numbers::Little;

// A field's tag and the length of its body.
pub fn put_tag(out: &mut [u8], at: usize, tag: u8, size: u16)
    requires { at + 3 ≤ length out.old }
    ensures { out.new ≡ stored at (heading tag size) out.old }
{
    out[at] = tag;
    put_at(out, at + 1, size);
}

// The bytes of v.
pub fn put_at<N: Little>(out: &mut [u8], at: usize, v: N)
    requires { at + N.width ≤ length out.old }
    ensures { out.new ≡ stored at (to_bytes N.width (N.value v)) out.old }
{
    v.put(&mut out[at..]);
}
