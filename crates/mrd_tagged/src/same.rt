// The parts of a tagged field compared with the bytes of a slice from `at` on.
ghost use Rattle.std.specs.Prelude.{◌≡◌, ◌+◌, ◌≤◌, length, drop};
ghost use Rattle.mrd_logic.specs.Lists.{begins};
ghost use Rattle.mrd_numbers.specs.Little.{to_bytes};
ghost use Rattle.mrd_tagged.specs.Tagged.{heading};

use mrd_numbers::Little;

// Whether a field's tag and the length of its body stand there.
pub fn tag_same(s: &[u8], at: usize, tag: u8, size: u16) -> bool
    requires { at + 3 ≤ length s.now }
    ensures { result ≡ begins (heading tag size) (drop at s.now) }
{
    (s[at] == tag) & same_at(s, at + 1, size)
}

// Whether the bytes of v stand there.
pub fn same_at<N: Little>(s: &[u8], at: usize, v: N) -> bool
    requires { at + N.width ≤ length s.now }
    ensures { result ≡ begins (to_bytes N.width (N.value v)) (drop at s.now) }
{
    N::read(s, at).widen() == v.widen()
}
