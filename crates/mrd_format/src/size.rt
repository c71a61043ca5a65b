// Arithmetic on sizes that cannot wrap.
ghost use Rattle.std.specs.Prelude.{◌≡◌, ◌*◌, ◌<◌, ◌^◌};
ghost use Rattle.mrd_format.specs.Sizes.{capped};

// The largest message, in bytes.
pub const MAX_MESSAGE_SIZE: u64 = 268435456;

// n, or one more than the limit where n is above it.
pub fn cap(n: u64) -> u64
    ensures { result ≡ capped n }
{
    n.min(MAX_MESSAGE_SIZE + 1)
}

// The whole product of two numbers of a header.
pub fn product(a: u16, b: u16) -> u64
    ensures { (result ≡ a * b) × (result < 2 ^ 32) }
{
    (a as u64) * (b as u64)
}
