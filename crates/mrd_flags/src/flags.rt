// 'Flag n, 1 to 64, is bit n - 1 of the flags': test, set and clear, by shift and mask.
//
// Assumes nothing.
ghost use Rattle.std.specs.Prelude.{◌≡◌};
ghost use Rattle.mrd_flags.specs.Flags.{flag_test, flag_set, flag_clear};

// The flags number of flag n alone. Zero where n names no flag: then nothing is shifted.
#[tactic(auto, using(crate::specs::FlagLaws::shifted_mask), unfolding(crate::specs::Flags::flag_set))]
fn mask(n: u32) -> u64
    ensures { result ≡ flag_set n 0 }
{
    match n {
        1..=64 => 1 << (n - 1),
        _ => 0,
    }
}

// Whether flag n is set. False where n names no flag.
pub fn flag_test(flags: u64, n: u32) -> bool
    ensures { result ≡ flag_test n flags }
{
    flags & mask(n) != 0
}

// The flags with flag n set, the others as they were. Where n names no flag, the flags unchanged.
pub fn flag_set(flags: u64, n: u32) -> u64
    ensures { result ≡ flag_set n flags }
{
    flags | mask(n)
}

// The flags with flag n cleared, the others as they were. Where n names no flag, the flags
// unchanged.
pub fn flag_clear(flags: u64, n: u32) -> u64
    ensures { result ≡ flag_clear n flags }
{
    flags & !mask(n)
}
