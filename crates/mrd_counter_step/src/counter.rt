// The step between two scan counters, and the signed reading of 32 bits that it needs.
//
// Assumes nothing.
ghost use Rattle.std.specs.Prelude.{◌≡◌};
ghost use Rattle.mrd_counter_step.specs.Counters.{signed, counter_step};

// 32 bits read as a signed number, in two's complement.
#[tactic(auto, using(crate::specs::SignedLaws::to_z_signed))]
pub fn as_signed(bits: u32) -> i32
    ensures { result ≡ signed bits }
{
    bits.cast_signed()
}

// Later minus earlier, taken around the 32-bit wrap and read as signed: 1 is next, above 1 is a gap
// of one less, 0 a repeat, below 0 a step back.
#[tactic(auto, unfolding(crate::specs::Counters::counter_step))]
pub fn counter_step(earlier: u32, later: u32) -> i32
    ensures { result ≡ counter_step earlier later }
{
    as_signed(later.wrapping_sub(earlier))
}
