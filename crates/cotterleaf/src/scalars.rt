// Flags and scan counters.
ghost use Rattle.std.specs.Prelude.{◌≡◌};
ghost use Rattle.mrd_counter_step.specs.Counters.{counter_step};
ghost use Rattle.mrd_flags.specs.Flags.{flag_test, flag_set, flag_clear};

// Whether flag n is set.
#[unsafe(no_mangle)]
pub extern "C" fn mrd_flag_test(flags: u64, n: u32) -> bool
    ensures { result ≡ flag_test n flags }
{
    mrd_flags::flag_test(flags, n)
}

// The flags with flag n set.
#[unsafe(no_mangle)]
pub extern "C" fn mrd_flag_set(flags: u64, n: u32) -> u64
    ensures { result ≡ flag_set n flags }
{
    mrd_flags::flag_set(flags, n)
}

// The flags with flag n cleared.
#[unsafe(no_mangle)]
pub extern "C" fn mrd_flag_clear(flags: u64, n: u32) -> u64
    ensures { result ≡ flag_clear n flags }
{
    mrd_flags::flag_clear(flags, n)
}

// Later minus earlier, taken around the 32-bit wrap and read as signed.
#[unsafe(no_mangle)]
pub extern "C" fn mrd_counter_step(earlier: u32, later: u32) -> i32
    ensures { result ≡ counter_step earlier later }
{
    mrd_counter_step::counter_step(earlier, later)
}
