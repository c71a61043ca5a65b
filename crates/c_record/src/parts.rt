// The parts of a record by number.
ghost use Rattle.std.specs.Prelude.{◌≡◌};
ghost use Rattle.c_record.specs.PartNumbers.{part_numbered};

use mrd_parts::Part;

// A channel that no acquisition has.
const NO_CHANNEL: usize = 18446744073709551615;

// The part with this number, 1 to 7; of any other, one that no record has.
#[tactic(auto, unfolding(crate::specs::PartNumbers::part_numbered))]
pub fn part_of(number: u32, channel: usize) -> Part
    ensures { result ≡ part_numbered number channel }
{
    match number {
        1 => Part::Name,
        2 => Part::Text,
        3 => Part::Attributes,
        4 => Part::Trajectory,
        5 => Part::Channel(channel),
        6 => Part::Pixels,
        7 => Part::Waveform,
        _ => Part::Channel(NO_CHANNEL),
    }
}
