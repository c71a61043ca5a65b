// The parts that a view can show, by number: what c_record::part_of takes.
ghost use Rattle.std.specs.Prelude.{◌≡◌};
ghost use Rattle.mrd_format.specs.Parts.{channel_of};
ghost use Rattle.mrd_parts.specs.Sought.{part_meaning};
ghost use Rattle.c_part_at.specs.PartStruct.{part_number};

use mrd_parts::Part;

pub(crate) fn number_of(part: Part) -> u32
    ensures { result ≡ part_number (part_meaning part) }
{
    match part {
        Part::Name => 1,
        Part::Text => 2,
        Part::Attributes => 3,
        Part::Trajectory => 4,
        Part::Channel(_) => 5,
        Part::Pixels => 6,
        Part::Waveform => 7,
    }
}

// The number of the channel; 0 for any other part.
pub(crate) fn channel_of(part: Part) -> usize
    ensures { result ≡ channel_of (part_meaning part) }
{
    match part {
        Part::Channel(c) => c,
        _ => 0,
    }
}
