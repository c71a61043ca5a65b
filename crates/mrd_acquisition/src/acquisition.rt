// The acquisition header: the checks that it must pass, the sizes and numbers that it gives, and what its channel
// mask says. Offsets count from the header's first byte.
ghost use Rattle.std.specs.Prelude.{◌≡◌, ◌<◌, ◌^◌, length, get_or};
ghost use Rattle.mrd_logic.specs.Checks.{first};
ghost use Rattle.mrd_format.specs.Elements.{elements};
ghost use Rattle.mrd_format.specs.Kinds.{fixed_size};
ghost use Rattle.mrd_format.specs.Refusals.{number_in};
ghost use Rattle.mrd_format.specs.declared.kind.Kind.«TheVariants».{Acquisition};
ghost use Rattle.mrd_format.specs.Acquisition.{layout, get, checks, channels_exceed, discards_exceed, trajectory_size, channel_size, body_size, ones_of, mask_answer, numbers};
ghost use Rattle.mrd_format.specs.Acquisition.{«channel-mask», «active-channels», «scan-counter», «measurement-uid», counters, counters_of};
ghost use Rattle.mrd_format.specs.Shapes.{acquisition_numbers};

use mrd_format::size::product;
use mrd_format::{AcquisitionShape, Mask, Refusal};
use mrd_numbers::Little;

const VERSION: usize = 0;

const MEASUREMENT_UID: usize = 10;

const SCAN_COUNTER: usize = 14;

const NUMBER_OF_SAMPLES: usize = 34;

const AVAILABLE_CHANNELS: usize = 36;

const ACTIVE_CHANNELS: usize = 38;

const CHANNEL_MASK: usize = 40;

const MASK_WORDS: usize = 16;

const DISCARD_PRE: usize = 168;

const DISCARD_POST: usize = 170;

const TRAJECTORY_DIMENSIONS: usize = 176;

const COUNTERS: usize = 242;

// How many counters the header has.
pub const COUNTER_COUNT: usize = 17;

// An acquisition's header: its 340 bytes.
#[derive(Clone, Copy)]
pub struct AcquisitionHeader<'a> {
    pub bytes: &'a [u8],
    pub ghost long: { length bytes.now ≡ fixed_size Acquisition },
}

impl AcquisitionHeader<'_> {
    // Checks 4, 6 and 7 of the header: the first that refuses it decides.
    #[tactic(auto, unfolding(mrd_format::specs::Acquisition::checks))]
    pub fn check(self) -> Result<(), Refusal>
        ensures { number_in result ≡ first (checks self.entry.bytes.now) }
    {
        if u16::read(self.bytes, VERSION) != 1 {
            return Err(Refusal::Version);
        }
        if self.channels_exceed() {
            return Err(Refusal::Channels);
        }
        if self.discards_exceed() {
            return Err(Refusal::Discard);
        }
        Ok(())
    }

    // Whether more channels are active than available.
    fn channels_exceed(self) -> bool
        ensures { result ≡ channels_exceed self.entry.bytes.now }
    {
        u16::read(self.bytes, AVAILABLE_CHANNELS) < u16::read(self.bytes, ACTIVE_CHANNELS)
    }

    // Whether more samples are discarded than there are.
    fn discards_exceed(self) -> bool
        ensures { result ≡ discards_exceed self.entry.bytes.now }
    {
        let discarded = (u16::read(self.bytes, DISCARD_PRE) as u32)
            + (u16::read(self.bytes, DISCARD_POST) as u32);
        (u16::read(self.bytes, NUMBER_OF_SAMPLES) as u32) < discarded
    }

    // The bytes of the trajectory.
    pub fn trajectory_size(self) -> usize
        ensures { (result ≡ trajectory_size self.entry.bytes.now) × (result < 2 ^ 34) }
    {
        let samples = u16::read(self.bytes, NUMBER_OF_SAMPLES);
        (product(samples, u16::read(self.bytes, TRAJECTORY_DIMENSIONS)) * 4) as usize
    }

    // The bytes of one channel's samples.
    pub fn channel_size(self) -> usize
        ensures { (result ≡ channel_size self.entry.bytes.now) × (result < 2 ^ 19) }
    {
        (u16::read(self.bytes, NUMBER_OF_SAMPLES) as usize) * 8
    }

    // How many channels have samples.
    pub fn active_channels(self) -> usize
        ensures { (result ≡ get «active-channels» self.entry.bytes.now) × (result < 2 ^ 16) }
    {
        u16::read(self.bytes, ACTIVE_CHANNELS) as usize
    }

    // The bytes after the header: the trajectory and every channel's samples.
    pub fn body_size(self) -> usize
        ensures { (result ≡ body_size self.entry.bytes.now) × (result < 2 ^ 40) }
    {
        let samples = u16::read(self.bytes, NUMBER_OF_SAMPLES);
        let channels = product(u16::read(self.bytes, ACTIVE_CHANNELS), samples) * 8;
        self.trajectory_size() + channels as usize
    }

    // What the channel mask says; only zero has no ones.
    fn mask(self) -> Mask
        ensures { result ≡ mask_answer self.entry.bytes.now }
    {
        let ones = self.mask_ones();
        if ones == 0 {
            return Mask::NotStated;
        }
        if ones == u16::read(self.bytes, ACTIVE_CHANNELS) {
            return Mask::Agrees(ones);
        }
        Mask::Differs(ones)
    }

    // The ones in the sixteen words of the channel mask, at most 1,024.
    fn mask_ones(self) -> u16
        ensures { result ≡ ones_of (elements (layout «channel-mask») self.entry.bytes.now) }
    {
        let mut ones: u32 = 0;
        for i in 0..MASK_WORDS {
            ones += u64::read(self.bytes, CHANNEL_MASK + i * 8).count_ones();
        }
        ones as u16
    }

    // The header's own numbers, and what its mask says.
    pub fn shape(self) -> AcquisitionShape
        ensures { acquisition_numbers result ≡ numbers self.entry.bytes.now }
    {
        AcquisitionShape {
            number_of_samples: u16::read(self.bytes, NUMBER_OF_SAMPLES),
            active_channels: u16::read(self.bytes, ACTIVE_CHANNELS),
            trajectory_dimensions: u16::read(self.bytes, TRAJECTORY_DIMENSIONS),
            mask: self.mask(),
        }
    }

    // The scan counter.
    pub fn scan_counter(self) -> u32
        ensures { result ≡ get «scan-counter» self.entry.bytes.now }
    {
        u32::read(self.bytes, SCAN_COUNTER)
    }

    // The measurement uid.
    pub fn measurement_uid(self) -> u32
        ensures { result ≡ get «measurement-uid» self.entry.bytes.now }
    {
        u32::read(self.bytes, MEASUREMENT_UID)
    }

    // Counter i of the seventeen.
    pub fn encoding_counter(self, i: usize) -> u16
        requires { i < (layout counters).count }
        ensures { result ≡ get_or (counters_of self.entry.bytes.now) i 0 }
    {
        u16::read(self.bytes, COUNTERS + i * 2)
    }
}
