// The fixed part of one message: the checks of its own bytes, its message's size, and its kind with that kind's own
// numbers.
ghost use Rattle.std.specs.Prelude.{◌≡◌, ◌+◌, ◌<◌, ◌≤◌, ◌^◌, length};
ghost use Rattle.mrd_format.specs.Kinds.{fixed_size};
ghost use Rattle.mrd_format.specs.Refusals.{number_in};
ghost use Rattle.mrd_logic.specs.Checks.{first};
ghost use Rattle.mrd_format.specs.Message.{fixed_part, own_checks, body_size, size_of, numbers_of};
ghost use Rattle.mrd_format.specs.Content.{counter_of, uid_of};
ghost use Rattle.mrd_format.specs.Sizes.{capped};
ghost use Rattle.mrd_format.specs.Shapes.{kind_of, shape_numbers};

use crate::text::{NameBytes, TextCount};
use mrd_acquisition::AcquisitionHeader;
use mrd_format::size::cap;
use mrd_format::{Kind, Refusal, Shape, TextShape};
use mrd_image::ImageFixedPart;
use mrd_waveform::WaveformHeader;

// The fixed part of a message, and its kind.
#[derive(Clone, Copy)]
pub struct FixedPart<'a> {
    pub kind: Kind,
    pub bytes: &'a [u8],
    pub ghost long: { length bytes.now ≡ fixed_size kind },
}

impl<'a> FixedPart<'a> {
    // That of the message of this kind at the front of t.
    pub fn of(kind: Kind, t: &'a [u8]) -> FixedPart<'a>
        requires { 2 + fixed_size kind ≤ length t.now }
        ensures kind { result.kind ≡ kind }
        ensures bytes { result.bytes.now ≡ fixed_part kind t.now }
    {
        let end = Kind::ID_SIZE + kind.fixed_size();
        FixedPart {
            kind,
            bytes: &t[Kind::ID_SIZE..end],
        }
    }

    // Checks 4 to 9: the first that refuses it decides.
    #[tactic(auto, unfolding(mrd_format::specs::Message::own_checks))]
    pub fn check(self) -> Result<(), Refusal>
        ensures { number_in result ≡ first (own_checks self.entry.kind self.entry.bytes.now) }
    {
        let bytes = self.bytes;
        match self.kind {
            Kind::ConfigurationName => NameBytes { bytes }.check(),
            Kind::Acquisition => AcquisitionHeader { bytes }.check(),
            Kind::Image => ImageFixedPart { bytes }.check(),
            Kind::Waveform(layout) => WaveformHeader { layout, bytes }.check(),
            _ => Ok(()),
        }
    }

    // The size of the whole message, id included, or one more than the limit where it is above it.
    pub fn size(self) -> usize
        ensures { result ≡ capped (size_of self.entry.kind self.entry.bytes.now) }
    {
        let all = Kind::ID_SIZE + self.kind.fixed_size() + self.body_size();
        cap(all as u64) as usize
    }

    // The bytes after the fixed part, where they are within the limit, and some number above it where
    // they are not.
    #[tactic(auto, unfolding(mrd_format::specs::Message::body_size, mrd_format::specs::Acquisition::body_size, mrd_format::specs::Image::body_size))]
    fn body_size(self) -> usize
        ensures { (capped result ≡ capped (body_size self.entry.kind self.entry.bytes.now)) × (result < 2 ^ 40) }
    {
        let bytes = self.bytes;
        match self.kind {
            Kind::ConfigurationName | Kind::Close => 0,
            Kind::ConfigurationText | Kind::HeaderText | Kind::Text => TextCount { bytes }.length(),
            Kind::Acquisition => AcquisitionHeader { bytes }.body_size(),
            Kind::Image => ImageFixedPart { bytes }.body_size(),
            Kind::Waveform(layout) => WaveformHeader { layout, bytes }.body_size(),
        }
    }

    // The kind with its own numbers.
    #[tactic(auto, unfolding(mrd_format::specs::Message::numbers_of))]
    pub fn shape(self) -> Shape
        ensures { (kind_of result ≡ self.entry.kind) × (shape_numbers result ≡ numbers_of self.entry.kind self.entry.bytes.now) }
    {
        let bytes = self.bytes;
        match self.kind {
            Kind::ConfigurationName => Shape::ConfigurationName(TextShape {
                length: NameBytes { bytes }.length(),
            }),
            Kind::ConfigurationText => Shape::ConfigurationText(TextShape {
                length: TextCount { bytes }.length(),
            }),
            Kind::HeaderText => Shape::HeaderText(TextShape {
                length: TextCount { bytes }.length(),
            }),
            Kind::Close => Shape::Close,
            Kind::Text => Shape::Text(TextShape {
                length: TextCount { bytes }.length(),
            }),
            Kind::Acquisition => Shape::Acquisition(AcquisitionHeader { bytes }.shape()),
            Kind::Image => Shape::Image(ImageFixedPart { bytes }.shape()),
            Kind::Waveform(layout) => Shape::Waveform(WaveformHeader { layout, bytes }.shape()),
        }
    }

    // The scan counter; 0 where the kind has none.
    #[tactic(auto, unfolding(mrd_format::specs::Content::counter_of))]
    pub fn scan_counter(self) -> u32
        ensures { result ≡ counter_of self.entry.kind self.entry.bytes.now }
    {
        let bytes = self.bytes;
        match self.kind {
            Kind::Acquisition => AcquisitionHeader { bytes }.scan_counter(),
            Kind::Waveform(layout) => WaveformHeader { layout, bytes }.scan_counter(),
            _ => 0,
        }
    }

    // The measurement uid; 0 where the kind has none.
    #[tactic(auto, unfolding(mrd_format::specs::Content::uid_of))]
    pub fn measurement_uid(self) -> u32
        ensures { result ≡ uid_of self.entry.kind self.entry.bytes.now }
    {
        let bytes = self.bytes;
        match self.kind {
            Kind::Acquisition => AcquisitionHeader { bytes }.measurement_uid(),
            Kind::Image => ImageFixedPart { bytes }.measurement_uid(),
            Kind::Waveform(layout) => WaveformHeader { layout, bytes }.measurement_uid(),
            _ => 0,
        }
    }
}
