// The part of a message that a byte belongs to. The parts adjoin, so a byte that is past one of them is in a later one.
//
// Assumes nothing.
ghost use Rattle.std.specs.Prelude.{◌≡◌, ◌<◌};
ghost use Rattle.mrd_logic.specs.Answer.{answered};
ghost use Rattle.mrd_parts.specs.Sought.{Sized};
ghost use Rattle.mrd_holding.specs.Held.{Past, part_holding, held_meaning, part_of, inner_of, told_as};

use mrd_acquisition::AcquisitionHeader;
use mrd_element::{ElementPlace, header_byte};
use mrd_format::Kind;
use mrd_image::ImageFixedPart;
use mrd_message::{FixedPart, NameBytes, TextCount};
use mrd_parts::{Extent, Part};
use mrd_waveform::WaveformHeader;

// A part of a message.
#[derive(Clone, Copy)]
pub enum MessagePart {
    Id,
    // A text's length, or the 8-byte length of an image's attributes.
    Length,
    // A fixed header, and the element of it that the byte belongs to; `None` for filler.
    Header(Option<ElementPlace>),
    // What follows a name in its 1,024 bytes, from its zero on.
    NameRest,
    // One that a view can show.
    Shown(Part),
}

// A part and where it lies in its message.
#[derive(Clone, Copy)]
pub struct HeldPart {
    pub part: MessagePart,
    pub extent: Extent,
}

fn held(part: MessagePart, offset: usize, size: usize) -> HeldPart
    ensures { held_meaning result ≡ told_as (part_of part) offset size (inner_of part) }
{
    HeldPart {
        part,
        extent: Extent { offset, size },
    }
}

// The part that holds byte `at`, counted from the id's, of a message with this fixed part, of this size in bytes.
#[tactic(auto, using(crate::specs::HeldLaws::in_header_lem), unfolding(crate::specs::Held::part_holding, mrd_format::specs::Message::size_of, mrd_format::specs::Message::body_size))]
pub fn part_holding(fixed: FixedPart, size: usize, at: usize) -> HeldPart
    requires { Sized fixed.kind fixed.bytes.now size × (at < size) }
    ensures { answered (held_meaning result) ≡ part_holding fixed.entry.kind fixed.entry.bytes.now at }
{
    if at < Kind::ID_SIZE {
        return held(MessagePart::Id, 0, Kind::ID_SIZE);
    }
    let header = fixed.kind.header_size();
    let offset = at - Kind::ID_SIZE;
    if offset < header {
        let element = header_byte(fixed.kind, offset);
        return held(MessagePart::Header(element), Kind::ID_SIZE, header);
    }
    let bytes = fixed.bytes;
    match fixed.kind {
        Kind::ConfigurationName => in_name(NameBytes { bytes }, size, at),
        Kind::ConfigurationText | Kind::HeaderText | Kind::Text => in_text(
            TextCount { bytes },
            size,
            at,
        ),
        // A close is an id alone.
        Kind::Close => held(MessagePart::Id, 0, Kind::ID_SIZE),
        Kind::Acquisition => in_acquisition(AcquisitionHeader { bytes }, size, at),
        Kind::Image => in_image(ImageFixedPart { bytes }, size, at),
        Kind::Waveform(layout) => in_waveform(WaveformHeader { layout, bytes }, size, at),
    }
}

// A name, and from its zero on what fills it up.
#[tactic(auto, using(crate::specs::HeldLaws::sizes), unfolding(crate::specs::Held::part_holding))]
fn in_name(name: NameBytes, size: usize, at: usize) -> HeldPart
    requires { Past Kind.ConfigurationName name.bytes.now size at }
    ensures { answered (held_meaning result) ≡ part_holding Kind.ConfigurationName name.entry.bytes.now at }
{
    let length = name.length();
    let zero = Kind::ID_SIZE + length;
    if at < zero {
        return held(MessagePart::Shown(Part::Name), Kind::ID_SIZE, length);
    }
    held(MessagePart::NameRest, zero, Kind::NAME_FIXED - length)
}

// A text, of any of its three kinds, follows its length.
#[tactic(auto, using(crate::specs::HeldLaws::sizes), unfolding(crate::specs::Held::part_holding))]
fn in_text(count: TextCount, size: usize, at: usize) -> HeldPart
    requires { Past Kind.Text count.bytes.now size at }
    ensures { answered (held_meaning result) ≡ part_holding Kind.Text count.entry.bytes.now at }
{
    let after = Kind::ID_SIZE + Kind::TEXT_FIXED;
    if at < after {
        return held(MessagePart::Length, Kind::ID_SIZE, Kind::TEXT_FIXED);
    }
    held(MessagePart::Shown(Part::Text), after, count.length())
}

// The channels, one after the other and of one length, follow the trajectory.
#[tactic(auto, unfolding(crate::specs::Held::part_holding))]
fn in_acquisition(header: AcquisitionHeader, size: usize, at: usize) -> HeldPart
    requires { Past Kind.Acquisition header.bytes.now size at }
    ensures { answered (held_meaning result) ≡ part_holding Kind.Acquisition header.entry.bytes.now at }
{
    let trajectory = header.trajectory_size();
    let after = Kind::ID_SIZE + Kind::ACQUISITION_FIXED;
    let first = after + trajectory;
    if at < first {
        return held(MessagePart::Shown(Part::Trajectory), after, trajectory);
    }
    let samples = header.channel_size();
    let c = (at - first) / samples;
    held(
        MessagePart::Shown(Part::Channel(c)),
        first + c * samples,
        samples,
    )
}

// The length of the attributes, the attributes, and then pixels to the end.
#[tactic(auto, using(crate::specs::HeldLaws::sizes), unfolding(crate::specs::Held::part_holding))]
fn in_image(fixed: ImageFixedPart, size: usize, at: usize) -> HeldPart
    requires { Past Kind.Image fixed.bytes.now size at }
    ensures { answered (held_meaning result) ≡ part_holding Kind.Image fixed.entry.bytes.now at }
{
    let counted = Kind::ID_SIZE + Kind::IMAGE_HEADER;
    let after = Kind::ID_SIZE + Kind::IMAGE_FIXED;
    if at < after {
        return held(MessagePart::Length, counted, after - counted);
    }
    let attributes = fixed.attribute_length() as usize;
    let pixels = after + attributes;
    if at < pixels {
        return held(MessagePart::Shown(Part::Attributes), after, attributes);
    }
    held(MessagePart::Shown(Part::Pixels), pixels, size - pixels)
}

// The waveform data are what is left after the header.
#[tactic(auto, using(crate::specs::HeldLaws::sizes), unfolding(crate::specs::Held::part_holding))]
fn in_waveform(header: WaveformHeader, size: usize, at: usize) -> HeldPart
    requires { Past (Kind.Waveform header.layout) header.bytes.now size at }
    ensures { answered (held_meaning result) ≡ part_holding (Kind.Waveform header.entry.layout) header.entry.bytes.now at }
{
    let after = Kind::ID_SIZE + header.layout.header_size();
    held(MessagePart::Shown(Part::Waveform), after, size - after)
}
