// The parts of a record that a view can show, and where each lies in its message.
ghost use Rattle.std.specs.Prelude.{◌≡◌, ◌+◌, ◌≤◌, length, take, drop};
ghost use Rattle.mrd_format.specs.Parts.{lies, extent};
ghost use Rattle.mrd_format.specs.Content.{extent_of};
ghost use Rattle.mrd_parts.specs.Sought.{part_meaning, sought_meaning, Sized};

use mrd_acquisition::AcquisitionHeader;
use mrd_format::Kind;
use mrd_image::ImageFixedPart;
use mrd_message::{FixedPart, NameBytes, TextCount};
use mrd_waveform::WaveformHeader;

#[derive(Clone, Copy)]
pub enum Part {
    Name,
    Text,
    Attributes,
    Trajectory,
    // One channel's samples, by the channel's number from 0.
    Channel(usize),
    Pixels,
    Waveform,
}

// Where a part lies in its message: its first byte, counted from the id's, and its size.
#[derive(Clone, Copy)]
pub struct Extent {
    pub offset: usize,
    pub size: usize,
}

fn lies(offset: usize, size: usize) -> Option<Extent>
    ensures { sought_meaning result ≡ lies (extent offset size) }
{
    Some(Extent { offset, size })
}

// Where a part lies in a message with this fixed part, of this size in bytes; `None` where the record has no such part
// or channel.
#[tactic(auto, unfolding(mrd_format::specs::Content::extent_of))]
pub fn locate(fixed: FixedPart, size: usize, part: Part) -> Option<Extent>
    requires { Sized fixed.kind fixed.bytes.now size }
    ensures { sought_meaning result ≡ extent_of (part_meaning part) fixed.entry.kind fixed.entry.bytes.now }
{
    let bytes = fixed.bytes;
    match fixed.kind {
        Kind::ConfigurationName => in_name(NameBytes { bytes }, part),
        Kind::ConfigurationText | Kind::HeaderText | Kind::Text => in_text(
            TextCount { bytes },
            part,
        ),
        Kind::Close => None,
        Kind::Acquisition => in_acquisition(AcquisitionHeader { bytes }, part),
        Kind::Image => in_image(ImageFixedPart { bytes }, size, part),
        Kind::Waveform(layout) => in_waveform(WaveformHeader { layout, bytes }, size, part),
    }
}

// A name is what stands before the first zero of the fixed part.
#[tactic(auto, unfolding(mrd_format::specs::Content::extent_of))]
fn in_name(name: NameBytes, part: Part) -> Option<Extent>
    ensures { sought_meaning result ≡ extent_of (part_meaning part) Kind.ConfigurationName name.entry.bytes.now }
{
    match part {
        Part::Name => lies(Kind::ID_SIZE, name.length()),
        _ => None,
    }
}

// A text, of any of its three kinds, is all that follows its length.
#[tactic(auto, unfolding(mrd_format::specs::Content::extent_of))]
fn in_text(count: TextCount, part: Part) -> Option<Extent>
    ensures { sought_meaning result ≡ extent_of (part_meaning part) Kind.Text count.entry.bytes.now }
{
    match part {
        Part::Text => lies(Kind::ID_SIZE + Kind::TEXT_FIXED, count.length()),
        _ => None,
    }
}

// The trajectory follows the header; the channels follow the trajectory.
#[tactic(auto, unfolding(mrd_format::specs::Content::extent_of))]
fn in_acquisition(header: AcquisitionHeader, part: Part) -> Option<Extent>
    ensures { sought_meaning result ≡ extent_of (part_meaning part) Kind.Acquisition header.entry.bytes.now }
{
    match part {
        Part::Trajectory => lies(
            Kind::ID_SIZE + Kind::ACQUISITION_FIXED,
            header.trajectory_size(),
        ),
        Part::Channel(c) => channel(header, c),
        _ => None,
    }
}

// The samples of channel c: the channels stand one after the other.
#[tactic(auto, unfolding(mrd_format::specs::Content::extent_of))]
fn channel(header: AcquisitionHeader, c: usize) -> Option<Extent>
    ensures { sought_meaning result ≡ extent_of (part_meaning (Part.Channel c)) Kind.Acquisition header.entry.bytes.now }
{
    if header.active_channels() <= c {
        return None;
    }
    let samples = header.channel_size();
    let first = Kind::ID_SIZE + Kind::ACQUISITION_FIXED + header.trajectory_size();
    lies(first + c * samples, samples)
}

// The attributes follow the fixed part; the pixels are what is left after them.
#[tactic(auto, using(crate::specs::PartLaws::image_rest, crate::specs::PartLaws::image_pixels), unfolding(mrd_format::specs::Content::extent_of))]
fn in_image(fixed: ImageFixedPart, size: usize, part: Part) -> Option<Extent>
    requires { Sized Kind.Image fixed.bytes.now size }
    ensures { sought_meaning result ≡ extent_of (part_meaning part) Kind.Image fixed.entry.bytes.now }
{
    let attributes = fixed.attribute_length() as usize;
    let after = Kind::ID_SIZE + Kind::IMAGE_FIXED;
    match part {
        Part::Attributes => lies(after, attributes),
        Part::Pixels => lies(after + attributes, size - after - attributes),
        _ => None,
    }
}

// The waveform data are what is left after the header.
#[tactic(auto, using(crate::specs::PartLaws::waveform_data), unfolding(mrd_format::specs::Content::extent_of))]
fn in_waveform(header: WaveformHeader, size: usize, part: Part) -> Option<Extent>
    requires { Sized (Kind.Waveform header.layout) header.bytes.now size }
    ensures { sought_meaning result ≡ extent_of (part_meaning part) (Kind.Waveform header.entry.layout) header.entry.bytes.now }
{
    let after = Kind::ID_SIZE + header.layout.header_size();
    match part {
        Part::Waveform => lies(after, size - after),
        _ => None,
    }
}

// The bytes of s from start on, as many as size.
pub fn spanned(s: &[u8], start: usize, size: usize) -> &[u8]
    requires { start + size ≤ length s.now }
    ensures result_value { result.now ≡ take size (drop start s.now) }
    ensures ref_ptr_value { (result.ref_ptr.0 ≡ s.entry.ref_ptr.0) × (result.ref_ptr.1 ≡ s.entry.ref_ptr.1 + start) }
{
    let end = start + size;
    &s[start..end]
}
