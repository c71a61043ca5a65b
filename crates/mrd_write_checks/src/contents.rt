// What is given for one message, judged: check 3, checks 4 to 10 by what the kind has, and check 18
// by the lengths that are then due.
ghost use Rattle.std.specs.Prelude.{◌≡◌, length};
ghost use Rattle.mrd_format.specs.Kinds.{header_size};
ghost use Rattle.mrd_format.specs.Message.{own_checks, size_of};
ghost use Rattle.mrd_format.specs.Image.{header_checks};
ghost use Rattle.mrd_write_checks.specs.WriteChecks.{judged_meaning, given_size, due_lengths, same_lengths, judged};
ghost use Rattle.mrd_write_checks.specs.Sized.{sized_answer, sized_by, image_size, name_sized, text_sized};

use crate::lengths::Lengths;
use mrd_acquisition::AcquisitionHeader;
use mrd_format::size::{MAX_MESSAGE_SIZE, cap};
use mrd_format::{Kind, Refusal};
use mrd_image::ImageHeader;
use mrd_message::FixedPart;

// The size, id included, of the message of this kind with this header, this name and parts of the given
// lengths, or the first refusal, 14 left out.
pub fn judge(kind: Kind, header: &[u8], name: &[u8], given: Lengths) -> Result<usize, Refusal>
    ensures { judged_meaning result ≡ judged kind header.now name.now given }
{
    if header.len() != kind.header_size() {
        return Err(Refusal::FixedPartCut);
    }
    let size = checked_size(kind, header, name, given)?;
    if !as_due(kind, header, size, given) {
        return Err(Refusal::BodyLength);
    }
    Ok(size)
}

// The size of the message, or the first of checks 4 to 10 that refuses it. Each kind has an arm of its own, so that
// the compiler goes on from it to the kind's arm of as_due.
fn checked_size(kind: Kind, header: &[u8], name: &[u8], given: Lengths) -> Result<usize, Refusal>
    requires { length header.now ≡ header_size kind }
    ensures { judged_meaning result ≡ sized_answer kind header.now name.now given }
{
    match kind {
        Kind::ConfigurationName => checked_name(name),
        Kind::ConfigurationText => checked_text(given.text),
        Kind::HeaderText => checked_text(given.text),
        Kind::Close => Ok(Kind::ID_SIZE),
        Kind::Text => checked_text(given.text),
        Kind::Acquisition => checked_fixed(FixedPart {
            kind,
            bytes: header,
        }),
        Kind::Image => checked_image(ImageHeader { bytes: header }, given.attributes),
        Kind::Waveform(_) => checked_fixed(FixedPart {
            kind,
            bytes: header,
        }),
    }
}

// A name: at most 1,023 bytes, none of them zero.
fn checked_name(name: &[u8]) -> Result<usize, Refusal>
    ensures { judged_meaning result ≡ name_sized name.now }
{
    if Kind::NAME_FIXED <= name.len() {
        return Err(Refusal::Name);
    }
    if mrd_bytes::find(name, 0) < name.len() {
        return Err(Refusal::Name);
    }
    Ok(Kind::ID_SIZE + Kind::NAME_FIXED)
}

// A text of any of the three kinds: its message is within the limit.
fn checked_text(text: usize) -> Result<usize, Refusal>
    ensures { judged_meaning result ≡ text_sized text }
{
    let head = Kind::ID_SIZE + Kind::TEXT_FIXED;
    if MAX_MESSAGE_SIZE - (head as u64) < text as u64 {
        return Err(Refusal::TooLarge);
    }
    Ok(head + text)
}

// A message with this fixed part. It is a part of its kind's arm above.
#[inline(always)]
fn checked_fixed(fixed: FixedPart<'_>) -> Result<usize, Refusal>
    ensures { judged_meaning result ≡ sized_by (own_checks fixed.entry.kind fixed.entry.bytes.now) (size_of fixed.entry.kind fixed.entry.bytes.now) }
{
    fixed.check()?;
    let size = fixed.size();
    if MAX_MESSAGE_SIZE < size as u64 {
        return Err(Refusal::TooLarge);
    }
    Ok(size)
}

// An image with this header and so many bytes of attributes. What the header holds of their length is
// not looked at.
fn checked_image(header: ImageHeader<'_>, attributes: usize) -> Result<usize, Refusal>
    ensures { judged_meaning result ≡ sized_by (header_checks header.entry.bytes.now) (image_size header.entry.bytes.now attributes) }
{
    header.check()?;
    let head = (Kind::ID_SIZE + Kind::IMAGE_FIXED) as u64;
    let size = head + (cap(attributes as u64) + header.pixels_size());
    let too_large = MAX_MESSAGE_SIZE < size;
    if too_large {
        return Err(Refusal::TooLarge);
    }
    Ok(size as usize)
}

// Whether the parts of a message of this size have the lengths that they must have: what the header says,
// and none for a part that the kind lacks. Each kind compares for itself: seven lengths kept for one
// comparison after all arms would fill the registers.
fn as_due(kind: Kind, header: &[u8], size: usize, given: Lengths) -> bool
    requires { (length header.now ≡ header_size kind) × (size ≡ given_size kind header.now given) }
    ensures { result ≡ same_lengths given (due_lengths kind header.now given) }
{
    let mut due = Lengths::default();
    match kind {
        Kind::ConfigurationName => {
            due.name = given.name;
            given == due
        }
        Kind::ConfigurationText | Kind::HeaderText | Kind::Text => {
            due.text = given.text;
            given == due
        }
        Kind::Close => given == due,
        Kind::Acquisition => {
            due.trajectory = AcquisitionHeader { bytes: header }.trajectory_size();
            due.samples = size - (Kind::ID_SIZE + Kind::ACQUISITION_FIXED) - due.trajectory;
            given == due
        }
        Kind::Image => {
            due.attributes = given.attributes;
            due.pixels = size - (Kind::ID_SIZE + Kind::IMAGE_FIXED) - given.attributes;
            given == due
        }
        Kind::Waveform(layout) => {
            due.waveform = size - (Kind::ID_SIZE + layout.header_size());
            given == due
        }
    }
}
