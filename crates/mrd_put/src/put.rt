// What follows a message's id, put at the front of a part of the output, field by field: each field's
// writer gets the part from its own place on.
ghost use Rattle.std.specs.Prelude.{◌≡◌, ◌+◌, ◌-◌, ◌≤◌, ◌<◌, ◌^◌, ◌++◌, length, take, replicate};
ghost use Rattle.mrd_numbers.specs.Little.{to_bytes};
ghost use Rattle.mrd_numbers.specs.Stored.{front};
ghost use Rattle.mrd_format.specs.Kinds.{fixed_size, header_size};
ghost use Rattle.mrd_format.specs.Image as image;
ghost use Rattle.mrd_format.specs.Waveform.{header_bytes, cleared};
ghost use Rattle.mrd_format.specs.Content.{bytes_after_id};
ghost use Rattle.mrd_write_checks.specs.Given.{given_contents};
ghost use Rattle.mrd_put.specs.Room.{Roomy};

use mrd_format::{Kind, Layout};
use mrd_numbers::{Little, put_zeros};
use mrd_waveform::clear_filler;
use mrd_write_checks::Message;

// The bytes after the id, by kind.
pub fn put_content(kind: Kind, message: &Message<'_>, out: &mut [u8])
    requires { Roomy kind (given_contents message.now) out.old }
    ensures { out.new ≡ front (bytes_after_id kind (given_contents message.now)) out.old }
{
    match kind {
        Kind::ConfigurationName => put_name(message.name, out),
        Kind::ConfigurationText | Kind::HeaderText | Kind::Text => put_text(message.text, out),
        Kind::Close => {}
        Kind::Acquisition => {
            put_acquisition(message.header, message.trajectory, message.samples, out)
        }
        Kind::Image => put_image(message.header, message.attributes, message.pixels, out),
        Kind::Waveform(layout) => put_waveform(layout, message.header, message.waveform, out),
    }
}

// A name, filled up with zeros to its 1,024 bytes.
fn put_name(name: &[u8], out: &mut [u8])
    requires { (length name.now ≤ fixed_size Kind.ConfigurationName) × (fixed_size Kind.ConfigurationName ≤ length out.old) }
    ensures { out.new ≡ front (name.now ++ replicate (fixed_size Kind.ConfigurationName - length name.now) 0) out.old }
{
    let end = name.len();
    mrd_bytes::copy(name, &mut out[0..]);
    put_zeros(&mut out[end..], Kind::NAME_FIXED - end);
}

// A text after its length.
fn put_text(text: &[u8], out: &mut [u8])
    requires { (length text.now < 2 ^ 32) × (fixed_size Kind.Text + length text.now ≤ length out.old) }
    ensures { out.new ≡ front (to_bytes 4 (length text.now) ++ text.now) out.old }
{
    (text.len() as u32).put(&mut out[0..]);
    mrd_bytes::copy(text, &mut out[Kind::TEXT_FIXED..]);
}

// An acquisition's header, its trajectory and its samples.
fn put_acquisition(header: &[u8], trajectory: &[u8], samples: &[u8], out: &mut [u8])
    requires { length header.now + (length trajectory.now + length samples.now) ≤ length out.old }
    ensures { out.new ≡ front (header.now ++ (trajectory.now ++ samples.now)) out.old }
{
    let body = header.len();
    mrd_bytes::copy(header, &mut out[0..]);
    put_joined(trajectory, samples, &mut out[body..]);
}

// An image's fixed part, its attributes and its pixels.
fn put_image(header: &[u8], attributes: &[u8], pixels: &[u8], out: &mut [u8])
    requires { (length header.now ≡ header_size Kind.Image) × (length attributes.now < 2 ^ 32) ×
        (fixed_size Kind.Image + (length attributes.now + length pixels.now) ≤ length out.old) }
    ensures { out.new ≡ front
        (((take (image.layout image.«attribute-string-len»).offset header.now ++ to_bytes 4 (length attributes.now))
        ++ to_bytes 8 (length attributes.now)) ++ (attributes.now ++ pixels.now))
        out.old }
{
    put_image_header(header, attributes.len(), &mut out[0..]);
    put_joined(attributes, pixels, &mut out[Kind::IMAGE_FIXED..]);
}

// An image's header with the attributes' length in its last four bytes, whatever was given there, and in
// the eight after it.
fn put_image_header(header: &[u8], count: usize, out: &mut [u8])
    requires { (length header.now ≡ header_size Kind.Image) × (count < 2 ^ 32) × (fixed_size Kind.Image ≤ length out.old) }
    ensures { out.new ≡ front
        ((take (image.layout image.«attribute-string-len»).offset header.now ++ to_bytes 4 count) ++ to_bytes 8 count)
        out.old }
{
    let end = Kind::ATTRIBUTE_STRING_LEN;
    mrd_bytes::copy(&header[0..end], &mut out[0..]);
    (count as u32).put(&mut out[end..]);
    (count as u64).put(&mut out[Kind::IMAGE_HEADER..]);
}

// A waveform's header, with its filler zero, and its data.
fn put_waveform(layout: Layout, header: &[u8], waveform: &[u8], out: &mut [u8])
    requires { (length header.now ≡ header_bytes layout) × (length header.now + length waveform.now ≤ length out.old) }
    ensures { out.new ≡ front (cleared layout header.now ++ waveform.now) out.old }
{
    put_joined(header, waveform, &mut out[0..]);
    clear_filler(layout, &mut out[0..]);
}

// Two parts, one after the other.
fn put_joined(first: &[u8], second: &[u8], out: &mut [u8])
    requires { length first.now + length second.now ≤ length out.old }
    ensures { out.new ≡ front (first.now ++ second.now) out.old }
{
    let end = first.len();
    mrd_bytes::copy(first, &mut out[0..]);
    mrd_bytes::copy(second, &mut out[end..]);
}
