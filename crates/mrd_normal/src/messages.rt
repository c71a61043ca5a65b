// The messages of a stream, each put in normal form at its own place in an output.
ghost use Rattle.std.specs.Prelude.{◌≡◌, ◌++◌, ◌+◌, ◌-◌, ◌≤◌, ◌<◌, ◌^◌, length, take, drop, replicate};
ghost use Rattle.mrd_numbers.specs.Little.{to_bytes};
ghost use Rattle.mrd_numbers.specs.Stored.{stored};
ghost use Rattle.mrd_format.specs.Kinds.{fixed_size};
ghost use Rattle.mrd_format.specs.Image.{layout, «attribute-string-len», attribute_length};
ghost use Rattle.mrd_format.specs.Waveform.{header_bytes, cleared};
ghost use Rattle.mrd_format.specs.Message.{name_length};
ghost use Rattle.mrd_format.specs.Content.{normal_of};
ghost use Rattle.mrd_stream.specs.Normal.{normal};
ghost use Rattle.mrd_normal.specs.MessageOf.{MessageOf};
ghost use Rattle.mrd_normal.specs.Putting.{Room};

use mrd_cursor::Cursor;
use mrd_format::{Kind, Layout, Rules};
use mrd_image::ImageFixedPart;
use mrd_judge::judge;
use mrd_message::{FixedPart, NameBytes};
use mrd_numbers::{Little, put_zeros};
use mrd_waveform::clear_filler;

// Puts the messages of the accepted stream s to the front of out: one walk, each message copied and then
// cleaned where it stands.
pub(crate) fn put_messages(rules: Rules, s: &[u8], out: &mut [u8])
    requires { Room rules s.now out.old }
    ensures { out.new ≡ normal rules s.now ++ drop (length s.now) out.old }
{
    let mut c = Cursor::beginning();
    while c.start < s.len() {
        let start = c.start;
        let Ok(whole) = judge(rules, c, &s[start..]) else {
            return;
        };
        let kind = whole.sort.kind(rules);
        let end = start + whole.size;
        put_message(kind, &s[start..end], &mut out[start..end]);
        c = c.after(kind, whole.size);
    }
}

// One message, to a place of its size.
fn put_message(kind: Kind, m: &[u8], out: &mut [u8])
    requires { MessageOf kind m.now × (length out.old ≡ length m.now) }
    ensures { out.new ≡ normal_of kind m.now }
{
    mrd_bytes::copy(m, out);
    let bytes = FixedPart::of(kind, m).bytes;
    match kind {
        Kind::ConfigurationName => fill_name(NameBytes { bytes }, out),
        Kind::Image => put_length(ImageFixedPart { bytes }, out),
        Kind::Waveform(layout) => clear_waveform(layout, out),
        _ => {}
    }
}

// Makes the bytes after a name zero, in its message out.
fn fill_name(name: NameBytes<'_>, out: &mut [u8])
    requires { length out.old ≡ 2 + fixed_size Kind.ConfigurationName }
    ensures { out.new ≡ stored (2 + name_length name.entry.bytes.now)
        (replicate (fixed_size Kind.ConfigurationName - name_length name.entry.bytes.now) 0) out.old }
{
    let length = name.length();
    let start = Kind::ID_SIZE + length;
    put_zeros(&mut out[start..], Kind::NAME_FIXED - length);
}

// Puts the attributes' length into the header of an image's message out with this fixed part.
fn put_length(image: ImageFixedPart<'_>, out: &mut [u8])
    requires { (2 + fixed_size Kind.Image ≤ length out.old) × (attribute_length image.bytes.now < 2 ^ 32) }
    ensures { out.new ≡ stored (2 + (layout «attribute-string-len»).offset)
        (to_bytes 4 (attribute_length image.entry.bytes.now)) out.old }
{
    let length = image.attribute_length();
    let start = Kind::ID_SIZE + Kind::ATTRIBUTE_STRING_LEN;
    (length as u32).put(&mut out[start..]);
}

// Makes the filler zero in the header of a waveform's message out.
fn clear_waveform(layout: Layout, out: &mut [u8])
    requires { 2 + header_bytes layout ≤ length out.old }
    ensures { out.new ≡ stored 2 (cleared layout (take (header_bytes layout) (drop 2 out.old))) out.old }
{
    clear_filler(layout, &mut out[Kind::ID_SIZE..]);
}
