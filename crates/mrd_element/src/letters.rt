// The header lists in short: for each stretch of a header the letter of the elements that fill it. `H`, `I`
// and `Q` are whole numbers of 2, 4 and 8 bytes, `i` is a signed number and `f` a float of 4 bytes; a dot
// says that no element starts there.
//
// The lists are code and no array: an array that a function indexes is laid out on the stack at each call.
// Assumes nothing.
ghost use Rattle.std.specs.Prelude.{◌≡◌, ◌≤◌, ◌<◌};
ghost use Rattle.mrd_format.specs.declared.kind.Kind.«TheVariants».{Acquisition, Image, Waveform};
ghost use Rattle.mrd_element.specs.Element.{element_at};
ghost use Rattle.mrd_element.specs.Letters.{letter_of, letter_among};

use mrd_format::{Kind, Layout};

// The letter at an offset among elements of one width, from the first one's offset on, and a dot where none
// of them starts.
#[tactic(auto, unfolding(crate::specs::Letters::letter_among))]
fn among(first: usize, width: usize, letter: u8, offset: usize) -> u8
    requires { (0 < width) × (first ≤ offset) }
    ensures { result ≡ letter_among first width letter offset }
{
    if (offset - first) % width == 0 {
        return letter;
    }
    b'.'
}

// The letter at an offset of an acquisition's header, and a dot past its end.
pub(crate) fn acquisition(offset: usize) -> u8
    ensures { result ≡ letter_of (element_at Acquisition offset) }
{
    match offset {
        0..=1 => among(0, 2, b'H', offset),
        2..=9 => among(2, 8, b'Q', offset),
        10..=33 => among(10, 4, b'I', offset),
        34..=39 => among(34, 2, b'H', offset),
        40..=167 => among(40, 8, b'Q', offset),
        168..=177 => among(168, 2, b'H', offset),
        178..=241 => among(178, 4, b'f', offset),
        242..=275 => among(242, 2, b'H', offset),
        276..=307 => among(276, 4, b'i', offset),
        308..=339 => among(308, 4, b'f', offset),
        _ => b'.',
    }
}

// The letter at an offset of an image's header, and a dot past its end.
pub(crate) fn image(offset: usize) -> u8
    ensures { result ≡ letter_of (element_at Image offset) }
{
    match offset {
        0..=3 => among(0, 2, b'H', offset),
        4..=11 => among(4, 8, b'Q', offset),
        12..=15 => among(12, 4, b'I', offset),
        16..=21 => among(16, 2, b'H', offset),
        22..=33 => among(22, 4, b'f', offset),
        34..=35 => among(34, 2, b'H', offset),
        36..=95 => among(36, 4, b'f', offset),
        96..=107 => among(96, 2, b'H', offset),
        108..=123 => among(108, 4, b'I', offset),
        124..=129 => among(124, 2, b'H', offset),
        130..=161 => among(130, 4, b'i', offset),
        162..=193 => among(162, 4, b'f', offset),
        194..=197 => among(194, 4, b'I', offset),
        _ => b'.',
    }
}

// The letter at an offset of a waveform's header in this layout, and a dot in its filler and past its end.
#[tactic(auto, using(mrd_format::proofs::WaveformLaws::offset_in_lem), unfolding(crate::specs::Element::type_at))]
pub(crate) fn waveform(layout: Layout, offset: usize) -> u8
    ensures { result ≡ letter_of (element_at (Waveform layout) offset) }
{
    let at = layout.offsets();
    if offset == at.version {
        return b'H';
    }
    if offset == at.flags {
        return b'Q';
    }
    if offset == at.measurement_uid {
        return b'I';
    }
    if offset == at.scan_counter {
        return b'I';
    }
    if offset == at.time_stamp {
        return b'I';
    }
    if offset == at.number_of_samples {
        return b'H';
    }
    if offset == at.channels {
        return b'H';
    }
    if offset == at.sample_time_us {
        return b'f';
    }
    if offset == at.waveform_id {
        return b'H';
    }
    b'.'
}

// The letter at an offset of a kind's header, and a dot where the kind has no header.
#[tactic(auto, unfolding(crate::specs::Element::type_at))]
pub fn letter(kind: Kind, offset: usize) -> u8
    ensures { result ≡ letter_of (element_at kind offset) }
{
    match kind {
        Kind::Acquisition => acquisition(offset),
        Kind::Image => image(offset),
        Kind::Waveform(layout) => waveform(layout, offset),
        _ => b'.',
    }
}
