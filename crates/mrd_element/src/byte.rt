// Which element of a header a byte belongs to.
//
// Assumes nothing.
ghost use Rattle.std.specs.Prelude.{◌≡◌, ◌<◌};
ghost use Rattle.mrd_logic.specs.Answer.{answered};
ghost use Rattle.mrd_format.specs.Kinds.{header_size};
ghost use Rattle.mrd_element.specs.Pieces.{start_width, header_byte_of};
ghost use Rattle.mrd_element.specs.Element.{element_at};
ghost use Rattle.mrd_element.specs.Letters.{letter_width};

use crate::letters::{acquisition, image, waveform};
use mrd_format::Kind;

// Where an element stands: its first byte, counted from the header's, and its size.
#[derive(Clone, Copy)]
pub struct ElementPlace {
    pub offset: usize,
    pub size: usize,
}

// No element is wider.
const WIDEST: usize = 8;

// The bytes of the element that starts at an offset of a kind's header; none where no element starts. It goes by the
// kind itself and not by `letter`, so that this one is used in one place alone: the field question has its code there.
#[tactic(auto, using(crate::specs::PieceLaws::letter_width_lem), unfolding(crate::specs::Element::type_at))]
fn width_at(kind: Kind, offset: usize) -> usize
    ensures { result ≡ start_width (element_at kind offset) }
{
    match kind {
        Kind::Acquisition => width(acquisition(offset)),
        Kind::Image => width(image(offset)),
        Kind::Waveform(layout) => width(waveform(layout, offset)),
        _ => 0,
    }
}

// The bytes of an element with this letter; none for the dot.
#[tactic(auto, unfolding(crate::specs::Letters::letter_width))]
fn width(letter: u8) -> usize
    ensures { result ≡ letter_width letter }
{
    match letter {
        b'H' => 2,
        b'I' => 4,
        b'Q' => 8,
        b'i' => 4,
        b'f' => 4,
        _ => 0,
    }
}

// The element that this byte of a kind's header belongs to; `None` where the byte is filler, which carries nothing. An
// element that holds the byte starts there, or a few bytes before.
pub fn header_byte(kind: Kind, offset: usize) -> Option<ElementPlace>
    requires { offset < header_size kind }
    ensures { answered result ≡ header_byte_of kind offset }
{
    for back in 0..WIDEST {
        if offset < back {
            return None;
        }
        let start = offset - back;
        let size = width_at(kind, start);
        if back < size {
            return Some(ElementPlace {
                offset: start,
                size,
            });
        }
    }
    None
}
