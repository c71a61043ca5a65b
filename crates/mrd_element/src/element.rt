// 'A field comes back as a whole number, a signed number or a 32-bit float, whichever the header
// list gives.'
//
// Assumes nothing.
ghost use Rattle.mrd_element.specs.Element.{element_of, float};
ghost use Rattle.mrd_element.specs.ValueMeaning.{TellsValue, TellsElement};

use crate::letters::letter;
use crate::value::Value;
use mrd_counter_step::as_signed;
use mrd_message::FixedPart;
use mrd_numbers::Little;

// 32 bits as a float; where they are a NaN's, as its bit pattern.
fn float_of(bits: u32) -> Value
    ensures { TellsValue result (float bits) }
{
    let nan = 0x7f80_0000 < bits % 0x8000_0000;
    if nan {
        return Value::Nan(bits);
    }
    Value::Float(f32::from_bits(bits))
}

// The header element that starts at an offset of a message's fixed part, read as the header list gives
// it. `None`, for refusal 20, where none starts there or the kind has no header.
pub fn read_element(fixed: FixedPart, offset: usize) -> Option<Value>
    ensures { TellsElement result (element_of fixed.entry.kind fixed.entry.bytes.now offset) }
{
    let bytes = fixed.bytes;
    match letter(fixed.kind, offset) {
        b'H' => Some(Value::Whole(u16::read(bytes, offset) as u64)),
        b'I' => Some(Value::Whole(u32::read(bytes, offset) as u64)),
        b'Q' => Some(Value::Whole(u64::read(bytes, offset))),
        b'i' => Some(Value::Signed(as_signed(u32::read(bytes, offset)))),
        b'f' => Some(float_of(u32::read(bytes, offset))),
        _ => None,
    }
}
