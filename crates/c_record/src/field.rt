// A header element as a C struct.
ghost use Rattle.std.specs.Prelude.{◌≡◌, T};
ghost use Rattle.mrd_element.specs.ValueMeaning.{value_meaning, nan_apart};
ghost use Rattle.mrd_fields.specs.Fields.{field_meaning, field_apart};
ghost use Rattle.c_record.specs.RecordStructs.{refused_field, c_value, c_field};

use mrd_element::Value;
use mrd_stream::Refused;

// A header element: its type, 1 whole, 2 signed or 3 float, and its value in the member for that type.
#[repr(C)]
#[derive(Clone, Copy)]
pub struct FieldAnswer {
    pub refusal: u32,
    pub record: usize,
    pub byte: usize,
    pub value_type: u32,
    pub whole: u64,
    pub integer: i32,
    pub float_bits: u32,
}

const WHOLE: u32 = 1;

const SIGNED: u32 = 2;

const FLOAT: u32 = 3;

impl FieldAnswer {
    // An answer without a value.
    pub fn refused(number: u8, record: usize, byte: usize) -> FieldAnswer
        ensures { result ≡ refused_field number «record» byte }
    {
        FieldAnswer {
            refusal: number as u32,
            record: record,
            byte: byte,
            value_type: 0,
            whole: 0,
            integer: 0,
            float_bits: 0,
        }
    }

    // A float's bits are read only where it is no NaN: those of a NaN come as a number.
    pub fn value(value: Value) -> FieldAnswer
        requires { T (nan_apart value) }
        ensures { result ≡ c_value (value_meaning value) }
    {
        let mut r = FieldAnswer::refused(0, 0, 0);
        match value {
            Value::Whole(n) => {
                r.value_type = WHOLE;
                r.whole = n;
                r
            }
            Value::Signed(n) => {
                r.value_type = SIGNED;
                r.integer = n;
                r
            }
            Value::Float(x) => {
                r.value_type = FLOAT;
                r.float_bits = f32::to_bits(x);
                r
            }
            Value::Nan(bits) => {
                r.value_type = FLOAT;
                r.float_bits = bits;
                r
            }
        }
    }

    // No `From`: it asks of the value what `value` does.
    pub fn of(answer: Result<Value, Refused>) -> FieldAnswer
        requires { T (field_apart answer) }
        ensures { result ≡ c_field (field_meaning answer) }
    {
        match answer {
            Ok(value) => FieldAnswer::value(value),
            Err(e) => FieldAnswer::refused(e.number(), e.record(), e.byte()),
        }
    }
}
