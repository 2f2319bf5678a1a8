// Negative: on integers wrapping subtraction from zero, so the lowest value negates to itself; on floats the sign bit turns.
ghost use Rattle.std.specs.Prelude.{◌≡◌, []};
ghost use Rattle.scalar.specs.Entry.{entry, on_entry};
ghost use Rattle.scalar.specs.Float.{sign_turned};
ghost use Rattle.scalar.specs.Integer.{negated};
ghost use Rattle.scalar.specs.Negative.{negative_entry};
ghost use Rattle.scalar.specs.Value.{meaning, on_value};

use crate::value::{Value, float_bits, float_value};

// The bits of the negated Int32. One call of its type's method, as for Int64: a trait over both would be longer.
pub fn negated_int32(n: u32) -> u32
    ensures { result ≡ negated 31 n }
{
    n.wrapping_neg()
}

// The bits of the negated Int64.
pub fn negated_int64(n: u64) -> u64
    ensures { result ≡ negated 63 n }
{
    n.wrapping_neg()
}

// The bits of a float with its sign turned, a NaN's too.
pub fn sign_turned(bits: u64) -> u64
    ensures { result ≡ sign_turned 63 bits }
{
    if bits < 0x8000_0000_0000_0000 {
        bits + 0x8000_0000_0000_0000
    } else {
        bits - 0x8000_0000_0000_0000
    }
}

// The negated value; null at a value that is no number. That it means the negative is said too: callers don't know that a float's bits are 64.
pub fn negative(v: Value) -> Value
    ensures { (result ≡ on_value (λ e. entry (negative_entry e)) v) × (meaning [] [] result ≡ on_entry (λ e. entry (negative_entry e)) (meaning [] [] v)) }
{
    match v {
        Value::Int32(n) => Value::Int32(negated_int32(n)),
        Value::Int64(n) => Value::Int64(negated_int64(n)),
        Value::Float64(f) => float_value(sign_turned(float_bits(f))),
        Value::Nan(n) => float_value(sign_turned(n)),
        Value::Failed => Value::Failed,
        _ => Value::Null,
    }
}
