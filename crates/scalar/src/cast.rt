// Cast: a value that doesn't fit fails. Each type to itself, any pair among Boolean, Int32 and Int64, Int32 and Int64 to Float64, and Float64 to
// Int32 and Int64.
ghost use Rattle.std.specs.Prelude.{◌≡◌};
ghost use Rattle.std.specs.Float.{binary64};
ghost use Rattle.std.specs.Float.Ieee.{of_int};
ghost use Rattle.scalar.specs.Integer.{signed, bits_of};
ghost use Rattle.scalar.specs.Cast.{can_fail_to_fit};
ghost use Rattle.scalar.specs.Casts.{float_as, kept_as, cast_value};

use crate::truncate::{truncated_int32, truncated_int64};
use crate::types::{DataType, is_integer};
use crate::value::{Value, float_bits};

// Whether a cast from a type to a type can fail to fit: Int64 to Int32, Float64 to an integer.
pub fn can_fail_to_fit(from: DataType, to: DataType) -> bool
    ensures { result ≡ can_fail_to_fit from to }
{
    match from {
        DataType::Int64 => to == DataType::Int32,
        DataType::Float64 => is_integer(to),
        _ => false,
    }
}

// Int64 to Int32: a value outside of Int32's range fails.
pub fn narrowed(n: u64) -> Value
    ensures { result ≡ cast_value DataType.Int32 (Value.Int64 n) }
{
    if n < 0x8000_0000 {
        return Value::Int32(n as u32);
    }
    if n < 0xffff_ffff_8000_0000 {
        return Value::Failed;
    }
    Value::Int32((n - 0xffff_ffff_0000_0000) as u32)
}

// The bits of an Int32 as an Int64.
pub fn widened(n: u32) -> u64
    ensures { result ≡ bits_of 63 (signed 31 n) }
{
    if n < 0x8000_0000 {
        n as u64
    } else {
        (n as u64) + 0xffff_ffff_0000_0000
    }
}

// An Int64 as the nearest float; of two that are equally near, the even one.
pub fn floated(n: u64) -> f64
    ensures { result ≡ of_int binary64 (signed 63 n) }
{
    if n < 0x8000_0000_0000_0000 {
        std::num::nearest_u64_to_f64(n)
    } else {
        -std::num::nearest_u64_to_f64(0xffff_ffff_ffff_ffff - n + 1)
    }
}

// A Boolean as the type; to an integer it is 1 or 0.
pub fn from_boolean(to: DataType, b: bool) -> Value
    ensures { result ≡ cast_value to (Value.Boolean b) }
{
    match to {
        DataType::Boolean => Value::Boolean(b),
        DataType::Int32 => Value::Int32(u32::from(b)),
        DataType::Int64 => Value::Int64(u64::from(b)),
        _ => Value::Failed,
    }
}

// An Int32 as the type; to Boolean it is "not zero".
pub fn from_int32(to: DataType, n: u32) -> Value
    ensures { result ≡ cast_value to (Value.Int32 n) }
{
    match to {
        DataType::Boolean => Value::Boolean(n != 0),
        DataType::Int32 => Value::Int32(n),
        DataType::Int64 => Value::Int64(widened(n)),
        DataType::Float64 => Value::Float64(floated(widened(n))),
        DataType::Utf8 => Value::Failed,
    }
}

// An Int64 as the type; to Boolean it is "not zero".
pub fn from_int64(to: DataType, n: u64) -> Value
    ensures { result ≡ cast_value to (Value.Int64 n) }
{
    match to {
        DataType::Boolean => Value::Boolean(n != 0),
        DataType::Int32 => narrowed(n),
        DataType::Int64 => Value::Int64(n),
        DataType::Float64 => Value::Float64(floated(n)),
        DataType::Utf8 => Value::Failed,
    }
}

// A float of some bits as the type: kept as it is held, or its whole part.
pub fn from_float(to: DataType, v: Value, bits: u64) -> Value
    ensures { result ≡ float_as to v bits }
{
    match to {
        DataType::Int32 => truncated_int32(bits),
        DataType::Int64 => truncated_int64(bits),
        DataType::Float64 => v,
        _ => Value::Failed,
    }
}

// A text, where that is the type.
pub fn kept_text(to: DataType, v: Value) -> Value
    ensures { result ≡ kept_as DataType.Utf8 to v }
{
    match to {
        DataType::Utf8 => v,
        _ => Value::Failed,
    }
}

// A cast to a type; a pair that isn't listed fails.
pub fn cast(to: DataType, v: Value) -> Value
    ensures { result ≡ cast_value to v }
{
    match v {
        Value::Boolean(b) => from_boolean(to, b),
        Value::Int32(n) => from_int32(to, n),
        Value::Int64(n) => from_int64(to, n),
        Value::Float64(f) => from_float(to, v, float_bits(f)),
        Value::Nan(n) => from_float(to, v, n),
        Value::RuleText(_, _) | Value::TableText(_, _) => kept_text(to, v),
        _ => v,
    }
}
