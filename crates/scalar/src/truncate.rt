// Float64 to an integer, by the float's bits: the fraction is dropped toward zero.
ghost use Rattle.std.specs.Prelude.{◌≡◌, ℕ, suc, ◌-◌, ◌/◌, ◌^◌, ◌<◌, ◌≤◌, min, IfSome};
ghost use Rattle.scalar.specs.declared.types.DataType.TheVariants.{Int32, Int64};
ghost use Rattle.scalar.specs.WholePart.{whole_of};
ghost use Rattle.scalar.specs.Entry.{Entry};
ghost use Rattle.scalar.specs.Cast.{truncated};
ghost use Rattle.scalar.specs.Casts.{outcome_made, truncated_as};

use crate::value::Value;

// A significand without its lowest digits, those of the fraction.
fn without_fraction(significand: u64, digits: u64) -> u64
    requires { digits < 64 }
    ensures { result ≡ significand / 2 ^ digits }
{
    significand >> digits
}

// The whole part of the magnitude; from 2^64 on, and of an infinity or a NaN, the largest u64.
fn magnitude(bits: u64) -> u64
    ensures { result ≡ min (whole_of bits) (2 ^ 64 - 1) }
{
    let exponent = (bits % 0x8000_0000_0000_0000) / 0x10_0000_0000_0000;
    let significand = 0x10_0000_0000_0000 + bits % 0x10_0000_0000_0000;
    if exponent < 1023 {
        return 0;
    }
    if exponent < 1075 {
        return without_fraction(significand, 1075 - exponent);
    }
    if exponent < 1087 {
        return significand << (exponent - 1075);
    }
    0xffff_ffff_ffff_ffff
}

// The two's-complement bits of the whole part, with so many below the sign; none where it doesn't fit them.
fn whole_number(bits: u64, below: u32) -> Option<u64>
    requires { below ≤ 63 }
    ensures means { (made : ℕ → Entry) → truncated below made bits ≡ outcome_made made result }
    ensures within { IfSome result (λ n. n < 2 ^ suc below) }
{
    let limit = 1u64 << below;
    let m = magnitude(bits);
    if bits < 0x8000_0000_0000_0000 {
        return if m < limit { Some(m) } else { None };
    }
    if limit < m {
        return None;
    }
    if m == 0 {
        return Some(0);
    }
    Some(limit - m + limit)
}

// Float64 to Int32. With the next a line each over `whole_number`: a generic one would need a trait for the two variants.
pub fn truncated_int32(bits: u64) -> Value
    ensures { result ≡ truncated_as Int32 bits }
{
    match whole_number(bits, 31) {
        Some(n) => Value::Int32(n as u32),
        None => Value::Failed,
    }
}

// Float64 to Int64.
pub fn truncated_int64(bits: u64) -> Value
    ensures { result ≡ truncated_as Int64 bits }
{
    match whole_number(bits, 63) {
        Some(n) => Value::Int64(n),
        None => Value::Failed,
    }
}
