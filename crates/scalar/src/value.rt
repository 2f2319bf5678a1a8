// What a literal, a column or an expression is at a row, and the same as a kind and a payload of 64 bits.
ghost use Rattle.std.specs.Prelude.{◌≡◌};
ghost use Rattle.scalar.specs.Value.{float_value, kind_of, payload_of, value_of, place_payload};

// Integers are two's-complement bits, a NaN is its bits, and text is a place, start and size, in the rule's or the table's bytes.
#[derive(Clone, Copy)]
pub enum Value {
    Null,
    Boolean(bool),
    Int32(u32),
    Int64(u64),
    Float64(f64),
    Nan(u64),
    RuleText(usize, usize),
    TableText(usize, usize),
    Failed,
}

// A float by its bits; a NaN keeps them.
pub fn float_value(bits: u64) -> Value
    ensures { result ≡ float_value bits }
{
    if bits % 0x8000_0000_0000_0000 > 0x7ff0_0000_0000_0000 {
        Value::Nan(bits)
    } else {
        Value::Float64(f64::from_bits(bits))
    }
}

// The bits of a float; of a NaN those of one fixed NaN.
pub fn float_bits(f: f64) -> u64
    ensures { result ≡ payload_of (Value.Float64 f) }
{
    if f.is_nan() {
        0x7ff8_0000_0000_0000
    } else {
        f.to_bits()
    }
}

// The number of a value's kind. Fixed memory: a row's slot in the lent work buffer is a byte of kind and eight of payload.
pub fn kind(v: Value) -> u8
    ensures { result ≡ kind_of v }
{
    match v {
        Value::Null => 0,
        Value::Boolean(_) => 1,
        Value::Int32(_) => 2,
        Value::Int64(_) => 3,
        Value::Float64(_) | Value::Nan(_) => 4,
        Value::RuleText(_, _) => 5,
        Value::TableText(_, _) => 6,
        Value::Failed => 7,
    }
}

// A text's place in 64 bits.
pub fn place_payload(start: usize, size: usize) -> u64
    ensures { result ≡ place_payload start size }
{
    let low = (start % 0x1_0000_0000) as u64;
    let high = (size % 0x1_0000_0000) as u64;
    low + high * 0x1_0000_0000
}

// A value's payload.
pub fn payload(v: Value) -> u64
    ensures { result ≡ payload_of v }
{
    match v {
        Value::Null | Value::Failed => 0,
        Value::Boolean(b) => u64::from(b),
        Value::Int32(n) => u64::from(n),
        Value::Int64(n) | Value::Nan(n) => n,
        Value::Float64(f) => float_bits(f),
        Value::RuleText(start, size) | Value::TableText(start, size) => place_payload(start, size),
    }
}

// The value of a kind and a payload; a kind above 6 is failed.
pub fn value_of(kind: u8, payload: u64) -> Value
    ensures { result ≡ value_of kind payload }
{
    match kind {
        0 => Value::Null,
        1 => Value::Boolean(payload % 2 == 1),
        2 => Value::Int32((payload % 0x1_0000_0000) as u32),
        3 => Value::Int64(payload),
        4 => float_value(payload),
        5 => Value::RuleText(
            (payload % 0x1_0000_0000) as usize,
            (payload / 0x1_0000_0000) as usize,
        ),
        6 => Value::TableText(
            (payload % 0x1_0000_0000) as usize,
            (payload / 0x1_0000_0000) as usize,
        ),
        _ => Value::Failed,
    }
}
