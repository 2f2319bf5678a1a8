// The order of two values of one type: false before true, integers by their numbers, floats by IEEE 754 totalOrder, text by bytes.
ghost use Rattle.std.specs.Prelude.{◌≡◌};
ghost use Rattle.scalar.specs.Float.{sign_turned, total_key};
ghost use Rattle.scalar.specs.Order.{order_of, key_of, is_text, text_in, text_order, number_order, key_order};
ghost use Rattle.scalar.specs.Value.{meaning};

use crate::negative::sign_turned;
use crate::text::{place_text, same_bytes, text_less};
use crate::value::{Value, float_bits};
use std::cmp::Ordering;

// How two values stand to each other.
#[derive(Clone, Copy, Debug, PartialEq, Eq)]
pub enum Order {
    Less,
    Equal,
    Greater,
    SomeNull,
    SomeFailed,
    Unlike,
}

// A value as it is compared: by a number of 64 bits among those of its type, by the type's number as slots hold it (fixed memory), or as text.
#[derive(Clone, Copy, Debug, PartialEq, Eq)]
pub enum Key {
    Null,
    Failed,
    Number(u8, u64),
    Text,
}

// The bits of an Int32 with the sign turned: as unsigned numbers they go with the order.
pub fn int32_key(n: u32) -> u64
    ensures { result ≡ sign_turned 31 n }
{
    let wide = n as u64;
    if wide < 0x8000_0000 {
        wide + 0x8000_0000
    } else {
        wide - 0x8000_0000
    }
}

// A number that goes with totalOrder: where the sign is set, the bits fall.
pub fn float_key(bits: u64) -> u64
    ensures { result ≡ total_key 63 bits }
{
    if bits < 0x8000_0000_0000_0000 {
        bits + 0x8000_0000_0000_0000
    } else {
        0xffff_ffff_ffff_ffff - bits
    }
}

// How a value is compared.
pub fn key_of(v: Value) -> Key
    ensures { result ≡ key_of v }
{
    match v {
        Value::Null => Key::Null,
        Value::Boolean(b) => Key::Number(1, u64::from(b)),
        Value::Int32(n) => Key::Number(2, int32_key(n)),
        Value::Int64(n) => Key::Number(3, sign_turned(n)),
        Value::Float64(f) => Key::Number(4, float_key(float_bits(f))),
        Value::Nan(n) => Key::Number(4, float_key(n)),
        Value::RuleText(_, _) | Value::TableText(_, _) => Key::Text,
        Value::Failed => Key::Failed,
    }
}

// The order of two texts.
pub fn text_order(s: &[u8], t: &[u8]) -> Order
    ensures { result ≡ text_order s.now t.now }
{
    if same_bytes(s, t) {
        return Order::Equal;
    }
    if text_less(s, t) {
        return Order::Less;
    }
    Order::Greater
}

// The order of two numbers.
pub fn number_order(x: u64, y: u64) -> Order
    ensures { result ≡ number_order x y }
{
    match x.cmp(&y) {
        Ordering::Less => Order::Less,
        Ordering::Equal => Order::Equal,
        Ordering::Greater => Order::Greater,
    }
}

// A number of a kind beside another key.
fn number_beside(kind: u8, x: u64, other: Key) -> Order
    ensures { result ≡ key_order (Key.Number kind x) other Order.Unlike }
{
    match other {
        Key::Null => Order::SomeNull,
        Key::Failed => Order::SomeFailed,
        Key::Number(k, y) => if kind == k {
            number_order(x, y)
        } else {
            Order::Unlike
        },
        Key::Text => Order::Unlike,
    }
}

// Null beside another key.
fn null_beside(other: Key) -> Order
    ensures { result ≡ key_order Key.Null other Order.Unlike }
{
    match other {
        Key::Failed => Order::SomeFailed,
        Key::Null | Key::Number(_, _) | Key::Text => Order::SomeNull,
    }
}

// Text beside another key, where that is no text.
fn no_text_beside(other: Key) -> Order
    ensures { result ≡ key_order Key.Text other Order.Unlike }
{
    match other {
        Key::Null => Order::SomeNull,
        Key::Failed => Order::SomeFailed,
        Key::Number(_, _) | Key::Text => Order::Unlike,
    }
}

// A key beside another, where they are not both text.
pub fn key_order(a: Key, b: Key) -> Order
    ensures { result ≡ key_order a b Order.Unlike }
{
    match a {
        Key::Null => null_beside(b),
        Key::Failed => Order::SomeFailed,
        Key::Number(kind, x) => number_beside(kind, x, b),
        Key::Text => no_text_beside(b),
    }
}

// Whether a value is text.
pub fn is_text(v: Value) -> bool
    ensures { result ≡ is_text (key_of v) }
{
    matches!(v, Value::RuleText(_, _) | Value::TableText(_, _))
}

// The bytes of a text value whose place is in these bytes; none of any other value.
pub fn text_in(bytes: &[u8], v: Value) -> &[u8]
    ensures { result.now ≡ text_in bytes.now bytes.now v }
{
    match v {
        Value::RuleText(start, size) | Value::TableText(start, size) => {
            place_text(bytes, start, size)
        }
        _ => &bytes[..0],
    }
}

// Text beside a value.
fn text_beside(rule: &[u8], table: &[u8], s: &[u8], v: Value) -> Order
    ensures { result ≡ key_order Key.Text (key_of v) (text_order s.now (text_in rule.now table.now v)) }
{
    match v {
        Value::RuleText(start, size) => text_order(s, place_text(rule, start, size)),
        Value::TableText(start, size) => text_order(s, place_text(table, start, size)),
        _ => no_text_beside(key_of(v)),
    }
}

// How two values stand to each other.
pub fn order_of(rule: &[u8], table: &[u8], a: Value, b: Value) -> Order
    ensures { result ≡ order_of (meaning rule.now table.now a) (meaning rule.now table.now b) }
{
    match a {
        Value::RuleText(start, size) => text_beside(rule, table, place_text(rule, start, size), b),
        Value::TableText(start, size) => text_beside(
            rule,
            table,
            place_text(table, start, size),
            b,
        ),
        _ => key_order(key_of(a), key_of(b)),
    }
}
