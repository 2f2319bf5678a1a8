// What is shown of an entry.
ghost use Rattle.scalar.specs.Integer.{signed};
ghost use Rattle.listing.specs.Putting.{Shows, ShowsInteger};

use scalar::cast::widened;
use scalar::value::{Value, float_bits};

// A word, a number with or without a minus sign, a float's bits, or a text by its place, start and size, in the table's bytes.
#[derive(Clone, Copy)]
pub(crate) enum Shown {
    Null,
    Truth(bool),
    Number(u64),
    Negative(u64),
    Bits(u64),
    Text(usize, usize),
}

// What is shown of an Int64 by its bits.
fn show_integer(n: u64) -> Shown
    ensures { ShowsInteger (signed 63 n) result }
{
    if n < 0x8000_0000_0000_0000 {
        Shown::Number(n)
    } else {
        Shown::Negative(0xffff_ffff_ffff_ffff - n + 1)
    }
}

// What is shown of a value; of a failed one null, of a text that isn't in the table's bytes none of them.
pub(crate) fn show(v: Value) -> Shown
    ensures { Shows v result }
{
    match v {
        Value::Null => Shown::Null,
        Value::Boolean(b) => Shown::Truth(b),
        Value::Int32(n) => show_integer(widened(n)),
        Value::Int64(n) => show_integer(n),
        Value::Float64(f) => Shown::Bits(float_bits(f)),
        Value::Nan(n) => Shown::Bits(n),
        Value::RuleText(_, _) => Shown::Text(0, 0),
        Value::TableText(start, size) => Shown::Text(start, size),
        Value::Failed => Shown::Null,
    }
}
