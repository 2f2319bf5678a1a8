// A literal's value.
ghost use Rattle.std.specs.Prelude.{◌≡◌};
ghost use Rattle.rule.specs.Walked.{literal_at};

use crate::type_of::type_numbered;
use layout::number::{byte_at, read_u32, read_u64};
use scalar::types::DataType;
use scalar::value::{Value, float_value};

// The value of the literal at a place. A text is its place in the rule.
#[tactic(auto, unfolding(crate::specs::Walked::literal_at))]
pub fn literal_value(rule: &[u8], start: usize, end: usize) -> Value
    ensures { result ≡ literal_at rule.now start end }
{
    if rule.len() <= start {
        return Value::Null;
    }
    if byte_at(rule, start + 4) == 1 {
        return Value::Null;
    }
    let at = start + 5;
    match type_numbered(byte_at(rule, start + 3)) {
        DataType::Boolean => Value::Boolean(byte_at(rule, at) == 1),
        DataType::Int32 => Value::Int32(read_u32(rule, at)),
        DataType::Int64 => Value::Int64(read_u64(rule, at)),
        DataType::Float64 => float_value(read_u64(rule, at)),
        DataType::Utf8 => {
            if end < at {
                return Value::Null;
            }
            Value::RuleText(at, end - at)
        }
    }
}
