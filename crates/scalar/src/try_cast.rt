// Try-cast: a value that doesn't fit becomes null.
ghost use Rattle.std.specs.Prelude.{◌≡◌};
ghost use Rattle.scalar.specs.Casts.{try_cast_value};

use crate::cast::cast;
use crate::types::DataType;
use crate::value::Value;

// A try-cast to a type; what failed before stays failed.
pub fn try_cast(to: DataType, v: Value) -> Value
    ensures { result ≡ try_cast_value to v }
{
    if let Value::Failed = v {
        return Value::Failed;
    }
    match cast(to, v) {
        Value::Failed => Value::Null,
        fits => fits,
    }
}
