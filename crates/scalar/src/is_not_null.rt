// IS NOT NULL: Boolean, never null.
ghost use Rattle.std.specs.Prelude.{◌≡◌};
ghost use Rattle.scalar.specs.Entry.{entry};
ghost use Rattle.scalar.specs.IsNotNull.{is_not_null_entry};
ghost use Rattle.scalar.specs.Value.{on_value};

use crate::value::Value;

// Whether a value is not null.
pub fn is_not_null(v: Value) -> Value
    ensures { result ≡ on_value (λ e. entry (is_not_null_entry e)) v }
{
    match v {
        Value::Null => Value::Boolean(false),
        Value::Failed => Value::Failed,
        _ => Value::Boolean(true),
    }
}
