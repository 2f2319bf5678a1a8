// NOT: null stays null.
ghost use Rattle.std.specs.Prelude.{◌≡◌};
ghost use Rattle.scalar.specs.Entry.{entry};
ghost use Rattle.scalar.specs.Not.{not_entry};
ghost use Rattle.scalar.specs.Value.{on_value};

use crate::value::Value;

// NOT of a value; null at a value that is no Boolean.
pub fn not_value(v: Value) -> Value
    ensures { result ≡ on_value (λ e. entry (not_entry e)) v }
{
    match v {
        Value::Null => Value::Null,
        Value::Boolean(b) => Value::Boolean(!b),
        Value::Failed => Value::Failed,
        _ => Value::Null,
    }
}
