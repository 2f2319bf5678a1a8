// Equal and less: null if either side is null.
ghost use Rattle.std.specs.Prelude.{◌≡◌};
ghost use Rattle.scalar.specs.Compare.{equal_entry, less_entry};
ghost use Rattle.scalar.specs.Order.{compared};
ghost use Rattle.scalar.specs.Value.{on_values};

use crate::order::{Order, order_of};
use crate::value::Value;

// The value of a comparison, by what it says of a less, an equal and a greater first side; null also at two sides of unlike types.
fn compared(less: bool, equal: bool, greater: bool, order: Order) -> Value
    ensures { result ≡ compared less equal greater order }
{
    match order {
        Order::Less => Value::Boolean(less),
        Order::Equal => Value::Boolean(equal),
        Order::Greater => Value::Boolean(greater),
        Order::SomeNull | Order::Unlike => Value::Null,
        Order::SomeFailed => Value::Failed,
    }
}

// Whether two values are equal; null also at two that are of unlike types.
pub fn equal(rule: &[u8], table: &[u8], a: Value, b: Value) -> Value
    ensures { result ≡ on_values equal_entry rule.now table.now a b }
{
    compared(false, true, false, order_of(rule, table, a, b))
}

// Whether a value is less than another; null also at two that are of unlike types.
pub fn less(rule: &[u8], table: &[u8], a: Value, b: Value) -> Value
    ensures { result ≡ on_values less_entry rule.now table.now a b }
{
    compared(true, false, false, order_of(rule, table, a, b))
}
