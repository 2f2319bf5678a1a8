// Equal and less on the slots of the listed rows.
ghost use Rattle.std.specs.Prelude.{◌≡◌, ◌+◌, ◌*◌, ◌<◌, ◌≤◌, length, if◌then◌else◌, slice_index_or};
ghost use Rattle.scalar.specs.Order.{order_of, text_in, text_order};
ghost use Rattle.scalar.specs.Value.{meaning, GivesBoth};
ghost use Rattle.case.specs.Frame.{slot_at, next_slot, Rows, Fillable, Filled};
ghost use Rattle.case.specs.Taking.{comparison, order_value, OrderRight, RowsOrdered};

use crate::rows::{ROWS_MOST, fill_rows, row_at};
use crate::slot::{get_slot, next_slot};
use scalar::order::{Order, is_text, key_of, key_order, text_in, text_order};
use scalar::value::Value;

// The bytes of a text, in the rule's or in the table's bytes; none of a value of another type.
fn text_at<'a>(rule: &'a [u8], table: &'a [u8], v: Value) -> &'a [u8]
    ensures { result.now ≡ text_in rule.now table.now v }
{
    if let Value::TableText(_, _) = v {
        return text_in(table, v);
    }
    text_in(rule, v)
}

// How two values stand to each other: `order_of`, written out where rows are compared, so that the loop over them makes no call.
fn order_at(rule: &[u8], table: &[u8], a: Value, b: Value) -> Order
    ensures { result ≡ order_of (meaning rule.now table.now a) (meaning rule.now table.now b) }
{
    if is_text(a) && is_text(b) {
        return text_order(text_at(rule, table, a), text_at(rule, table, b));
    }
    key_order(key_of(a), key_of(b))
}

// The value of a comparison, less or equal, by the order of its sides.
pub(crate) fn order_value(less: bool, o: Order) -> Value
    ensures { result ≡ order_value less o }
{
    match o {
        Order::Less => Value::Boolean(less),
        Order::Equal => Value::Boolean(!less),
        Order::Greater => Value::Boolean(false),
        Order::SomeNull | Order::Unlike => Value::Null,
        Order::SomeFailed => Value::Failed,
    }
}

// The second side of a row's comparison: one value, or the row's slot of the next frame.
fn second_side(work: &[u8], fixed: bool, b: Value, row: usize) -> Value
    requires { (row < 512) × (12288 ≤ length work.now) }
    ensures { result ≡ (if fixed then b else next_slot work.now row) }
{
    if fixed {
        return b;
    }
    next_slot(work, row)
}

// The order of the slot of each row of the list at a place and its second side.
pub(crate) fn compare_list(
    rule: &[u8],
    table: &[u8],
    work: &[u8],
    at: usize,
    n: usize,
    fixed: bool,
    b: Value,
    orders: &mut [Order; ROWS_MOST],
)
    requires rows { Rows work.now at n 512 × (at + 2 * n ≤ length work.now) }
    requires in_bounds { 12288 ≤ length work.now }
    ensures { RowsOrdered (λ r o. OrderRight rule.now table.now (slot_at work.now r) (if fixed then b else next_slot work.now r) o) work.now at n orders.new }
{
    for i in 0..n {
        let r = row_at(work, at, i);
        let x = get_slot(work, r);
        let y = second_side(work, fixed, b, r);
        orders[r] = order_at(rule, table, x, y);
    }
}

// The value of each listed row's comparison, in the row's slot.
fn put_orders(work: &mut [u8], n: usize, less: bool, orders: &[Order; ROWS_MOST])
    requires { Fillable work.old n }
    ensures { Filled (λ r v. v ≡ order_value less (slice_index_or orders.now r Order.Less)) work.old n work.new }
{
    fill_rows(work, n, |row| order_value(less, orders[row]));
}

// Whether the slot of each listed row is less than the row's slot of the next frame, or equal to it, in the row's slot.
pub(crate) fn compare_rows(rule: &[u8], table: &[u8], work: &mut [u8], n: usize, less: bool)
    requires fillable { Fillable work.old n }
    requires in_bounds { 12288 ≤ length work.old }
    ensures { Filled (λ r v. GivesBoth (comparison less) rule.now table.now (slot_at work.old r) (next_slot work.old r) v) work.old n work.new }
{
    let mut orders = [Order::Unlike; ROWS_MOST];
    compare_list(rule, table, work, 0, n, false, Value::Null, &mut orders);
    put_orders(work, n, less, &orders);
}

// Whether the slot of each listed row is less than one value, or equal to it, in the row's slot.
pub(crate) fn compare_value(
    rule: &[u8],
    table: &[u8],
    work: &mut [u8],
    n: usize,
    less: bool,
    b: Value,
)
    requires fillable { Fillable work.old n }
    requires in_bounds { 12288 ≤ length work.old }
    ensures { Filled (λ r v. GivesBoth (comparison less) rule.now table.now (slot_at work.old r) b v) work.old n work.new }
{
    let mut orders = [Order::Unlike; ROWS_MOST];
    compare_list(rule, table, work, 0, n, true, b, &mut orders);
    put_orders(work, n, less, &orders);
}
