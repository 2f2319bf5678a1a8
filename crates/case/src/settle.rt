// Which rows of a CASE's open list leave it, with the index of the branch that takes them, in the builder.
ghost use Rattle.std.specs.Prelude.{◌≡◌, refl, ℕ, ◌<◌, ◌≤◌, List, length, slice_index};
ghost use Rattle.std.proofs.Math.Option.{none};
ghost use Rattle.scalar.specs.Value.{meaning};
ghost use Rattle.builder.specs.Builder.{or_else};
ghost use Rattle.case.specs.Frame.{slot_at, next_slot, Rows};
ghost use Rattle.case.specs.Choosing.{leaving, null_outcome, true_outcome, class_at, class_by_slots, class_same, class_by, asks_true, asks_equal, OrdersFor, held_by, Open, Settles};
ghost use Rattle.case.specs.Parting.{Parted, PartAsks, PartGives};

use crate::binary::{compare_list, order_value};
use crate::rows::{ROWS_MOST, put_row, row_at};
use crate::slot::{get_slot, next_slot};
use crate::truth::{Truth, truth_of};
use builder::ResultBuilder;
use scalar::order::Order;
use scalar::value::Value;

// When a row leaves: its base is null, its WHEN is true, its WHEN equals its base, or always. A closed set: the `match`es show that
// none is left out, which closures don't.
#[derive(Clone, Copy)]
pub(crate) enum Leave {
    NullBase,
    TrueWhen,
    EqualWhen,
    Rest,
}

impl Leave {
    // Whether a row leaves where its WHEN is true.
    pub(crate) fn asks_true(self) -> bool
        ensures { result ≡ asks_true self }
    {
        matches!(self, Leave::TrueWhen)
    }

    // Whether a row leaves where its WHEN equals its base.
    fn asks_equal(self) -> bool
        ensures { result ≡ asks_equal self }
    {
        matches!(self, Leave::EqualWhen)
    }
}

// How many rows are left in the open list, and the builder. It goes by value: the lengths of its arrays, which the builder's laws ask, are known of a value, not
// behind a `&mut`.
#[derive(Clone, Copy)]
pub(crate) struct Settled {
    pub(crate) left: usize,
    pub(crate) builder: ResultBuilder,
}

// A builder for so many rows, none of which is held.
pub(crate) fn open_builder(rows: usize) -> ResultBuilder
    requires { rows ≤ 512 }
    ensures { ((w : List ℕ) (left : ℕ) → Rows w 5632 left rows → Open result w left rows) × ((q : ℕ) → held_by result q ≡ none) }
{
    ResultBuilder::new(rows).unwrap()
}

// The index with which each row is held, 0 where it is not.
pub(crate) fn finished(b: ResultBuilder) -> [u16; ROWS_MOST]
    requires { b.rows ≤ 512 }
    ensures { (r : ℕ) → r < b.rows → slice_index result r ≡ or_else 0 (held_by b r) }
{
    b.finish().values
}

// The index with which a row leaves by its base, 0 where it stays.
fn null_class(base: Value, index: u16, failed: u16) -> u16
    ensures { (rule table : List ℕ) → result ≡ leaving null_outcome index failed (meaning rule table base) }
{
    match base {
        Value::Null => index,
        Value::Failed => failed,
        _ => 0,
    }
}

// The index with which a row leaves by its WHEN, 0 where it stays.
fn true_class(when: Value, index: u16, failed: u16) -> u16
    ensures { (rule table : List ℕ) → result ≡ leaving true_outcome index failed (meaning rule table when) }
{
    match truth_of(when) {
        Truth::Yes => index,
        Truth::No => 0,
        Truth::Unfit => failed,
    }
}

// With which index a row leaves the open list, 0 where it stays: it hangs on the row's slots, and on what the type holds.
trait Leaving {
    ghost class: { Self → List ℕ → ℕ → ℕ };

    fn class_of(&self, work: &[u8], row: usize) -> u16
        requires { (row < 512) × (12288 ≤ length work.now) }
        ensures { result ≡ class self.now work.now row };

    ghost by_slots: { (s : Self) (w m : List ℕ) (r : ℕ) → slot_at m r ≡ slot_at w r → next_slot m r ≡ next_slot w r → class s m r ≡ class s w r };
}

// A row leaves by its base, by its WHEN, or by the order of the two.
#[derive(Clone, Copy)]
struct BySlots<'a> {
    how: Leave,
    orders: &'a [Order; ROWS_MOST],
    index: u16,
    failed: u16,
}

impl<'a> Leaving for BySlots<'a> {
    ghost class = { λ s w r. class_by_slots s.how s.orders.now w s.index s.failed r };

    fn class_of(&self, work: &[u8], row: usize) -> u16 {
        match self.how {
            Leave::NullBase => null_class(get_slot(work, row), self.index, self.failed),
            Leave::TrueWhen => true_class(next_slot(work, row), self.index, self.failed),
            Leave::EqualWhen => {
                true_class(
                    order_value(false, self.orders[row]),
                    self.index,
                    self.failed,
                )
            },
            Leave::Rest => self.index,
        }
    }

    ghost by_slots = { λ s w m r a b. class_same s.how s.orders.now w m s.index s.failed r a b };
}

// A row leaves where its WHEN has index 1.
#[derive(Clone, Copy)]
struct ByWhens<'a> {
    whens: &'a [u16; ROWS_MOST],
    index: u16,
}

impl<'a> Leaving for ByWhens<'a> {
    ghost class = { λ s w r. class_by s.whens.now s.index r };

    fn class_of(&self, work: &[u8], row: usize) -> u16 {
        if self.whens[row] == 1 { self.index } else { 0 }
    }

    ghost by_slots = { λ s w m r a b. refl };
}

// The rows of the open list that leave, with their indices: how many they are. The others stay in it.
fn split<L: Leaving>(
    work: &mut [u8],
    left: usize,
    leaving: &L,
    rows: &mut [u16; ROWS_MOST],
    values: &mut [u16; ROWS_MOST],
) -> usize
    requires rows { Rows work.old 5632 left 512 }
    requires in_bounds { 12288 ≤ length work.old }
    ensures { Parted (L.class leaving.now work.old) work.old left result rows.new values.new work.new }
{
    let mut m = 0;
    for i in 0..left {
        let r = row_at(work, 5632, i);
        let class = leaving.class_of(work, r);
        if class == 0 {
            put_row(work, 5632, i - m, r);
        } else {
            rows[m] = r as u16;
            values[m] = class;
            m += 1;
        }
    }
    m
}

// The order of each open row's base and WHEN, where the way of leaving asks for it.
fn fill_orders(
    rule: &[u8],
    table: &[u8],
    work: &[u8],
    left: usize,
    how: Leave,
    orders: &mut [Order; ROWS_MOST],
)
    requires rows { Rows work.now 5632 left 512 }
    requires in_bounds { 12288 ≤ length work.now }
    ensures { OrdersFor how rule.now table.now work.now left orders.new }
{
    if how.asks_equal() {
        compare_list(rule, table, work, 5632, left, false, Value::Null, orders);
    }
}

// The builder with the indices of rows that it does not hold.
fn add_part(b: ResultBuilder, rows: &[u16], values: &[u16]) -> ResultBuilder
    requires { PartAsks b rows.now values.now }
    ensures { PartGives b rows.now values.now result }
{
    let mut builder = b;
    if !rows.is_empty() {
        builder.add_branch_result(rows, values).unwrap();
    }
    builder
}

// The rows of the open list that leave are held with their indices, the others stay in it.
fn settle_rows<L: Leaving>(work: &mut [u8], left: usize, leaving: &L, b: ResultBuilder) -> Settled
    requires fact { Open b work.old left b.rows }
    requires in_bounds { 12288 ≤ length work.old }
    ensures { Settles (L.class leaving.now work.old) work.old left b.rows b result work.new }
{
    let mut rows = [0u16; ROWS_MOST];
    let mut values = [0u16; ROWS_MOST];
    let m = split(work, left, leaving, &mut rows, &mut values);
    let builder = add_part(b, &rows[..m], &values[..m]);
    Settled {
        left: left - m,
        builder,
    }
}

// The same, where rows leave by their slots.
pub(crate) fn settle(
    rule: &[u8],
    table: &[u8],
    work: &mut [u8],
    left: usize,
    how: Leave,
    index: u16,
    failed: u16,
    b: ResultBuilder,
) -> Settled
    requires fact { Open b work.old left b.rows }
    requires in_bounds { 12288 ≤ length work.old }
    requires index_nonzero { (0 < index) × (0 < failed) }
    ensures { Settles (class_at how rule.now table.now work.old index failed) work.old left b.rows b result work.new }
{
    let mut orders = [Order::Unlike; ROWS_MOST];
    fill_orders(rule, table, work, left, how, &mut orders);
    let leaving = BySlots {
        how,
        orders: &orders,
        index,
        failed,
    };
    settle_rows(work, left, &leaving, b)
}

// The same, where rows leave whose WHEN has index 1.
pub(crate) fn settle_by(
    work: &mut [u8],
    left: usize,
    whens: &[u16; ROWS_MOST],
    index: u16,
    b: ResultBuilder,
) -> Settled
    requires fact { Open b work.old left b.rows }
    requires in_bounds { 12288 ≤ length work.old }
    requires index_nonzero { 0 < index }
    ensures { Settles (class_by whens.now index) work.old left b.rows b result work.new }
{
    settle_rows(work, left, &ByWhens { whens, index }, b)
}
