// The lists of rows of the work buffer, and what is done to the slots of the listed rows.
ghost use Rattle.std.specs.Prelude.{◌≡◌, ℕ, ◌+◌, ◌*◌, ◌<◌, ◌≤◌, true, length};
ghost use Rattle.scalar.specs.Value.{Storable, Gives};
ghost use Rattle.case.specs.Evaluation.{OperatorGives};
ghost use Rattle.case.specs.Frame.{row_at, slot_at, Fillable, FillableFrom, Filled, FilledFrom, operation_of, Copied, AllRows};
ghost use Rattle.case.specs.Casting.{castless};
ghost use Rattle.case.specs.Parting.{RowPut};
ghost use Rattle.case.specs.Taking.{ScalarRight};

use crate::casting::cast_rows;
use crate::slot::{get_slot, put_slot, wide};
use crate::truth::choose;
use layout::number::byte_at;
use rule::tag::{CAST, IS_NOT_NULL, NEGATIVE, TRY_CAST};
use rule::type_of::type_numbered;
use scalar::is_not_null::is_not_null;
use scalar::negative::negative;
use scalar::not::not_value;
use scalar::types::DataType;
use scalar::value::Value;

// Most rows of a table.
pub(crate) const ROWS_MOST: usize = 512;

// The operations on one value. A closed set: the `match`es show that none is left out, which closures don't.
#[derive(Clone, Copy)]
pub(crate) enum Op {
    Not,
    Negative,
    IsNotNull,
    Cast(DataType),
    TryCast(DataType),
}

// The operation of the node at a place of the rule, by its tag and its type byte.
pub(crate) fn operator_at(rule: &[u8], start: usize) -> Op
    ensures { OperatorGives rule.now start result }
{
    if rule.len() <= start {
        return Op::Not;
    }
    match rule[start] {
        NEGATIVE => Op::Negative,
        IS_NOT_NULL => Op::IsNotNull,
        CAST => Op::Cast(type_numbered(byte_at(rule, start + 3))),
        TRY_CAST => Op::TryCast(type_numbered(byte_at(rule, start + 3))),
        _ => Op::Not,
    }
}

// The i-th row of the list at a place.
pub(crate) fn row_at(work: &[u8], at: usize, i: usize) -> usize
    requires { at + 2 * i + 2 ≤ length work.now }
    ensures { result ≡ row_at work.now at i }
{
    let p = at + 2 * i;
    (wide(work[p]) + 256 * wide(work[p + 1])) as usize
}

// A row as the i-th of the list at a place.
pub(crate) fn put_row(work: &mut [u8], at: usize, i: usize, row: usize)
    requires { (at + 2 * i + 2 ≤ length work.old) × (row < 65536) }
    ensures { RowPut work.old at i row work.new }
{
    let p = at + 2 * i;
    work[p] = (row % 256) as u8;
    work[p + 1] = (row / 256) as u8;
}

// All rows below n, as the frame's own list.
pub(crate) fn all_rows(work: &mut [u8], n: usize)
    requires { (n ≤ 512) × (1024 ≤ length work.old) }
    ensures { AllRows n work.old work.new }
{
    for i in 0..n {
        put_row(work, 0, i, i);
    }
}

// The first n rows of the list at a place, to another behind it. Byte by byte: `copy_from_slice` would need `memmove` from outside the archive for C.
pub(crate) fn copy_list(work: &mut [u8], n: usize, from: usize, to: usize)
    requires { (from + 2 * n ≤ to) × (to + 2 * n ≤ length work.old) }
    ensures { Copied work.old n from to work.new }
{
    for i in 0..2 * n {
        work[to + i] = work[from + i];
    }
}

// A value in the slot of each listed row, by the row.
pub(crate) fn fill_rows<F: Fn(usize) -> Value>(work: &mut [u8], n: usize, value: F)
    requires fillable { Fillable work.old n }
    requires gives { (r : ℕ) → r < 512 → F.pre value r }
    requires stores { (r : ℕ) (x : Value) → r < 512 → F.post value r x → Storable x }
    ensures { Filled (λ r x. F.post value r x) work.old n work.new }
{
    for i in 0..n {
        let r = row_at(work, 0, i);
        put_slot(work, r, value(r));
    }
}

// A value in the slot of each row of the list at a place, by the one that is there and the row.
pub(crate) fn map_rows<F: Fn(Value, usize) -> Value>(work: &mut [u8], at: usize, n: usize, value: F)
    requires fillable { FillableFrom at work.old n }
    requires gives { (v : Value) (r : ℕ) → Storable v → r < 512 → F.pre value v r }
    requires stores { (v : Value) (r : ℕ) (x : Value) → Storable v → r < 512 → F.post value v r x → Storable x }
    ensures { FilledFrom at (λ r x. F.post value (slot_at work.old r) r x) work.old n work.new }
{
    for i in 0..n {
        let r = row_at(work, at, i);
        let v = get_slot(work, r);
        put_slot(work, r, value(v, r));
    }
}

// One value in the slot of each listed row.
pub(crate) fn fill_value(work: &mut [u8], n: usize, v: Value)
    requires { Fillable work.old n × Storable v }
    ensures { Filled (λ r x. x ≡ v) work.old n work.new }
{
    fill_rows(work, n, |_| v);
}

// An operation on one value that is no cast.
fn apply_one(op: Op, v: Value) -> Value
    requires { castless op ≡ true }
    ensures { Gives (operation_of op) v result }
{
    match op {
        Op::Not => not_value(v),
        Op::Negative => negative(v),
        Op::IsNotNull => is_not_null(v),
        _ => v,
    }
}

// The same on the value in the slot of each listed row.
fn apply_castless(work: &mut [u8], n: usize, op: Op)
    requires { Fillable work.old n × (castless op ≡ true) }
    ensures { Filled (λ r x. Gives (operation_of op) (slot_at work.old r) x) work.old n work.new }
{
    map_rows(work, 0, n, |v, _| apply_one(op, v));
}

// An operation on the value in the slot of each listed row.
pub(crate) fn apply(work: &mut [u8], n: usize, op: Op)
    requires { Fillable work.old n }
    ensures { Filled (λ r x. Gives (operation_of op) (slot_at work.old r) x) work.old n work.new }
{
    match op {
        Op::Cast(to) => cast_rows(work, n, to, false),
        Op::TryCast(to) => cast_rows(work, n, to, true),
        _ => apply_castless(work, n, op),
    }
}

// One value in the slot of each listed row where it is true, another elsewhere; where it failed, it stays so.
pub(crate) fn choose_scalar(work: &mut [u8], n: usize, then: Value, els: Value)
    requires fillable { Fillable work.old n }
    requires storable { Storable then × Storable els }
    ensures { Filled (ScalarRight then els work.old) work.old n work.new }
{
    map_rows(work, 0, n, |test, _| choose(test, then, els));
}
