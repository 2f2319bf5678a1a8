// Casts and try-casts in the slots of the listed rows: floats to integers by their bits, as far as all are floats, the rest by the values.
ghost use Rattle.std.specs.Prelude.{◌≡◌, ◌<◌, ◌≤◌, length, if◌then◌else◌};
ghost use Rattle.scalar.specs.Value.{float_value, Gives};
ghost use Rattle.scalar.specs.Casts.{truncated_as, failed, cast_value};
ghost use Rattle.case.specs.Frame.{slot_at, Fillable, FillableFrom, Filled, FilledFrom, operation_of};
ghost use Rattle.case.specs.Casting.{cast_to, integer_type, RowTruncated};

use crate::rows::{map_rows, row_at};
use crate::slot::{long, put_slot};
use scalar::cast::{from_boolean, from_float, from_int32, from_int64, kept_text};
use scalar::truncate::{truncated_int32, truncated_int64};
use scalar::types::DataType;
use scalar::value::{Value, float_bits};

// A float's bits as an Int32, or else as an Int64.
fn integer_of(short: bool, bits: u64) -> Value
    ensures { result ≡ truncated_as (integer_type short) bits }
{
    if short {
        truncated_int32(bits)
    } else {
        truncated_int64(bits)
    }
}

// Null for what has failed.
fn or_null(v: Value) -> Value
    ensures { result ≡ (if failed v then Value.Null else v) }
{
    if let Value::Failed = v {
        return Value::Null;
    }
    v
}

// A float's bits cast, or try-cast.
fn truncated(short: bool, tried: bool, bits: u64) -> Value
    ensures { Gives (operation_of (cast_to tried (integer_type short))) (float_value bits) result }
{
    let v = integer_of(short, bits);
    if tried {
        return or_null(v);
    }
    v
}

// The float in the slot of a row cast: whether it was a float or null. Any other value stays.
fn truncate_row(work: &mut [u8], row: usize, short: bool, tried: bool) -> bool
    requires { (row < 512) × (5632 ≤ length work.old) }
    ensures { RowTruncated short tried work.old row result work.new }
{
    // fixed memory: the kind of a slot is a byte, 4 of a float and 0 of null, and the float's bits are cast as they stand there.
    let kind = work[1024 + 9 * row];
    if kind == 4 {
        let bits = long(work, 1025 + 9 * row);
        put_slot(work, row, truncated(short, tried, bits));
        return true;
    }
    kind == 0
}

// The floats of the first listed rows cast, up to the first value that is neither a float nor null: how many rows these are.
fn truncate_rows(work: &mut [u8], n: usize, short: bool, tried: bool) -> usize
    requires { Fillable work.old n }
    ensures { (result ≤ n) × Filled (λ q x. Gives (operation_of (cast_to tried (integer_type short))) (slot_at work.old q) x) work.old result work.new }
{
    for i in 0..n {
        let r = row_at(work, 0, i);
        if !truncate_row(work, r, short, tried) {
            return i;
        }
    }
    n
}

// The same by the type; no row where it is no integer's. Each call names its constants: the compiler makes a loop for each.
fn truncate_floats(work: &mut [u8], n: usize, to: DataType, tried: bool) -> usize
    requires { Fillable work.old n }
    ensures { (result ≤ n) × Filled (λ q x. Gives (operation_of (cast_to tried to)) (slot_at work.old q) x) work.old result work.new }
{
    match to {
        DataType::Int32 => if tried {
            truncate_rows(work, n, true, true)
        } else {
            truncate_rows(work, n, true, false)
        },
        DataType::Int64 => if tried {
            truncate_rows(work, n, false, true)
        } else {
            truncate_rows(work, n, false, false)
        },
        _ => 0,
    }
}

// A value cast: scalar's `cast`, written out where rows are cast, so that the loop over them makes no call.
fn cast_at(to: DataType, v: Value) -> Value
    ensures { result ≡ cast_value to v }
{
    match v {
        Value::Boolean(b) => from_boolean(to, b),
        Value::Int32(n) => from_int32(to, n),
        Value::Int64(n) => from_int64(to, n),
        Value::Float64(f) => from_float(to, v, float_bits(f)),
        Value::Nan(n) => from_float(to, v, n),
        Value::RuleText(_, _) | Value::TableText(_, _) => kept_text(to, v),
        _ => v,
    }
}

// A value cast, or try-cast.
fn cast_one(to: DataType, tried: bool, v: Value) -> Value
    ensures { Gives (operation_of (cast_to tried to)) v result }
{
    if let Value::Failed = v {
        return v;
    }
    let r = cast_at(to, v);
    if tried {
        return or_null(r);
    }
    r
}

// The value in the slot of each row of the list at a place cast, or try-cast.
fn cast_list(work: &mut [u8], at: usize, n: usize, to: DataType, tried: bool)
    requires { FillableFrom at work.old n }
    ensures { FilledFrom at (λ r x. Gives (operation_of (cast_to tried to)) (slot_at work.old r) x) work.old n work.new }
{
    map_rows(work, at, n, |v, _| cast_one(to, tried, v));
}

// The value in the slot of each listed row cast, or try-cast.
pub(crate) fn cast_rows(work: &mut [u8], n: usize, to: DataType, tried: bool)
    requires { Fillable work.old n }
    ensures { Filled (λ r x. Gives (operation_of (cast_to tried to)) (slot_at work.old r) x) work.old n work.new }
{
    let done = truncate_floats(work, n, to, tried);
    cast_list(work, 2 * done, n - done, to, tried);
}
