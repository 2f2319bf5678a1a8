// An answer of numbers none of which is null: 17 and nothing, or its bytes at the front of the output.
ghost use Rattle.std.specs.Prelude.{List, ℕ, ◌+◌, ◌-◌, ◌≤◌, length};
ghost use Rattle.layout.specs.Put.{Wrote};
ghost use Rattle.writer.specs.Slots.{slot_at};
ghost use Rattle.writer.specs.Write.{PlainRows, RowsOfKind, Tells, WriteGives, slot_kind};
ghost use Rattle.writer.specs.Writing.{plain_front, values_size};

use crate::put::{put_count, put_header, put_numbers, put_type};
use crate::rows::Rows;
use crate::write::{VALIDITY, VALUES, column_size, values_size};
use layout::refusal::Refusal;
use scalar::types::DataType;

// Numbers of the first and of the last type of numbers; an Int32 takes four bytes, any other eight.
pub(crate) const INT32: u8 = 2;

pub(crate) const FLOAT64: u8 = 4;

// Whether every row's slot has a number of the answer's type.
pub(crate) fn plain_rows(rows: &Rows, t: DataType) -> bool
    ensures { Tells result (PlainRows (slot_kind rows.now.work.now) rows.now.count t) }
{
    let k = t.number();
    if k < INT32 {
        return false;
    }
    if FLOAT64 < k {
        return false;
    }
    rows_of_kind(rows, k)
}

// Whether every row's slot has a value of a kind.
fn rows_of_kind(rows: &Rows, k: u8) -> bool
    ensures { Tells result (RowsOfKind (slot_kind rows.now.work.now) rows.now.count k) }
{
    for i in 0..rows.count {
        if rows.kind(i) != k {
            return false;
        }
    }
    true
}

// The answer at the front of the output, and its length, of rows whose slots have numbers of its type; or 17, and the output is unchanged.
pub(crate) fn write_plain(
    rows: &Rows,
    t: DataType,
    nullable: bool,
    output: &mut [u8],
) -> Result<usize, Refusal>
    requires { PlainRows (slot_kind rows.now.work.now) rows.now.count t }
    ensures { (rule table : List ℕ) → WriteGives rule table (slot_at rows.now.work.now) rows.now.count t nullable output.old result output.new }
{
    let size = column_size(rows.count, t, false, 0);
    if output.len() < size {
        return Err(Refusal::OutputSize);
    }
    let p = plain_front(rows.count, t, nullable, output);
    let wide = t.number() != INT32;
    let end = put_numbers(rows.count, wide, |i| rows.payload(i), p, output);
    Ok(end)
}

// The fields before the numbers, and the head of theirs.
pub(crate) fn plain_front(rows: usize, t: DataType, nullable: bool, output: &mut [u8]) -> usize
    requires { (rows ≤ 512) × (13 + values_size t rows 0 ≤ length output.old) }
    ensures { Wrote output.old 0 (plain_front t nullable (values_size t rows 0 - 3)) result output.new }
{
    let p = put_type(output, 0, t, nullable);
    let c = put_count(output, p, 0);
    let q = put_header(output, c, VALIDITY, 0);
    let size = values_size(rows, t, 0) - 3;
    put_header(output, q, VALUES, size)
}
