// The entries of a column in the slots of the listed rows.
ghost use Rattle.std.specs.Prelude.{◌≡◌, ℕ, ◌^◌, ◌<◌, List, length, if◌then◌else◌};
ghost use Rattle.layout.specs.Bytes.{part};
ghost use Rattle.scalar.specs.Entry.{Entry, entry};
ghost use Rattle.scalar.specs.Types.{type_number};
ghost use Rattle.scalar.specs.Value.{meaning, Storable};
ghost use Rattle.rule.specs.Row.{is_true_test, chosen};
ghost use Rattle.table.specs.Column.{valid_in, entry_at};
ghost use Rattle.table.specs.Parts.{ValueGives};
ghost use Rattle.table.specs.Places.{column_in};
ghost use Rattle.case.specs.Frame.{Fillable, Filled};
ghost use Rattle.case.specs.Taking.{EntryRight, ColumnRight};
ghost use Rattle.case.specs.ColumnSlots.{PayloadRight, NumberRight, text_entry, TextRight};

use crate::rows::{fill_rows, map_rows, row_at};
use crate::slot::put_parts;
use crate::truth::{Truth, truth_of};
use layout::bits::bit_at;
use layout::part::part_of;
use scalar::types::DataType;
use scalar::value::Value;
use table::entry::{entry_in, row_u32, row_u64, text_between, valid_at};
use table::places::ColumnPlace;

// A column's entry in the slot of each listed row.
pub(crate) fn fill_column(table: &[u8], place: ColumnPlace, work: &mut [u8], n: usize)
    requires fillable { Fillable work.old n }
    requires table_len_bound { length table.now < 2 ^ 32 }
    ensures { Filled (EntryRight table.now place) work.old n work.new }
{
    let kind = place.data_type;
    let validity = part_of(table, place.validity.start, place.validity.end);
    match kind {
        DataType::Utf8 => {
            let offsets = part_of(table, place.offsets.start, place.offsets.end);
            fill_texts(
                table,
                validity,
                offsets,
                place.values.start,
                place.values.end,
                work,
                n,
            );
        }
        _ => {
            let values = part_of(table, place.values.start, place.values.end);
            fill_numbers(validity, values, kind, work, n);
        }
    }
}

// The kind of a row's entry: its type's number, or that of null.
fn kind_at(validity: &[u8], kind: DataType, row: usize) -> u8
    ensures { result ≡ (if valid_in validity.now row then type_number kind else 0) }
{
    if valid_at(validity, row) {
        kind.number()
    } else {
        0
    }
}

// The payload of a row's value, of any type but text.
fn payload_at(values: &[u8], kind: DataType, row: usize) -> u64
    ensures { PayloadRight kind values.now row result }
{
    match kind {
        DataType::Boolean => u64::from(bit_at(values, row)),
        DataType::Int32 => row_u32(values, row) as u64,
        DataType::Int64 => row_u64(values, row),
        DataType::Float64 => row_u64(values, row),
        DataType::Utf8 => 0,
    }
}

// The entry of a column, of any type but text, in the slot of each listed row. A null's payload is of no account.
fn fill_numbers(validity: &[u8], values: &[u8], kind: DataType, work: &mut [u8], n: usize)
    requires { Fillable work.old n }
    ensures { Filled (NumberRight kind validity.now values.now) work.old n work.new }
{
    for i in 0..n {
        let r = row_at(work, 0, i);
        let k = kind_at(validity, kind, r);
        let p = payload_at(values, kind, r);
        put_parts(work, r, k, p);
    }
}

// The text of a row, or null, by its place in the table.
fn text_in(
    table: &[u8],
    validity: &[u8],
    offsets: &[u8],
    start: usize,
    end: usize,
    row: usize,
) -> Value
    requires { row < 512 }
    ensures { ValueGives table.now (text_entry validity.now offsets.now (part table.now start end) row) result }
{
    if valid_at(validity, row) {
        let from = row_u32(offsets, row) as usize;
        let to = row_u32(offsets, row + 1) as usize;
        return text_between(table, start, end, from, to);
    }
    Value::Null
}

// The text of a column in the slot of each listed row; the values stand between two places of the table.
fn fill_texts(
    table: &[u8],
    validity: &[u8],
    offsets: &[u8],
    start: usize,
    end: usize,
    work: &mut [u8],
    n: usize,
)
    requires fillable { Fillable work.old n }
    requires table_len_bound { length table.now < 2 ^ 32 }
    ensures { Filled (TextRight table.now validity.now offsets.now (part table.now start end)) work.old n work.new }
{
    fill_rows(
        work,
        n,
        |row| text_in(table, validity, offsets, start, end, row),
    );
}

// A column's entry at a row where the test is true, null elsewhere; where it failed, it stays so.
fn entry_or_null(table: &[u8], place: ColumnPlace, row: usize, test: Value) -> Value
    requires { length table.now < 2 ^ 32 }
    ensures { ((rule : List ℕ) → meaning rule table.now result ≡ chosen is_true_test (meaning rule table.now test) (entry (entry_at (column_in table.now place) row)) (entry Entry.null)) × Storable result }
{
    match truth_of(test) {
        Truth::Yes => entry_in(table, place, row),
        Truth::No => Value::Null,
        Truth::Unfit => Value::Failed,
    }
}

// A column's entry in the slot of each listed row where it is true, null elsewhere; where it failed, it stays so.
pub(crate) fn column_or_null(table: &[u8], place: ColumnPlace, work: &mut [u8], n: usize)
    requires fillable { Fillable work.old n }
    requires table_len_bound { length table.now < 2 ^ 32 }
    ensures { Filled (ColumnRight table.now place work.old) work.old n work.new }
{
    map_rows(
        work,
        0,
        n,
        |test, row| entry_or_null(table, place, row, test),
    );
}
