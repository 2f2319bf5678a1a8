// The entry of a column at a row, for every argument.
ghost use Rattle.std.specs.Prelude.{◌≡◌, ◌*◌};
ghost use Rattle.layout.specs.Bytes.{number_at};
ghost use Rattle.scalar.specs.declared.types.DataType.TheVariants.{Utf8};
ghost use Rattle.table.specs.Column.{valid_in};
ghost use Rattle.table.specs.declared.entry.EntryError.TheVariants.{Refused};
ghost use Rattle.table.specs.Answers.{text_between_value, value_in, entry_value, entry_at_places, entry_of_bytes};

use crate::places::{ColumnPlace, Table};
use crate::read::read;
use layout::bits::bit_at;
use layout::number::{read_u32, read_u64};
use layout::part::part_of;
use layout::refusal::Refusal;
use scalar::types::DataType;
use scalar::value::{Value, float_value};

// Why a table has no entry: no such column, no such row, or the table itself is refused.
#[derive(Clone, Copy, Debug, PartialEq, Eq)]
pub enum EntryError {
    NoColumn,
    NoRow,
    Refused(Refusal),
}

impl From<Refusal> for EntryError {
    ghost from_gives = { λ r e. e ≡ Refused r };

    fn from(refusal: Refusal) -> EntryError {
        EntryError::Refused(refusal)
    }
}

// Whether a row has a value: length 0 means no null.
pub fn valid_at(validity: &[u8], row: usize) -> bool
    ensures { result ≡ valid_in validity.now row }
{
    validity.is_empty() || bit_at(validity, row)
}

// A row's number of four bytes; behind the end it is 0. One for each width: a trait of the two numbers would be longer than both.
pub fn row_u32(values: &[u8], row: usize) -> u32
    ensures { result ≡ number_at 4 values.now (4 * row) }
{
    if values.len() >> 2 < row {
        return 0;
    }
    read_u32(values, 4 * row)
}

// A row's number of eight bytes; behind the end it is 0.
pub fn row_u64(values: &[u8], row: usize) -> u64
    ensures { result ≡ number_at 8 values.now (8 * row) }
{
    if values.len() >> 3 < row {
        return 0;
    }
    read_u64(values, 8 * row)
}

// The text between two offsets of the part from start to end, by its place in the whole of the bytes.
pub fn text_between(bytes: &[u8], start: usize, end: usize, from: usize, to: usize) -> Value
    ensures { result ≡ text_between_value bytes.now start end from to }
{
    let size = part_of(bytes, start, end).len();
    let last = to.min(size);
    if last <= from {
        return Value::TableText(0, 0);
    }
    Value::TableText(start + from, last - from)
}

// The text of a row.
fn text_at(bytes: &[u8], place: ColumnPlace, row: usize) -> Value
    ensures { result ≡ value_in Utf8 bytes.now place row }
{
    let offsets = part_of(bytes, place.offsets.start, place.offsets.end);
    if offsets.len() >> 2 < row {
        return Value::TableText(0, 0);
    }
    let from = row_u32(offsets, row) as usize;
    let to = row_u32(offsets, row + 1) as usize;
    text_between(bytes, place.values.start, place.values.end, from, to)
}

// The value of a row, whatever its validity.
fn value_at(bytes: &[u8], place: ColumnPlace, row: usize) -> Value
    ensures { result ≡ value_in place.data_type bytes.now place row }
{
    let values = part_of(bytes, place.values.start, place.values.end);
    let kind = place.data_type;
    match kind {
        DataType::Boolean => Value::Boolean(bit_at(values, row)),
        DataType::Int32 => Value::Int32(row_u32(values, row)),
        DataType::Int64 => Value::Int64(row_u64(values, row)),
        DataType::Float64 => float_value(row_u64(values, row)),
        DataType::Utf8 => text_at(bytes, place, row),
    }
}

// The entry of a row: null or its value.
pub fn entry_in(bytes: &[u8], place: ColumnPlace, row: usize) -> Value
    ensures { result ≡ entry_value bytes.now place row }
{
    let validity = part_of(bytes, place.validity.start, place.validity.end);
    if valid_at(validity, row) {
        value_at(bytes, place, row)
    } else {
        Value::Null
    }
}

// The entry of a column at a row of the table at the places, whether or not they lie in the bytes.
pub fn entry_at(bytes: &[u8], t: Table, column: usize, row: usize) -> Result<Value, EntryError>
    ensures { result ≡ entry_at_places bytes.now t column row }
{
    let Some(place) = t.column(column) else {
        return Err(EntryError::NoColumn);
    };
    if t.rows <= row {
        return Err(EntryError::NoRow);
    }
    Ok(entry_in(bytes, place, row))
}

// The entry of a column at a row of a table.
pub fn entry(bytes: &[u8], column: usize, row: usize) -> Result<Value, EntryError>
    ensures { result ≡ entry_of_bytes bytes.now column row }
{
    let t = read(bytes)?;
    entry_at(bytes, t, column, row)
}
