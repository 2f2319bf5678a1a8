// A column: type and nullable mark, null count, validity, offsets, values.
ghost use Rattle.std.specs.Prelude.{◌≡◌, ◌+◌, ◌≤◌, length, drop};
ghost use Rattle.layout.specs.Result.{answered};
ghost use Rattle.scalar.specs.Types.{type_numbered, mark_numbered};
ghost use Rattle.table.specs.Places.{no_place};
ghost use Rattle.table.specs.Reading.{read_parts, read_column};
ghost use Rattle.table.specs.Parts.{head_answer, place_nulls_fit, place_count_right, end_answer};

use crate::nulls::{count_says, null_count};
use crate::part::{
    count_part, offsets_part, tagged_pair, validity_part, values_length, values_part,
};
use crate::places::{ColumnPlace, Part};
use layout::number::byte_at;
use layout::part::part_of;
use layout::refusal::Refusal;
use scalar::types::DataType;

// The places of a column and where the bytes behind it start.
#[derive(Clone, Copy, Debug, PartialEq, Eq)]
pub(crate) struct ColumnRead {
    pub(crate) place: ColumnPlace,
    pub(crate) next: usize,
}

// The place of no column.
pub(crate) fn no_place() -> ColumnPlace
    ensures { result ≡ no_place }
{
    let none = Part { start: 0, end: 0 };
    ColumnPlace {
        data_type: DataType::Boolean,
        nullable: false,
        counted: false,
        null_count: 0,
        validity: none,
        offsets: none,
        values: none,
    }
}

// The type of a number, else 11.
fn typed(number: u8) -> Result<DataType, Refusal>
    ensures { result ≡ answered (λ t. t) (type_numbered 11 number) }
{
    DataType::numbered(number).ok_or(Refusal::TableContent)
}

// A nullable mark: 0 or 1, else 11.
fn marked(mark: u8) -> Result<bool, Refusal>
    ensures { result ≡ answered (λ b. b) (mark_numbered 11 mark) }
{
    if 1 < mark {
        return Err(Refusal::TableContent);
    }
    Ok(mark == 1)
}

// A column, whatever its nulls.
pub(crate) fn column_parts(bytes: &[u8], at: usize, rows: usize) -> Result<ColumnRead, Refusal>
    requires { rows ≤ 512 }
    ensures { result ≡ head_answer rows (at + 5) (read_parts rows (drop at bytes.now)) }
{
    let head = tagged_pair(bytes, at, 2)?;
    let pair = &bytes[head.start..head.end];
    let data_type = typed(byte_at(pair, 0))?;
    let nullable = marked(byte_at(pair, 1))?;
    let count = count_part(bytes, head.end)?;
    let validity = validity_part(bytes, count.end, rows)?;
    let offsets = offsets_part(bytes, validity.end, data_type, rows)?;
    let size = values_length(data_type, rows, &bytes[offsets.start..offsets.end]);
    let values = values_part(bytes, offsets.end, size)?;
    let place = ColumnPlace {
        data_type,
        nullable,
        counted: count.start != head.end,
        null_count: null_count(&bytes[validity.start..validity.end], rows) as u16,
        validity,
        offsets,
        values,
    };
    Ok(ColumnRead {
        place,
        next: values.end,
    })
}

// Whether a column is nullable or has no null.
fn nulls_fit(place: ColumnPlace) -> bool
    ensures { result ≡ place_nulls_fit place }
{
    place.nullable || place.null_count == 0
}

// Whether the null count of a column that starts at a place is the number of its nulls, or isn't written.
pub(crate) fn count_right(bytes: &[u8], at: usize, place: ColumnPlace) -> bool
    requires { at + 8 ≤ length bytes.now }
    ensures { result ≡ place_count_right bytes.now at place }
{
    if !place.counted {
        return true;
    }
    let start = place.validity.start;
    if start < 3 {
        return false;
    }
    count_says(part_of(bytes, at + 8, start - 3), place.null_count as usize)
}

// What a column is refused with at its end: 12 comes before 25.
fn ended(fits: bool, right: bool) -> Result<(), Refusal>
    ensures { result ≡ end_answer fits right }
{
    if !fits {
        return Err(Refusal::TableNull);
    }
    if !right {
        return Err(Refusal::NullCount);
    }
    Ok(())
}

// A column: a null in one that isn't nullable is 12, then a null count of another length or value 25.
pub(crate) fn column_at(bytes: &[u8], at: usize, rows: usize) -> Result<ColumnRead, Refusal>
    requires { rows ≤ 512 }
    ensures { result ≡ head_answer rows (at + 5) (read_column rows (drop at bytes.now)) }
{
    let column = column_parts(bytes, at, rows)?;
    let place = column.place;
    ended(nulls_fit(place), count_right(bytes, at, place))?;
    Ok(column)
}
