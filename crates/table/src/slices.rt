// The validity, the offsets and the values of a column, as parts of the table's bytes, and its null count.
ghost use Rattle.std.specs.Prelude.{◌≡◌, get_or, take};
ghost use Rattle.table.specs.Places.{no_place, part_in, null_count_in};

use crate::column::no_place;
use crate::places::{ColumnPlace, Table};
use layout::part::part_of;

// The place of a column; of no column, no place.
pub(crate) fn place_of(t: Table, column: usize) -> ColumnPlace
    ensures { result ≡ get_or (take t.count t.columns) column no_place }
{
    t.column(column).unwrap_or(no_place())
}

// The validity bits of a column; empty where there is no such column or no null in it.
pub fn validity(bytes: &[u8], t: Table, column: usize) -> &[u8]
    ensures { result.now ≡ part_in (λ c. c.validity) bytes.now t column }
{
    let place = place_of(t, column);
    part_of(bytes, place.validity.start, place.validity.end)
}

// The offsets of a column; empty where there is no such column or it isn't of text.
pub fn offsets(bytes: &[u8], t: Table, column: usize) -> &[u8]
    ensures { result.now ≡ part_in (λ c. c.offsets) bytes.now t column }
{
    let place = place_of(t, column);
    part_of(bytes, place.offsets.start, place.offsets.end)
}

// The values of a column; empty where there is no such column.
pub fn values(bytes: &[u8], t: Table, column: usize) -> &[u8]
    ensures { result.now ≡ part_in (λ c. c.values) bytes.now t column }
{
    let place = place_of(t, column);
    part_of(bytes, place.values.start, place.values.end)
}

// How many rows of a column are null; 0 where there is no such column.
pub fn null_count_in(t: Table, column: usize) -> usize
    ensures { result ≡ null_count_in t column }
{
    let place = place_of(t, column);
    place.null_count as usize
}
