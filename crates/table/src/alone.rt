// Reading one column that is the whole of the bytes, as the answer of a run is.
ghost use Rattle.std.specs.Prelude.{◌≡◌};
ghost use Rattle.table.specs.Reading.{read_alone};
ghost use Rattle.table.specs.Places.{alone_answer};

use crate::column::{column_parts, count_right};
use crate::places::ColumnPlace;
use crate::read::ROWS_MOST;
use layout::refusal::Refusal;

// Where the parts of the one column of so many rows stand, or the refusal of it: above 512 rows 10, a null count of another length or value 25,
// bytes behind the column 9.
pub fn read_alone(bytes: &[u8], rows: usize) -> Result<ColumnPlace, Refusal>
    ensures { result ≡ alone_answer rows (read_alone rows bytes.now) }
{
    if ROWS_MOST < rows {
        return Err(Refusal::TableSize);
    }
    let column = column_parts(bytes, 0, rows)?;
    if !count_right(bytes, 0, column.place) {
        return Err(Refusal::NullCount);
    }
    if column.next < bytes.len() {
        return Err(Refusal::TableFields);
    }
    Ok(column.place)
}
