// Reading a table: tag 1, the row count, then the columns.
ghost use Rattle.std.specs.Prelude.{◌≡◌, ◌≤◌, length, drop};
ghost use Rattle.table.specs.Reading.{read_table};
ghost use Rattle.table.specs.Places.{table_answer_from, table_answer};
ghost use Rattle.table.specs.Parts.{one_more, columns_step};

use crate::column::{column_at, no_place};
use crate::part::tagged_pair;
use crate::places::Table;
use layout::number::read_u16;
use layout::refusal::Refusal;

// Most bytes of a table, its rows and its columns.
const BYTES_MOST: usize = 65536;

pub(crate) const ROWS_MOST: usize = 512;

const COLUMNS_MOST: usize = 16;

// Bytes behind the last column that a table may have: 10 if a column starts there, else 9.
fn one_more(bytes: &[u8], at: usize) -> Result<Table, Refusal>
    ensures { result ≡ table_answer (one_more (drop at bytes.now)) }
{
    tagged_pair(bytes, at, 2)?;
    Err(Refusal::TableSize)
}

// The columns from a place to the end of the bytes, at most 16.
fn columns_from(bytes: &[u8], first: usize, rows: usize) -> Result<Table, Refusal>
    requires { (rows ≤ 512) × (first ≤ length bytes.now) }
    ensures { result ≡ table_answer_from first (columns_step rows (drop first bytes.now)) }
{
    let mut columns = [no_place(); 16];
    let mut count = 0;
    let mut at = first;
    // Not a `for`: the next column begins where this one ends.
    while at < bytes.len() {
        if count == COLUMNS_MOST {
            return one_more(bytes, at);
        }
        let column = column_at(bytes, at, rows)?;
        columns[count] = column.place;
        count += 1;
        at = column.next;
    }
    Ok(Table {
        rows,
        count,
        columns,
    })
}

// Where the parts of a table stand, or the refusal of it.
pub fn read(bytes: &[u8]) -> Result<Table, Refusal>
    ensures { result ≡ table_answer (read_table bytes.now) }
{
    if bytes.is_empty() {
        return Err(Refusal::TableFields);
    }
    if BYTES_MOST < bytes.len() {
        return Err(Refusal::TableFields);
    }
    let first = tagged_pair(bytes, 0, 1)?;
    let rows = read_u16(&bytes[first.start..first.end], 0) as usize;
    if ROWS_MOST < rows {
        return Err(Refusal::TableSize);
    }
    columns_from(bytes, first.end, rows)
}
