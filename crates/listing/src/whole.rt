// The whole listing of an answer, and of a run.
ghost use Rattle.std.specs.Prelude.{◌≡◌, ◌+◌, ◌≤◌, length};
ghost use Rattle.layout.specs.Put.{Wrote};
ghost use Rattle.table.specs.Column.{entry_at};
ghost use Rattle.table.specs.Places.{column_in};
ghost use Rattle.table.specs.Reading.{read_alone};
ghost use Rattle.listing.specs.Listing.{row_line, column_lines, listing, listing_most};
ghost use Rattle.listing.specs.Putting.{Put, Listed};

use crate::digits::decimal_places;
use crate::entry::shown_size;
use crate::line::{put_refused, write_head, write_row};
use crate::put::room;
use crate::shown::show;
use case::evaluate::evaluate;
use layout::part::part_of;
use table::alone::read_alone;
use table::entry::entry_in;
use table::places::ColumnPlace;
use table::read::read;

// The longest listing of an answer: 512 rows, and 65,535 bytes of text.
pub const LISTING_MOST: usize = 144409;

// The listing of the one column of so many rows that the bytes are, at a place: the head line and each row's in order, or the refusal's.
pub fn put_column(bytes: &[u8], rows: usize, at: usize, out: &mut [u8]) -> Option<usize>
    ensures { Put out.old at (listing rows (read_alone rows bytes.now)) result out.new }
{
    let place = match read_alone(bytes, rows) {
        Ok(place) => place,
        Err(refusal) => return put_refused(refusal, at, out),
    };
    let size = lines_size(bytes, place, rows);
    if !room(out.len(), at, size) {
        return None;
    }
    Some(write_lines(bytes, place, rows, at, out))
}

// Evaluates a rule over a table in the lent work buffer and output, and puts the listing of the run at the front of the last buffer.
pub fn put_listing(
    rule: &[u8],
    table: &[u8],
    work: &mut [u8],
    output: &mut [u8],
    out: &mut [u8],
) -> Option<usize>
    ensures { Listed rule.now table.now work.old output.old out.old result work.new output.new out.new }
{
    match evaluate(rule, table, work, output) {
        Ok(size) => {
            let places = read(table).unwrap();
            put_column(part_of(output, 0, size), places.rows, 0, out)
        }
        Err(refusal) => put_refused(refusal, 0, out),
    }
}

// How many bytes the line of a row has.
fn row_size(bytes: &[u8], place: ColumnPlace, row: usize) -> usize
    requires { length (row_line row (entry_at (column_in bytes.now place) row)) ≤ listing_most }
    ensures { result ≡ length (row_line row (entry_at (column_in bytes.now place) row)) }
{
    let k = decimal_places(row as u64);
    let s = show(entry_in(bytes, place, row));
    k + 2 + shown_size(bytes, s)
}

// How many bytes the head line and the lines of the rows have.
fn lines_size(bytes: &[u8], place: ColumnPlace, rows: usize) -> usize
    requires { length (column_lines (column_in bytes.now place) rows) ≤ listing_most }
    ensures { result ≡ length (column_lines (column_in bytes.now place) rows) }
{
    let mut size = decimal_places(rows as u64) + 24;
    for row in 0..rows {
        size += row_size(bytes, place, row);
    }
    size
}

// The head line and the lines of the rows, where they fit.
fn write_lines(bytes: &[u8], place: ColumnPlace, rows: usize, at: usize, out: &mut [u8]) -> usize
    requires { at + length (column_lines (column_in bytes.now place) rows) ≤ length out.old }
    ensures { Wrote out.old at (column_lines (column_in bytes.now place) rows) result out.new }
{
    let kind = place.data_type;
    let mut p = write_head(rows, kind, place.nullable, at, out);
    for row in 0..rows {
        let s = show(entry_in(bytes, place, row));
        p = write_row(bytes, s, row, p, out);
    }
    p
}
