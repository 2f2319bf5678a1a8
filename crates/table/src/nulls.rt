// How many rows of a column are null.
ghost use Rattle.std.specs.Prelude.{◌≡◌, ◌≤◌};
ghost use Rattle.std.proofs.Math.Option.{some};
ghost use Rattle.table.specs.Answers.{null_count_of};
ghost use Rattle.table.specs.Column.{null_count};
ghost use Rattle.table.specs.Reading.{count_says, read_table};

use crate::read::read;
use layout::bits::set_bits;
use layout::number::read_u16;
use layout::refusal::Refusal;

// How many of the first rows are null: length 0 means none.
pub fn null_count(validity: &[u8], rows: usize) -> usize
    ensures { (result ≡ null_count validity.now rows) × (result ≤ rows) }
{
    if validity.is_empty() {
        return 0;
    }
    rows - set_bits(validity, rows)
}

// Whether the content of tag 6 is two bytes that say a number.
pub(crate) fn count_says(content: &[u8], n: usize) -> bool
    ensures { result ≡ count_says (some content.now) n }
{
    if content.len() != 2 {
        return false;
    }
    read_u16(content, 0) as usize == n
}

// How many rows of a column of a table are null; of no column none says.
pub fn column_null_count(bytes: &[u8], column: usize) -> Result<Option<usize>, Refusal>
    ensures { result ≡ null_count_of (read_table bytes.now) column }
{
    let t = read(bytes)?;
    Ok(t.column(column).map(|place| place.null_count as usize))
}
