// The rows' texts: how long they are, and they and their offsets put at a place of the output.
ghost use Rattle.std.specs.Prelude.{◌≡◌, suc, ◌+◌, ◌≤◌, length};
ghost use Rattle.layout.specs.Put.{Wrote};
ghost use Rattle.writer.specs.Slots.{slot_at};
ghost use Rattle.writer.specs.Writing.{row_bytes, row_text, row_offset};

use crate::put::{put_bytes, put_number};
use crate::rows::Rows;

// How long the rows' texts are in all.
pub(crate) fn text_length(rows: &Rows) -> usize
    ensures { result ≡ length (row_bytes (row_text rows.now.rule.now rows.now.table.now (slot_at rows.now.work.now)) rows.now.count) }
{
    let mut sum: usize = 0;
    for i in 0..rows.count {
        sum += rows.text(i).len();
    }
    sum
}

// Where the text of each row begins, and where the last ends.
pub(crate) fn put_offsets(rows: &Rows, at: usize, output: &mut [u8]) -> usize
    requires { (length (row_bytes (row_text rows.now.rule.now rows.now.table.now (slot_at rows.now.work.now)) rows.now.count) ≤ 65535) × (at + length (row_bytes (row_offset rows.now.rule.now rows.now.table.now (slot_at rows.now.work.now)) (suc rows.now.count)) ≤ length output.old) }
    ensures { Wrote output.old at (row_bytes (row_offset rows.now.rule.now rows.now.table.now (slot_at rows.now.work.now)) (suc rows.now.count)) result output.new }
{
    let mut sum: usize = 0;
    let mut p = at;
    for i in 0..rows.count {
        p = put_number(output, p, false, sum as u64);
        sum += rows.text(i).len();
    }
    put_number(output, p, false, sum as u64)
}

// The rows' texts.
pub(crate) fn put_texts(rows: &Rows, at: usize, output: &mut [u8]) -> usize
    requires { at + length (row_bytes (row_text rows.now.rule.now rows.now.table.now (slot_at rows.now.work.now)) rows.now.count) ≤ length output.old }
    ensures { Wrote output.old at (row_bytes (row_text rows.now.rule.now rows.now.table.now (slot_at rows.now.work.now)) rows.now.count) result output.new }
{
    let mut p = at;
    for i in 0..rows.count {
        p = put_bytes(output, p, rows.text(i));
    }
    p
}
