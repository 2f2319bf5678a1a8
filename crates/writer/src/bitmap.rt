// The rows' bits, of validity or of Booleans, put at a place of the output.
ghost use Rattle.std.specs.Prelude.{◌≡◌, cond, ◌+◌, ◌*◌, ◌<◌, ◌≤◌, length};
ghost use Rattle.layout.specs.Bytes.{bitmap_length};
ghost use Rattle.writer.specs.Slots.{slot_at};
ghost use Rattle.writer.specs.Writing.{BitsWrote, row_bytes, true_of, flag_of, flag_at, bits_from, row_bits};

use crate::put::put_byte;
use crate::rows::Rows;
use layout::bits::{bitmap_length, ones_in};
use scalar::value::{Value, kind};

// Whether a value is true.
fn is_true(v: Value) -> bool
    ensures { result ≡ true_of v }
{
    match v {
        Value::Boolean(b) => b,
        _ => false,
    }
}

// A value's bit: whether it is true, or whether it is not null.
fn flag(truth: bool, v: Value) -> bool
    ensures { result ≡ flag_of truth v }
{
    if truth { is_true(v) } else { kind(v) != 0 }
}

// A row's bit; behind the last row it is 0.
fn bit(rows: &Rows, truth: bool, row: usize) -> usize
    ensures { result ≡ cond (flag_at truth (slot_at rows.now.work.now) rows.now.count row) 1 0 }
{
    if row < rows.count {
        if flag(truth, rows.value(row)) {
            return 1;
        }
    }
    0
}

// The byte of eight rows' bits.
fn bits_byte(rows: &Rows, truth: bool, j: usize) -> u8
    requires { j < 64 }
    ensures { result ≡ bits_from (flag_at truth (slot_at rows.now.work.now) rows.now.count) (8 * j) 8 }
{
    let mut n: usize = 0;
    for k in (0..8).rev() {
        n = bit(rows, truth, 8 * j + k) + 2 * n;
    }
    n as u8
}

// The bitmap of the rows' bits, and how many of them are set.
pub(crate) fn put_bits(rows: &Rows, truth: bool, at: usize, output: &mut [u8]) -> usize
    requires { at + length (row_bytes (row_bits truth (slot_at rows.now.work.now) rows.now.count) (bitmap_length rows.now.count)) ≤ length output.old }
    ensures { BitsWrote truth (slot_at rows.now.work.now) rows.now.count output.old at result output.new }
{
    let mut p = at;
    let mut set = 0;
    for j in 0..bitmap_length(rows.count) {
        let b = bits_byte(rows, truth, j);
        p = put_byte(output, p, b);
        set += ones_in(b);
    }
    set
}
