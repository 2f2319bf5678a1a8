// The numbers by which the values of a column are compared.
ghost use Rattle.std.specs.Prelude.{◌*◌, ◌≤◌, length};
ghost use Rattle.scalar.specs.declared.types.DataType.TheVariants.{Int32, Int64, Float64};
ghost use Rattle.case.specs.Steps.{KeyAt, KeysAt};

use crate::rows::ROWS_MOST;
use crate::slot::{long, word};
use layout::bits::bit_at;
use scalar::negative::sign_turned;
use scalar::order::{float_key, int32_key};
use scalar::types::DataType;
use std::num::wrapping_add_u64;
use table::entry::{row_u32, row_u64};

// The number by which a row's value is compared.
fn key_at(kind: DataType, values: &[u8], row: usize) -> u64
    ensures { KeyAt kind values.now row result }
{
    match kind {
        DataType::Boolean => if bit_at(values, row) { 1 } else { 0 },
        DataType::Int32 => int32_key(row_u32(values, row)),
        DataType::Int64 => sign_turned(row_u64(values, row)),
        DataType::Float64 => float_key(row_u64(values, row)),
        DataType::Utf8 => 0,
    }
}

// The numbers of the first rows of Int32, all of them there.
fn int32_keys(values: &[u8], rows: usize, keys: &mut [u64; ROWS_MOST])
    requires { (rows ≤ 512) × (4 * rows ≤ length values.now) }
    ensures { KeysAt Int32 values.now rows keys.new }
{
    for i in 0..rows {
        keys[i] = (word(values, 4 * i) + 0x8000_0000) % 0x1_0000_0000;
    }
}

// The numbers of the first rows of Int64, all of them there.
fn int64_keys(values: &[u8], rows: usize, keys: &mut [u64; ROWS_MOST])
    requires { (rows ≤ 512) × (8 * rows ≤ length values.now) }
    ensures { KeysAt Int64 values.now rows keys.new }
{
    for i in 0..rows {
        keys[i] = wrapping_add_u64(long(values, 8 * i), 0x8000_0000_0000_0000);
    }
}

// The numbers of the first rows of any type but text, also where some are not there.
fn cut_keys(kind: DataType, values: &[u8], rows: usize, keys: &mut [u64; ROWS_MOST])
    requires { rows ≤ 512 }
    ensures { KeysAt kind values.now rows keys.new }
{
    for i in 0..rows {
        keys[i] = key_at(kind, values, i);
    }
}

// The number of each of the first rows of a column of any type but text.
pub(crate) fn column_keys(kind: DataType, values: &[u8], rows: usize, keys: &mut [u64; ROWS_MOST])
    requires { rows ≤ 512 }
    ensures { KeysAt kind values.now rows keys.new }
{
    match kind {
        DataType::Int32 => {
            if 4 * rows <= values.len() {
                int32_keys(values, rows, keys);
                return;
            }
        }
        DataType::Int64 => {
            if 8 * rows <= values.len() {
                int64_keys(values, rows, keys);
                return;
            }
        }
        _ => {}
    }
    cut_keys(kind, values, rows, keys);
}
