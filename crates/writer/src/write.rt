// The answer's column, written to the output: 15, 16 or 17 and nothing, or its bytes at the front.
ghost use Rattle.std.specs.Prelude.{◌≡◌, true, ◌++◌, suc, ◌+◌, ◌<◌, ◌≤◌, length};
ghost use Rattle.layout.specs.Bytes.{bitmap_length};
ghost use Rattle.layout.specs.Field.{field_bytes};
ghost use Rattle.layout.specs.Put.{Wrote};
ghost use Rattle.writer.specs.Slots.{slot_at};
ghost use Rattle.writer.specs.Write.{ColumnGives, WriteGives, WriteAsks, kind_fits, lengths_fit, slots_fit, writable, rows_run};
ghost use Rattle.writer.specs.Writing.{BitFieldWrote, ValidityWrote, some_of_kind, row_bytes, number_of, row_numbers, row_bits, row_text, row_offset, row_values, row_column, validity_size, values_size};

use crate::WriteError;
use crate::bitmap::put_bits;
use crate::plain::{plain_rows, write_plain};
use crate::put::{put_count, put_header, put_numbers, put_type};
use crate::rows::Rows;
use crate::texts::{put_offsets, put_texts, text_length};
use layout::bits::bitmap_length;
use layout::refusal::Refusal;
use scalar::types::DataType;
use scalar::value::{Value, float_bits, kind};

// Most rows, where their slots end, and most bytes of a rule and of a table.
pub(crate) const ROWS_MOST: usize = 512;

const SLOTS_END: usize = 5632;

const BYTES_MOST: usize = 65536;

// Most bytes of the answer's text.
const TEXT_MOST: usize = 65535;

// Kinds of a slot's value; the others are the types' numbers.
const NULL: u8 = 0;

const TABLE_TEXT: u8 = 6;

const FAILED: u8 = 7;

// The number of the type of texts.
const UTF8: u8 = 5;

// Tags of a column's fields behind the first.
pub(crate) const VALIDITY: u8 = 3;

pub(crate) const VALUES: u8 = 4;

const OFFSETS: u8 = 5;

// The answer at the front of the output, and its length; or 15, 16 or 17, or that the slots are no column of the type, and the output is unchanged.
pub fn write_answer(
    rule: &[u8],
    table: &[u8],
    work: &[u8],
    rows: usize,
    t: DataType,
    nullable: bool,
    output: &mut [u8],
) -> Result<usize, WriteError>
    ensures { ColumnGives (writable rule.now table.now work.now rows t) (rows_run rule.now table.now (slot_at work.now) rows t nullable (length output.old)) output.old result output.new }
{
    if !lengths_fit(rule, table, work, rows) {
        return Err(WriteError::NoColumn);
    }
    let all = &Rows {
        rule,
        table,
        work,
        count: rows,
    };
    if plain_rows(all, t) {
        return Ok(write_plain(all, t, nullable, output)?);
    }
    if !slots_fit(all, t.number()) {
        return Err(WriteError::NoColumn);
    }
    Ok(write_rows(all, t, nullable, output)?)
}

// Whether the rows have slots, and their texts can be counted.
fn lengths_fit(rule: &[u8], table: &[u8], work: &[u8], rows: usize) -> bool
    ensures { result ≡ lengths_fit rule.now table.now work.now rows }
{
    if ROWS_MOST < rows {
        return false;
    }
    if work.len() < SLOTS_END {
        return false;
    }
    if BYTES_MOST < rule.len() {
        return false;
    }
    table.len() <= BYTES_MOST
}

// Whether a column of the type with a number can have a value of a kind.
fn kind_fits(code: u8, k: u8) -> bool
    ensures { result ≡ kind_fits code k }
{
    if k == NULL {
        return true;
    }
    if k == FAILED {
        return true;
    }
    if k == TABLE_TEXT {
        return code == UTF8;
    }
    k == code
}

// Whether every row's slot has a value that a column of the type with a number can have.
fn slots_fit(rows: &Rows, code: u8) -> bool
    ensures { result ≡ slots_fit code rows.now.work.now rows.now.count }
{
    for i in 0..rows.count {
        if !kind_fits(code, kind(rows.value(i))) {
            return false;
        }
    }
    true
}

// The same of slots that are a column of the type: 15, 16, 17 or the answer.
fn write_rows(rows: &Rows, t: DataType, nullable: bool, output: &mut [u8]) -> Result<usize, Refusal>
    requires { WriteAsks rows.now.rule.now rows.now.table.now rows.now.work.now rows.now.count t }
    ensures { WriteGives rows.now.rule.now rows.now.table.now (slot_at rows.now.work.now) rows.now.count t nullable output.old result output.new }
{
    if some_of_kind(rows, FAILED) {
        return Err(Refusal::Cast);
    }
    let text = answer_text(rows, t);
    if TEXT_MOST < text {
        return Err(Refusal::TextSize);
    }
    let null = some_of_kind(rows, NULL);
    let size = column_size(rows.count, t, null, text);
    if output.len() < size {
        return Err(Refusal::OutputSize);
    }
    let end = put_column(rows, t, nullable, null, text, output);
    Ok(end)
}

// Whether some row's slot has a value of a kind.
fn some_of_kind(rows: &Rows, k: u8) -> bool
    ensures { result ≡ some_of_kind (slot_at rows.now.work.now) k rows.now.count }
{
    for i in 0..rows.count {
        if kind(rows.value(i)) == k {
            return true;
        }
    }
    false
}

// How long the answer's text is; only an answer of text has any.
fn answer_text(rows: &Rows, t: DataType) -> usize
    requires { WriteAsks rows.now.rule.now rows.now.table.now rows.now.work.now rows.now.count t }
    ensures { result ≡ length (row_bytes (row_text rows.now.rule.now rows.now.table.now (slot_at rows.now.work.now)) rows.now.count) }
{
    match t {
        DataType::Utf8 => text_length(rows),
        _ => 0,
    }
}

// How many bytes the validity takes.
fn validity_size(rows: usize, null: bool) -> usize
    ensures { result ≡ validity_size rows null }
{
    if null { bitmap_length(rows) } else { 0 }
}

// How many bytes tag 4 takes, with tag 5 where the column is of text.
pub(crate) fn values_size(rows: usize, t: DataType, text: usize) -> usize
    requires { (rows ≤ 512) × (text ≤ 65535) }
    ensures { result ≡ values_size t rows text }
{
    match t {
        DataType::Boolean => 3 + bitmap_length(rows),
        DataType::Int32 => 3 + 4 * rows,
        DataType::Int64 | DataType::Float64 => 3 + 8 * rows,
        DataType::Utf8 => 10 + 4 * rows + text,
    }
}

// How many bytes the answer takes.
pub(crate) fn column_size(rows: usize, t: DataType, null: bool, text: usize) -> usize
    requires { (rows ≤ 512) × (text ≤ 65535) }
    ensures { result ≡ 13 + validity_size rows null + values_size t rows text }
{
    13 + validity_size(rows, null) + values_size(rows, t, text)
}

// A field of the rows' bits, and how many of them are set.
fn put_bit_field(rows: &Rows, truth: bool, tag: u8, at: usize, output: &mut [u8]) -> usize
    requires { at + 3 + bitmap_length rows.now.count ≤ length output.old }
    ensures { BitFieldWrote tag truth (slot_at rows.now.work.now) rows.now.count output.old at result output.new }
{
    let p = put_header(output, at, tag, bitmap_length(rows.count));
    put_bits(rows, truth, p, output)
}

// A field of the rows' truths.
fn put_truth_field(rows: &Rows, at: usize, output: &mut [u8]) -> usize
    requires { at + 3 + bitmap_length rows.now.count ≤ length output.old }
    ensures { Wrote output.old at (field_bytes 4 (row_bytes (row_bits true (slot_at rows.now.work.now) rows.now.count) (bitmap_length rows.now.count))) result output.new }
{
    let _set = put_bit_field(rows, true, VALUES, at, output);
    at + 3 + bitmap_length(rows.count)
}

// The number of a value; 0 where it is none.
fn number_of(v: Value) -> u64
    ensures { result ≡ number_of v }
{
    match v {
        Value::Int32(n) => n as u64,
        Value::Int64(n) | Value::Nan(n) => n,
        Value::Float64(f) => float_bits(f),
        _ => 0,
    }
}

// A field of the rows' numbers.
fn put_number_field(rows: &Rows, wide: bool, size: usize, at: usize, output: &mut [u8]) -> usize
    requires { (size ≡ length (row_bytes (row_numbers wide (slot_at rows.now.work.now)) rows.now.count)) × (size < 65536) × (at + 3 + size ≤ length output.old) }
    ensures { Wrote output.old at (field_bytes 4 (row_bytes (row_numbers wide (slot_at rows.now.work.now)) rows.now.count)) result output.new }
{
    let p = put_header(output, at, VALUES, size);
    put_numbers(rows.count, wide, |i| number_of(rows.value(i)), p, output)
}

// The fields of the rows' offsets and of their texts.
fn put_text_fields(rows: &Rows, text: usize, at: usize, output: &mut [u8]) -> usize
    requires { (text ≡ length (row_bytes (row_text rows.now.rule.now rows.now.table.now (slot_at rows.now.work.now)) rows.now.count)) × (text ≤ 65535) × (at + values_size DataType.Utf8 rows.now.count text ≤ length output.old) }
    ensures { Wrote output.old at (field_bytes 5 (row_bytes (row_offset rows.now.rule.now rows.now.table.now (slot_at rows.now.work.now)) (suc rows.now.count)) ++ field_bytes 4 (row_bytes (row_text rows.now.rule.now rows.now.table.now (slot_at rows.now.work.now)) rows.now.count)) result output.new }
{
    let p = put_header(output, at, OFFSETS, 4 * rows.count + 4);
    let q = put_offsets(rows, p, output);
    let s = put_header(output, q, VALUES, text);
    put_texts(rows, s, output)
}

// Tag 3: the bits of validity where some row is null, else nothing; and how many rows are null.
fn put_validity(rows: &Rows, null: bool, at: usize, output: &mut [u8]) -> usize
    requires { (null ≡ some_of_kind (slot_at rows.now.work.now) 0 rows.now.count) × (at + 3 + validity_size rows.now.count null ≤ length output.old) }
    ensures { ValidityWrote null (slot_at rows.now.work.now) rows.now.count output.old at result output.new }
{
    if null {
        return rows.count - put_bit_field(rows, false, VALIDITY, at, output);
    }
    let _end = put_header(output, at, VALIDITY, 0);
    0
}

// Tag 4, and before it tag 5 where the column is of text.
fn put_values(rows: &Rows, t: DataType, text: usize, at: usize, output: &mut [u8]) -> usize
    requires { (text ≡ length (row_bytes (row_text rows.now.rule.now rows.now.table.now (slot_at rows.now.work.now)) rows.now.count)) × (text ≤ 65535) × (at + values_size t rows.now.count text ≤ length output.old) }
    ensures { Wrote output.old at (row_values rows.now.rule.now rows.now.table.now (slot_at rows.now.work.now) rows.now.count t) result output.new }
{
    match t {
        DataType::Boolean => put_truth_field(rows, at, output),
        DataType::Int32 => put_number_field(rows, false, 4 * rows.count, at, output),
        DataType::Int64 | DataType::Float64 => {
            put_number_field(rows, true, 8 * rows.count, at, output)
        },
        DataType::Utf8 => put_text_fields(rows, text, at, output),
    }
}

// The whole column. The null count, which stands before the validity, is known once the validity is written.
fn put_column(
    rows: &Rows,
    t: DataType,
    nullable: bool,
    null: bool,
    text: usize,
    output: &mut [u8],
) -> usize
    requires { (text ≡ length (row_bytes (row_text rows.now.rule.now rows.now.table.now (slot_at rows.now.work.now)) rows.now.count)) × (text ≤ 65535) × (null ≡ some_of_kind (slot_at rows.now.work.now) 0 rows.now.count) × (13 + validity_size rows.now.count null + values_size t rows.now.count text ≤ length output.old) }
    ensures { Wrote output.old 0 (row_column rows.now.rule.now rows.now.table.now (slot_at rows.now.work.now) rows.now.count t nullable null) result output.new }
{
    let p = put_type(output, 0, t, nullable);
    let nulls = put_validity(rows, null, p + 5, output);
    let q = put_count(output, p, nulls);
    let s = q + 3 + validity_size(rows.count, null);
    put_values(rows, t, text, s, output)
}
