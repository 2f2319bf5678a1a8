// The answer's column of rows that each have the number of a class: 17 and nothing, or its bytes at the front of the output.
ghost use Rattle.std.specs.Prelude.{◌≡◌, List, ℕ, ◌≤◌, length};
ghost use Rattle.writer.specs.Write.{ColumnGives, WriteGives, ClassesAsk, class_value, classes_long, number_type, classes_in, classed, rows_run};

use crate::WriteError;
use crate::plain::{FLOAT64, INT32, plain_front};
use crate::put::put_numbers;
use crate::write::{ROWS_MOST, column_size};
use layout::refusal::Refusal;
use scalar::types::DataType;

// How many classes have a number.
const CLASSES: usize = 258;

// The answer at the front of the output, and its length, of rows that each have the number of their class; or 17, or that they are no column of
// the type, and the output is unchanged.
pub fn write_classes(
    rows: usize,
    t: DataType,
    nullable: bool,
    classes: &[u16],
    payloads: &[u64],
    output: &mut [u8],
) -> Result<usize, WriteError>
    ensures { (rule table : List ℕ) → ColumnGives (classed rows t classes.now payloads.now) (rows_run rule table (class_value t classes.now payloads.now) rows t nullable (length output.old)) output.old result output.new }
{
    if !classes_fit(rows, t, classes, payloads) {
        return Err(WriteError::NoColumn);
    }
    Ok(write_classed(rows, t, nullable, classes, payloads, output)?)
}

// Whether the type is one of numbers, and every row's class has a number.
fn classes_fit(rows: usize, t: DataType, classes: &[u16], payloads: &[u64]) -> bool
    ensures { result ≡ classed rows t classes.now payloads.now }
{
    if !classes_long(rows, classes, payloads) {
        return false;
    }
    if !number_type(t.number()) {
        return false;
    }
    classes_in(rows, classes)
}

// Whether the arrays have a class for each row, and a number for each class.
fn classes_long(rows: usize, classes: &[u16], payloads: &[u64]) -> bool
    ensures { result ≡ classes_long rows classes.now payloads.now }
{
    if ROWS_MOST < rows {
        return false;
    }
    if classes.len() != ROWS_MOST {
        return false;
    }
    payloads.len() == CLASSES
}

// Whether a type's number is one of the types of numbers.
fn number_type(code: u8) -> bool
    ensures { result ≡ number_type code }
{
    (INT32..=FLOAT64).contains(&code)
}

// Whether every row's class has a number, by the greatest class.
fn classes_in(rows: usize, classes: &[u16]) -> bool
    requires { rows ≤ length classes.now }
    ensures { result ≡ classes_in classes.now rows }
{
    let mut most = 0u16;
    for &class in &classes[..rows] {
        most = most.max(class);
    }
    most < CLASSES as u16
}

// The same of rows that are a column of the type: 17 or the answer.
fn write_classed(
    rows: usize,
    t: DataType,
    nullable: bool,
    classes: &[u16],
    payloads: &[u64],
    output: &mut [u8],
) -> Result<usize, Refusal>
    requires { ClassesAsk rows t classes.now payloads.now }
    ensures { (rule table : List ℕ) → WriteGives rule table (class_value t classes.now payloads.now) rows t nullable output.old result output.new }
{
    let size = column_size(rows, t, false, 0);
    if output.len() < size {
        return Err(Refusal::OutputSize);
    }
    let p = plain_front(rows, t, nullable, output);
    let wide = t.number() != INT32;
    let end = put_numbers(rows, wide, |i| payloads[classes[i] as usize], p, output);
    Ok(end)
}
