// The library for display makers: every function can be called from C and takes every argument.
#![tactic(auto)]

ghost use Rattle.std.specs.Prelude.{◌≡◌, length};
ghost use Rattle.rule.specs.Reading.{read_rule};
ghost use Rattle.table.specs.Reading.{read_table, read_alone};
ghost use Rattle.table.specs.Answers.{null_count_of};
ghost use Rattle.utf8.specs.WellFormed.{ill_formed};
ghost use Rattle.tembalku.specs.Codes.{rule_code, table_code, null_count_code, answer_count_code, text_code, strategy_code, nullable_code, Projected, Called};

use case::evaluate::evaluate;
use layout::part::{part_of, put_part};
use rule::answer::{nullable, projection, read as read_rule, strategy};
use table::alone::read_alone;
use table::nulls::column_null_count;
use table::read::read as read_table;
use utf8::validation::validate;

// The reading of a rule: a refusal number, or 256 and the number of the result's type.
#[unsafe(no_mangle)]
pub extern "C" fn tembalku_rule_read(rule: &[u8]) -> u32
    ensures { result ≡ rule_code (read_rule rule.now) }
{
    match read_rule(rule) {
        Ok(data_type) => 256 + u32::from(data_type.number()),
        Err(refusal) => u32::from(refusal.number()),
    }
}

// The reading of a table: a refusal number, or 65,536 and the number of its rows.
#[unsafe(no_mangle)]
pub extern "C" fn tembalku_table_read(table: &[u8]) -> u32
    ensures { result ≡ table_code (read_table table.now) }
{
    match read_table(table) {
        Ok(places) => 65536 + places.rows as u32,
        Err(refusal) => u32::from(refusal.number()),
    }
}

// How many rows of a table's column are null: a refusal number, 256 where there is no such column, or 65,536 and their number.
#[unsafe(no_mangle)]
pub extern "C" fn tembalku_table_null_count(table: &[u8], column: usize) -> usize
    ensures { result ≡ null_count_code (null_count_of (read_table table.now) column) }
{
    match column_null_count(table, column) {
        Ok(Some(nulls)) => 65536 + nulls,
        Ok(None) => 256,
        Err(refusal) => usize::from(refusal.number()),
    }
}

// How many entries of an answer of so many rows are null: a refusal number, or 65,536 and their number.
#[unsafe(no_mangle)]
pub extern "C" fn tembalku_answer_null_count(answer: &[u8], rows: usize) -> usize
    ensures { result ≡ answer_count_code rows (read_alone rows answer.now) }
{
    match read_alone(answer, rows) {
        Ok(place) => 65536 + usize::from(place.null_count),
        Err(refusal) => usize::from(refusal.number()),
    }
}

// Tests a text: the place of its first ill-formed sequence, or its length where it is well-formed UTF-8.
#[unsafe(no_mangle)]
pub extern "C" fn tembalku_text_validate(text: &[u8]) -> usize
    ensures { result ≡ text_code (length text.now) (ill_formed text.now) }
{
    match validate(text) {
        Ok(()) => text.len(),
        Err(ill_formed) => ill_formed.place,
    }
}

// The strategy of a rule's root CASE: a refusal number, or 256 and the strategy's number.
#[unsafe(no_mangle)]
pub extern "C" fn tembalku_rule_strategy(rule: &[u8]) -> u32
    ensures { result ≡ strategy_code (read_rule rule.now) }
{
    match strategy(rule) {
        Ok(s) => 256 + u32::from(s.number()),
        Err(refusal) => u32::from(refusal.number()),
    }
}

// Whether a rule's answer is marked nullable: a refusal number, or 256 and 1 or 0.
#[unsafe(no_mangle)]
pub extern "C" fn tembalku_rule_nullable(rule: &[u8]) -> u32
    ensures { result ≡ nullable_code (read_rule rule.now) }
{
    match nullable(rule) {
        Ok(mark) => 256 + u32::from(mark),
        Err(refusal) => u32::from(refusal.number()),
    }
}

// The columns that a rule names, each once, rising, at the front of `columns` where they fit: a refusal number, or 256 and how many they are.
#[unsafe(no_mangle)]
pub extern "C" fn tembalku_rule_projection(rule: &[u8], columns: &mut [u8]) -> usize
    ensures { Projected rule.now columns.old result columns.new }
{
    match projection(rule) {
        Ok(p) => {
            let named = part_of(&p.columns, 0, p.count);
            put_part(columns, 0, named);
            256 + named.len()
        }
        Err(refusal) => usize::from(refusal.number()),
    }
}

// Evaluates a rule over a table: a refusal number, or 65,536 and the length of the answer at the front of the output.
#[unsafe(no_mangle)]
pub extern "C" fn tembalku_evaluate(
    rule: &[u8],
    table: &[u8],
    work: &mut [u8],
    output: &mut [u8],
) -> usize
    ensures { Called rule.now table.now work.old output.old result work.new output.new }
{
    match evaluate(rule, table, work, output) {
        Ok(size) => 65536 + size,
        Err(refusal) => usize::from(refusal.number()),
    }
}
