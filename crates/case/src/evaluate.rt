// Evaluation of a rule over a table, in a lent work buffer, into a lent output.
ghost use Rattle.std.specs.Prelude.{◌≡◌, ◌≢◌};
ghost use Rattle.writer.specs.declared.WriteError.TheVariants.{NoColumn};
ghost use Rattle.writer.specs.Write.{said};
ghost use Rattle.case.specs.Promise.{Evaluated};
ghost use Rattle.case.specs.Readings.{ReadAsks, AnswerAsks, AnswerGives};

use crate::case::expr;
use crate::fits::fits_table;
use crate::results::Results;
use crate::root::class_rows;
use crate::rows::{ROWS_MOST, all_rows};
use layout::refusal::Refusal;
use rule::read::{RuleReading, read_rule};
use scalar::types::DataType;
use table::places::Table;
use table::read::read;
use writer::WriteError;
use writer::classes::write_classes;
use writer::clear::clear;
use writer::write::write_answer;

// Least length of a full work buffer.
const WORK_LEAST: usize = 65536;

// Evaluates a rule over a table: the answer's length, with the answer at the front of the output.
pub fn evaluate(
    rule: &[u8],
    table: &[u8],
    work: &mut [u8],
    output: &mut [u8],
) -> Result<usize, Refusal>
    ensures { Evaluated rule.now table.now work.old output.old result work.new output.new }
{
    let r = read_rule(rule)?;
    let t = read(table)?;
    evaluate_read(rule, r, table, t, work, output)
}

// The same of a rule and a table that were read.
pub(crate) fn evaluate_read(
    rule: &[u8],
    r: RuleReading,
    table: &[u8],
    t: Table,
    work: &mut [u8],
    output: &mut [u8],
) -> Result<usize, Refusal>
    requires { ReadAsks rule.now r table.now t }
    ensures { Evaluated rule.now table.now work.old output.old result work.new output.new }
{
    let seen = r.seen;
    let fits = fits_table(seen, t);
    if !fits {
        return Err(Refusal::Fit);
    }
    if work.len() < WORK_LEAST {
        return Err(Refusal::WorkSize);
    }
    let result = r.result;
    let answer = answer_rows(rule, table, t, result, r.nullable, work, output);
    clear(work);
    answer
}

// The answer of all rows: by their classes where they have them, else by their slots.
fn answer_rows(
    rule: &[u8],
    table: &[u8],
    t: Table,
    res: DataType,
    nullable: bool,
    work: &mut [u8],
    output: &mut [u8],
) -> Result<usize, Refusal>
    requires { AnswerAsks rule.now table.now t res work.old }
    ensures { AnswerGives rule.now table.now t res nullable work.old output.old result work.new output.new }
{
    let rows = t.rows;
    all_rows(work, rows);
    let mut classes = [0u16; ROWS_MOST];
    let mut results = Results::none();
    if class_rows(rule, table, t, res, work, &mut classes, &mut results) {
        return run_of(write_classes(rows, res, nullable, &classes, &results.payloads, output));
    }
    expr(rule, 0, rule.len(), table, t, work, rows, 8);
    run_of(write_answer(rule, table, work, rows, res, nullable, output))
}

// What a run with rows that are a column says.
fn run_of(a: Result<usize, WriteError>) -> Result<usize, Refusal>
    requires { a ≢ Err NoColumn }
    ensures { a ≡ said result }
{
    match a {
        Ok(size) => Ok(size),
        Err(WriteError::Refused(refusal)) => Err(refusal),
        Err(WriteError::NoColumn) => unreachable!(),
    }
}
