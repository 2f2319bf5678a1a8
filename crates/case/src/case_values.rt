// The index of each listed row by a CASE, without slots: where every WHEN is a step on one column, or a table of keys serves a column.
ghost use Rattle.std.specs.Prelude.{◌≡◌, ◌+◌, ◌%◌, ◌≢◌};
ghost use Rattle.layout.specs.Bytes.{byte};
ghost use Rattle.rule.specs.Walks.{EndGives};
ghost use Rattle.case.specs.Evaluation.{Framed};
ghost use Rattle.case.specs.Classes.{CaseSteps, CaseKeys, CaseValues};

use crate::column_lookup::lookup_values;
use crate::rows::ROWS_MOST;
use crate::steps::step_values;
use layout::number::byte_at;
use rule::strategy::{Strategy, strategy_at};
use rule::tag::CASE;
use rule::walk::{children_at, field_end};
use table::places::Table;

// The index of each listed row by steps, and where the branches stand; none where they are no steps.
fn case_steps(
    rule: &[u8],
    at: usize,
    count: u8,
    table: &[u8],
    t: Table,
    work: &[u8],
    n: usize,
    values: &mut [u16; ROWS_MOST],
) -> Option<usize>
    requires { Framed table.now t work.now n 1 }
    ensures { CaseSteps rule.now at count table.now t work.now n values.new result }
{
    if step_values(rule, at, count, table, t, work, n, values) {
        return Some(at);
    }
    None
}

// The index of each listed row by a table of keys, and where the branches stand; none where no table serves a column.
fn case_keys(
    rule: &[u8],
    at: usize,
    end: usize,
    count: u8,
    table: &[u8],
    t: Table,
    work: &[u8],
    n: usize,
    values: &mut [u16; ROWS_MOST],
) -> Option<usize>
    requires { Framed table.now t work.now n 1 }
    ensures { CaseKeys rule.now at end count table.now t work.now n values.new result }
{
    if lookup_values(rule, at, end, count, table, t, work, n, values) {
        return Some(field_end(rule, at));
    }
    None
}

// The index of each listed row by the CASE at a place, and where its branches stand; none where no index is found so.
pub(crate) fn case_values(
    rule: &[u8],
    start: usize,
    end: usize,
    table: &[u8],
    t: Table,
    work: &[u8],
    n: usize,
    values: &mut [u16; ROWS_MOST],
) -> Option<usize>
    requires { Framed table.now t work.now n 1 }
    ensures { CaseValues rule.now start end table.now t work.now n values.new result }
{
    if byte_at(rule, start) != CASE {
        return None;
    }
    if rule.len() <= start {
        return None;
    }
    let at = children_at(rule, start);
    let count = byte_at(rule, start + 4);
    match strategy_at(rule, start, end) {
        Strategy::NoExpression => case_steps(rule, at, count, table, t, work, n, values),
        Strategy::WithExpression => None,
        Strategy::InfallibleExprOrNull => None,
        Strategy::ScalarOrScalar => case_steps(rule, at, count, table, t, work, n, values),
        Strategy::ExpressionOrExpression => case_steps(rule, at, count, table, t, work, n, values),
        Strategy::WithExprScalarLookupTable => {
            case_keys(rule, at, end, count, table, t, work, n, values)
        },
    }
}

// Where the branches of a CASE stand, whose children stand at a place: behind its base, if it has one.
pub(crate) fn branches_at(rule: &[u8], start: usize, at: usize) -> usize
    ensures { (byte rule.now (start + 3) % 2 ≡ 1 → EndGives rule.now at result) × ((byte rule.now (start + 3) % 2 ≢ 1) → result ≡ at) }
{
    if rule.len() <= start {
        return at;
    }
    if byte_at(rule, start + 3) % 2 == 1 {
        return field_end(rule, at);
    }
    at
}
