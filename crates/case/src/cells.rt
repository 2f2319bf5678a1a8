// The entries of a column that a rule names in the slots of the listed rows.
ghost use Rattle.std.specs.Prelude.{◌^◌, ◌<◌, length};
ghost use Rattle.case.specs.Frame.{Fillable, Filled};
ghost use Rattle.case.specs.Evaluation.{CellRight, CellsRight};

use crate::column::{column_or_null, fill_column};
use crate::rows::{choose_scalar, fill_value};
use layout::number::byte_at;
use scalar::value::Value;
use table::places::Table;

// The entry of a column at each listed row; null where the table has no such column.
pub(crate) fn fill_cells(table: &[u8], t: Table, column: u8, work: &mut [u8], n: usize)
    requires { Fillable work.old n × (length table.now < 2 ^ 32) }
    ensures { Filled (CellRight table.now t column) work.old n work.new }
{
    match t.column(column as usize) {
        None => fill_value(work, n, Value::Null),
        Some(place) => fill_column(table, place, work, n),
    }
}

// Where a row's slot is true, the entry of the column whose node stands at a place of the rule, else null.
pub(crate) fn cells_or_null(
    rule: &[u8],
    at: usize,
    table: &[u8],
    t: Table,
    work: &mut [u8],
    n: usize,
)
    requires { Fillable work.old n × (length table.now < 2 ^ 32) }
    ensures { Filled (CellsRight rule.now at table.now t work.old) work.old n work.new }
{
    if rule.len() <= at {
        fill_value(work, n, Value::Null);
        return;
    }
    match t.column(byte_at(rule, at + 3) as usize) {
        None => choose_scalar(work, n, Value::Null, Value::Null),
        Some(place) => column_or_null(table, place, work, n),
    }
}
