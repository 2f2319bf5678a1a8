// The classes of a table's rows by the root CASE, without slots: where its rows have their indices from columns, and every result is a number literal or, as a
// THEN, a CASE of which the same holds.
ghost use Rattle.std.specs.Prelude.{◌≡◌, ℕ, ◌≤◌, true, length, slice_index, if◌then◌else◌, Some, None, IfSome};
ghost use Rattle.scalar.specs.Types.{type_number};
ghost use Rattle.case.specs.Classes.{RootAsks, RootRead, ClassesGive};

use crate::case_values::{branches_at, case_values};
use crate::nested::{may_class, nested_thens};
use crate::results::Results;
use crate::rows::ROWS_MOST;
use layout::number::byte_at;
use rule::type_of::type_of;
use rule::walk::children_at;
use scalar::types::DataType;
use table::places::Table;

// Whether a type is a number's.
fn is_number(t: DataType) -> bool
    ensures { result ≡ true → (2 ≤ type_number t) × (type_number t ≤ 4) }
{
    matches!(t, DataType::Int32 | DataType::Int64 | DataType::Float64)
}

// The class of each row and the literals of the classes, where every row has one and all are numbers of the result's type. Whether they do is a `bool`: the
// literals are filled where they stand, and in an `Option` they would be copied.
pub(crate) fn class_rows(
    rule: &[u8],
    table: &[u8],
    t: Table,
    res: DataType,
    work: &mut [u8],
    classes: &mut [u16; ROWS_MOST],
    results: &mut Results,
) -> bool
    requires root_asks { RootAsks t work.old table.now }
    requires empty { (i : ℕ) → slice_index results.old.kinds i ≡ 0 }
    ensures { ClassesGive rule.now table.now t res work.old (if result then Some results.new else None) work.new classes.new }
{
    if !is_number(res) {
        return false;
    }
    let Some(place) = root_results(rule, res, results) else {
        return false;
    };
    if case_values(rule, 0, rule.len(), table, t, work, t.rows, classes) != Some(place) {
        return false;
    }
    nested_thens(
        rule,
        place,
        byte_at(rule, 4) as usize,
        table,
        t,
        res,
        work,
        t.rows,
        classes,
        results,
    )
}

// The literals among the root CASE's results, and where its branches stand; none where ELSE is no literal of the kind or the rows have no classes by the tags.
fn root_results(rule: &[u8], res: DataType, results: &mut Results) -> Option<usize>
    requires { (i : ℕ) → slice_index results.old.kinds i ≡ 0 }
    ensures { IfSome result (λ place. RootRead rule.now (type_number res) place results.new.kinds results.new.payloads) }
{
    let at = children_at(rule, 0);
    let place = branches_at(rule, 0, at);
    let count = byte_at(rule, 4) as usize;
    results.read(rule, place, rule.len(), count, type_of(rule, 0));
    if results.kinds[count + 1] != res.number() {
        return None;
    }
    if may_class(rule, place, count, results, res) {
        return Some(place);
    }
    None
}
