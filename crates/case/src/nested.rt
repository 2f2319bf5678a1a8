// The classes of a root CASE whose THENs are CASEs: the rows of such a THEN go on to classes of their own, from the literals of its CASE.
ghost use Rattle.std.specs.Prelude.{◌≡◌, ℕ, ◌+◌, ◌*◌, ◌<◌, ◌≤◌, length, slice_index};
ghost use Rattle.scalar.specs.Types.{type_number};
ghost use Rattle.case.specs.Frame.{Rows, Listed};
ghost use Rattle.case.specs.Evaluation.{Framed};
ghost use Rattle.case.specs.Classes.{all_of_kind, BlockCopied, BlockRead, NestedResults, Grown, Numbered, CaseClassed, ThenClassed, ThensAsk, ThensClassed};

use crate::case_values::{branches_at, case_values};
use crate::results::Results;
use crate::rows::{ROWS_MOST, row_at};
use crate::taking::pick;
use layout::number::byte_at;
use rule::tag::{CASE, LITERAL};
use rule::type_of::type_of;
use rule::walk::{children_at, field_end};
use scalar::types::DataType;
use table::places::Table;

// Room for classes.
const CLASSES_MOST: usize = 258;

impl Results {
    // Whether so many classes behind a class are all of a kind.
    fn all_of_kind(&self, from: usize, count: usize, kind: u8) -> bool
        requires { from + count < 258 }
        ensures { result ≡ all_of_kind self.now.kinds kind from count }
    {
        self.kinds[from + 1..from + count + 1]
            .iter()
            .all(|k| *k == kind)
    }

    // The literals of so many branches and of ELSE, as the classes behind a class.
    fn copy_block(&mut self, from: usize, count: usize, block: &Results)
        requires { from + count + 3 ≤ 258 }
        ensures { BlockCopied from (count + 1) block.now.kinds block.now.payloads self.old.kinds self.old.payloads self.new.kinds self.new.payloads }
    {
        self.kinds[from + 1..from + count + 2].copy_from_slice(&block.kinds[1..count + 2]);
        self.payloads[from + 1..from + count + 2].copy_from_slice(&block.payloads[1..count + 2]);
    }

    // The literals of so many branches at a place and of ELSE behind them, as the classes behind a class.
    fn read_block(
        &mut self,
        rule: &[u8],
        at: usize,
        end: usize,
        count: usize,
        to: DataType,
        from: usize,
    )
        requires { from + count + 3 ≤ 258 }
        ensures { Grown from self.old.kinds self.old.payloads self.new.kinds self.new.payloads × BlockRead rule.now at end count to from self.new.kinds self.new.payloads }
    {
        let mut block = Results::none();
        block.read(rule, at, end, count, to);
        self.copy_block(from, count, &block);
    }
}

// The class of each listed row: its index behind a class.
fn class_listed(
    work: &[u8],
    n: usize,
    values: &[u16; ROWS_MOST],
    from: usize,
    classes: &mut [u16; ROWS_MOST],
)
    requires rows { Rows work.now 0 n 512 × (2 * n ≤ length work.now) }
    requires below { (q : ℕ) → Listed work.now 0 n q → from + slice_index values.now q < 258 }
    ensures { Numbered work.now n values.now from classes.old classes.new }
{
    for i in 0..n {
        let r = row_at(work, 0, i);
        classes[r] = (from + values[r] as usize) as u16;
    }
}

// The results of the CASE at a place as the classes behind a class, and where its branches stand; none where they are not all literals of a kind or are too many.
fn nested_results(
    rule: &[u8],
    start: usize,
    end: usize,
    res: DataType,
    from: usize,
    results: &mut Results,
) -> Option<usize>
    ensures { NestedResults rule.now start end (type_number res) from results.old.kinds results.old.payloads result results.new.kinds results.new.payloads }
{
    if rule.len() <= start {
        return None;
    }
    let count = byte_at(rule, start + 4) as usize;
    if CLASSES_MOST < from {
        return None;
    }
    if CLASSES_MOST < from + count + 3 {
        return None;
    }
    let place = branches_at(rule, start, children_at(rule, start));
    results.read_block(rule, place, end, count, type_of(rule, start), from);
    if results.all_of_kind(from, count + 1, res.number()) {
        return Some(place);
    }
    None
}

// The class of each listed row by the CASE at a place, whose results are all literals of a kind, behind a class: the class behind them; none where they are not
// found so.
fn nested_case(
    rule: &[u8],
    start: usize,
    end: usize,
    table: &[u8],
    t: Table,
    res: DataType,
    work: &[u8],
    n: usize,
    classes: &mut [u16; ROWS_MOST],
    results: &mut Results,
    from: usize,
) -> Option<usize>
    requires { Framed table.now t work.now n 1 }
    ensures { CaseClassed (Listed work.now 0 n) rule.now start end table.now t (type_number res) from classes.old results.old.kinds results.old.payloads result classes.new results.new.kinds results.new.payloads }
{
    let place = nested_results(rule, start, end, res, from, results)?;
    let mut values = [0u16; ROWS_MOST];
    if case_values(rule, start, end, table, t, work, n, &mut values) != Some(place) {
        return None;
    }
    class_listed(work, n, &values, from, classes);
    Some(from + byte_at(rule, start + 4) as usize + 3)
}

// The rows of a THEN's class, where that is no literal of the kind: their classes by the CASE that the THEN is, behind a class; the class behind them, none where they are
// not found so.
fn nested_then(
    rule: &[u8],
    start: usize,
    end: usize,
    table: &[u8],
    t: Table,
    res: DataType,
    work: &mut [u8],
    n: usize,
    class: usize,
    classes: &mut [u16; ROWS_MOST],
    results: &mut Results,
    from: usize,
) -> Option<usize>
    requires framed { Framed table.now t work.old n 2 }
    requires low { class < 258 }
    ensures { ThenClassed rule.now start end table.now t (type_number res) work.old n class from classes.old results.old.kinds results.old.payloads result work.new classes.new results.new.kinds results.new.payloads }
{
    if results.kinds[class] == res.number() {
        return Some(from);
    }
    let m = pick(work, n, classes, class as u16);
    nested_case(
        rule,
        start,
        end,
        table,
        t,
        res,
        &work[6656..],
        m,
        classes,
        results,
        from,
    )
}

// Whether every listed row has a class of a kind, once the rows of THENs that are CASEs have gone on to classes of their own.
pub(crate) fn nested_thens(
    rule: &[u8],
    at: usize,
    count: usize,
    table: &[u8],
    t: Table,
    res: DataType,
    work: &mut [u8],
    n: usize,
    classes: &mut [u16; ROWS_MOST],
    results: &mut Results,
) -> bool
    requires framed { Framed table.now t work.old n 2 }
    requires thens_ask { ThensAsk (type_number res) count work.old n classes.old results.old.kinds results.old.payloads }
    ensures { ThensClassed rule.now at table.now t (type_number res) count work.old n classes.old results.old.kinds results.old.payloads result work.new classes.new results.new.kinds results.new.payloads }
{
    let mut used = count + 3;
    let mut place = at;
    for k in 1..count + 1 {
        let then = field_end(rule, place);
        let next = field_end(rule, then);
        let Some(behind) = nested_then(
            rule, then, next, table, t, res, work, n, k, classes, results, used,
        ) else {
            return false;
        };
        used = behind;
        place = next;
    }
    true
}

// Whether the results of so many branches at a place, which end at a place, are literals by their tags.
fn literal_results(rule: &[u8], at: usize, end: usize, count: usize) -> bool {
    let mut place = at;
    for k in 0..count {
        let then = field_end(rule, place);
        if byte_at(rule, then) != LITERAL {
            return false;
        }
        place = field_end(rule, then);
    }
    if place == end {
        return false;
    }
    byte_at(rule, place) == LITERAL
}

// Whether a THEN is a CASE of literals, by its tags.
fn is_literal_case(rule: &[u8], start: usize, end: usize) -> bool {
    if byte_at(rule, start) != CASE {
        return false;
    }
    if rule.len() <= start {
        return false;
    }
    let place = branches_at(rule, start, children_at(rule, start));
    literal_results(rule, place, end, byte_at(rule, start + 4) as usize)
}

// Whether rows may have classes, before they are looked at: each THEN is a literal of the kind or, by its tags, a CASE of literals.
pub(crate) fn may_class(
    rule: &[u8],
    at: usize,
    count: usize,
    results: &Results,
    res: DataType,
) -> bool
    requires { count ≤ 255 }
{
    let mut place = at;
    for k in 1..count + 1 {
        let then = field_end(rule, place);
        let next = field_end(rule, then);
        if results.kinds[k] != res.number() {
            if !is_literal_case(rule, then, next) {
                return false;
            }
        }
        place = next;
    }
    true
}
