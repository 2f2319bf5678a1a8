// Expressions and CASEs over a list of rows, in the lent work buffer. `depth` is how deep a node, or what is below a CASE, may nest; the frame
// of a call is at the front of `work`, and what it calls for other rows works in the part beyond.
ghost use Rattle.std.specs.Prelude.{◌+◌, ◌<◌};
ghost use Rattle.case.specs.Choosing.{Open};
ghost use Rattle.case.specs.Evaluation.{Framed, Done, ExprRight, UnaryRight, BinaryRight, AgainstRight, CaseRight, BasedRight, Ahead, any_case, without_base_case, with_base_case, column_case, scalar_case, single_case, table_case, Sifts, WhenRight, BranchesIndex, MergedRight, Takes, TakeRight};
ghost use Rattle.case.specs.Results.{ThenRight, ElseRight};

use crate::binary::{compare_rows, compare_value};
use crate::cells::{cells_or_null, fill_cells};
use crate::column_lookup::lookup_values;
use crate::literal::{fill_literal, scalar_rows};
use crate::literal_lookup_table::look_up;
use crate::merge::else_values;
use crate::results::start_results;
use crate::rows::{Op, ROWS_MOST, apply, copy_list, operator_at};
use crate::settle::{Leave, Settled, open_builder, settle, settle_by};
use crate::steps::{step_values, step_when};
use crate::taking::{copy_slots, pick};
use builder::ResultBuilder;
use layout::number::byte_at;
use rule::literal::literal_value;
use rule::strategy::{Strategy, strategy_at};
use rule::tag::{CASE, COLUMN, LESS, LITERAL};
use rule::type_of::type_of;
use rule::walk::{children_at, field_end};
use scalar::types::DataType;
use table::places::Table;

// An expression at each listed row, in the row's slot.
#[cycle(expressions)]
pub(crate) fn expr(
    rule: &[u8],
    start: usize,
    end: usize,
    table: &[u8],
    t: Table,
    work: &mut [u8],
    n: usize,
    depth: usize,
)
    requires { Framed table.now t work.old n depth }
    ensures { Done (ExprRight rule.now start end table.now t depth) work.old n work.new }
{
    if depth == 0 {
        return;
    }
    if rule.len() <= start {
        return;
    }
    match rule[start] {
        COLUMN => fill_cells(table, t, byte_at(rule, start + 3), work, n),
        LITERAL => fill_literal(rule, start, end, work, n),
        CASE => case(rule, start, end, table, t, work, n, depth - 1),
        0..=22 => unary(rule, start, end, table, t, work, n, depth - 1),
        _ => binary(rule, start, end, table, t, work, n, depth - 1),
    }
}

// NOT, negative, IS NOT NULL and the casts.
#[cycle(expressions)]
fn unary(
    rule: &[u8],
    start: usize,
    end: usize,
    table: &[u8],
    t: Table,
    work: &mut [u8],
    n: usize,
    depth: usize,
)
    requires { Framed table.now t work.old n (depth + 1) }
    ensures { Done (UnaryRight rule.now start end table.now t depth) work.old n work.new }
{
    let at = children_at(rule, start);
    expr(rule, at, end, table, t, work, n, depth);
    apply(work, n, operator_at(rule, start));
}

// Equal and less.
#[cycle(expressions)]
fn binary(
    rule: &[u8],
    start: usize,
    end: usize,
    table: &[u8],
    t: Table,
    work: &mut [u8],
    n: usize,
    depth: usize,
)
    requires { Framed table.now t work.old n (depth + 1) }
    ensures { Done (BinaryRight rule.now start end table.now t depth) work.old n work.new }
{
    let at = children_at(rule, start);
    let middle = field_end(rule, at);
    let less = byte_at(rule, start) == LESS;
    expr(rule, at, middle, table, t, work, n, depth);
    against(rule, middle, end, table, t, work, n, less, depth);
}

// The slots compared with an expression: with a literal's value, or with the expression's slots in the next frame.
#[cycle(expressions)]
fn against(
    rule: &[u8],
    start: usize,
    end: usize,
    table: &[u8],
    t: Table,
    work: &mut [u8],
    n: usize,
    less: bool,
    depth: usize,
)
    requires { Framed table.now t work.old n (depth + 1) }
    ensures { Done (AgainstRight rule.now start end table.now t depth less work.old) work.old n work.new }
{
    if depth == 0 {
        return;
    }
    if byte_at(rule, start) == LITERAL {
        compare_value(rule, table, work, n, less, literal_value(rule, start, end));
        return;
    }
    copy_list(work, n, 0, 6656);
    expr(rule, start, end, table, t, &mut work[6656..], n, depth);
    compare_rows(rule, table, work, n, less);
}

// A CASE, by its strategy.
#[cycle(expressions)]
fn case(
    rule: &[u8],
    start: usize,
    end: usize,
    table: &[u8],
    t: Table,
    work: &mut [u8],
    n: usize,
    depth: usize,
)
    requires { Framed table.now t work.old n (depth + 1) }
    ensures { Done (CaseRight any_case rule.now start end table.now t depth) work.old n work.new }
{
    if depth == 0 {
        return;
    }
    match strategy_at(rule, start, end) {
        Strategy::NoExpression => case_when_no_expr(rule, start, end, table, t, work, n, depth),
        Strategy::WithExpression => case_when_with_expr(rule, start, end, table, t, work, n, depth),
        Strategy::InfallibleExprOrNull => {
            case_column_or_null(rule, start, end, table, t, work, n, depth)
        },
        Strategy::ScalarOrScalar => scalar_or_scalar(rule, start, end, table, t, work, n, depth),
        Strategy::ExpressionOrExpression => {
            expr_or_expr(rule, start, end, table, t, work, n, depth)
        },
        Strategy::WithExprScalarLookupTable => {
            with_lookup_table(rule, start, end, table, t, work, n, depth)
        },
    }
}

// CASE WHEN condition THEN result .. ELSE result END
#[cycle(expressions)]
fn case_when_no_expr(
    rule: &[u8],
    start: usize,
    end: usize,
    table: &[u8],
    t: Table,
    work: &mut [u8],
    n: usize,
    depth: usize,
)
    requires framed { Framed table.now t work.old n (depth + 1) }
    requires depth_nonzero { 0 < depth }
    ensures { Done (CaseRight without_base_case rule.now start end table.now t depth) work.old n work.new }
{
    if rule.len() <= start {
        return;
    }
    let count = byte_at(rule, start + 4);
    let at = children_at(rule, start);
    let to = type_of(rule, start);
    let mut values = [0u16; ROWS_MOST];
    if step_values(rule, at, count, table, t, work, n, &mut values) {
        take(rule, at, end, table, t, work, n, &values, count, to, depth);
        return;
    }
    copy_list(work, n, 0, 5632);
    let b = open_builder(t.rows);
    branches(
        rule,
        at,
        end,
        table,
        t,
        work,
        n,
        n,
        Leave::TrueWhen,
        count,
        to,
        b,
        depth,
    );
}

// CASE expression WHEN value THEN result .. ELSE result END. A null base goes to ELSE, and no WHEN is read.
#[cycle(expressions)]
fn case_when_with_expr(
    rule: &[u8],
    start: usize,
    end: usize,
    table: &[u8],
    t: Table,
    work: &mut [u8],
    n: usize,
    depth: usize,
)
    requires framed { Framed table.now t work.old n (depth + 1) }
    requires depth_nonzero { 0 < depth }
    ensures { Done (CaseRight with_base_case rule.now start end table.now t depth) work.old n work.new }
{
    if rule.len() <= start {
        return;
    }
    let count = byte_at(rule, start + 4);
    let at = children_at(rule, start);
    let first = field_end(rule, at);
    let to = type_of(rule, start);
    expr(rule, at, first, table, t, work, n, depth);
    by_base(rule, first, end, table, t, work, n, count, to, depth);
}

// The branches behind a base, which is in the slots: a null base leaves for ELSE, one that failed is failed.
#[cycle(expressions)]
fn by_base(
    rule: &[u8],
    at: usize,
    end: usize,
    table: &[u8],
    t: Table,
    work: &mut [u8],
    n: usize,
    count: u8,
    to: DataType,
    depth: usize,
)
    requires framed { Framed table.now t work.old n (depth + 1) }
    requires depth_nonzero { 0 < depth }
    ensures { Done (BasedRight rule.now at end table.now t depth count to work.old) work.old n work.new }
{
    copy_list(work, n, 0, 5632);
    let b = open_builder(t.rows);
    let els = count as u16 + 1;
    let s = settle(rule, table, work, n, Leave::NullBase, els, els + 1, b);
    let builder = s.builder;
    branches(
        rule,
        at,
        end,
        table,
        t,
        work,
        n,
        s.left,
        Leave::EqualWhen,
        count,
        to,
        builder,
        depth,
    );
}

// CASE WHEN condition THEN column [ELSE NULL] END
#[cycle(expressions)]
fn case_column_or_null(
    rule: &[u8],
    start: usize,
    end: usize,
    table: &[u8],
    t: Table,
    work: &mut [u8],
    n: usize,
    depth: usize,
)
    requires { Framed table.now t work.old n (depth + 1) }
    ensures { Done (CaseRight column_case rule.now start end table.now t depth) work.old n work.new }
{
    let at = children_at(rule, start);
    let then = field_end(rule, at);
    expr(rule, at, then, table, t, work, n, depth);
    cells_or_null(rule, then, table, t, work, n);
}

// CASE WHEN condition THEN literal ELSE literal END
#[cycle(expressions)]
fn scalar_or_scalar(
    rule: &[u8],
    start: usize,
    end: usize,
    table: &[u8],
    t: Table,
    work: &mut [u8],
    n: usize,
    depth: usize,
)
    requires framed { Framed table.now t work.old n (depth + 1) }
    requires depth_nonzero { 0 < depth }
    ensures { Done (CaseRight scalar_case rule.now start end table.now t depth) work.old n work.new }
{
    let at = children_at(rule, start);
    let to = type_of(rule, start);
    let mut values = [0u16; ROWS_MOST];
    if step_values(rule, at, 1, table, t, work, n, &mut values) {
        take(rule, at, end, table, t, work, n, &values, 1, to, depth);
        return;
    }
    let then = field_end(rule, at);
    expr(rule, at, then, table, t, work, n, depth);
    scalar_rows(rule, then, end, work, n);
}

// CASE WHEN condition THEN expression [ELSE expression] END
#[cycle(expressions)]
fn expr_or_expr(
    rule: &[u8],
    start: usize,
    end: usize,
    table: &[u8],
    t: Table,
    work: &mut [u8],
    n: usize,
    depth: usize,
)
    requires framed { Framed table.now t work.old n (depth + 1) }
    requires depth_nonzero { 0 < depth }
    ensures { Done (CaseRight single_case rule.now start end table.now t depth) work.old n work.new }
{
    let at = children_at(rule, start);
    let to = type_of(rule, start);
    let mut values = [0u16; ROWS_MOST];
    if step_values(rule, at, 1, table, t, work, n, &mut values) {
        take(rule, at, end, table, t, work, n, &values, 1, to, depth);
        return;
    }
    copy_list(work, n, 0, 5632);
    let b = open_builder(t.rows);
    branches(
        rule,
        at,
        end,
        table,
        t,
        work,
        n,
        n,
        Leave::TrueWhen,
        1,
        to,
        b,
        depth,
    );
}

// CASE expression WHEN literal THEN literal .. [ELSE literal] END
#[cycle(expressions)]
fn with_lookup_table(
    rule: &[u8],
    start: usize,
    end: usize,
    table: &[u8],
    t: Table,
    work: &mut [u8],
    n: usize,
    depth: usize,
)
    requires { Framed table.now t work.old n (depth + 1) }
    ensures { Done (CaseRight table_case rule.now start end table.now t depth) work.old n work.new }
{
    if rule.len() <= start {
        return;
    }
    let count = byte_at(rule, start + 4);
    let at = children_at(rule, start);
    let first = field_end(rule, at);
    let to = type_of(rule, start);
    let mut values = [0u16; ROWS_MOST];
    if lookup_values(rule, at, end, count, table, t, work, n, &mut values) {
        start_results(rule, first, end, count, to, work, n, &values);
        return;
    }
    expr(rule, at, first, table, t, work, n, depth);
    look_up(rule, first, end, count, to, table, work, n);
}

// The branches over the open list and the builder: each row's index is chosen, and then what it stands for is taken.
#[cycle(expressions)]
fn branches(
    rule: &[u8],
    at: usize,
    end: usize,
    table: &[u8],
    t: Table,
    work: &mut [u8],
    n: usize,
    left: usize,
    how: Leave,
    count: u8,
    to: DataType,
    b: ResultBuilder,
    depth: usize,
)
    requires framed { Framed table.now t work.old n (depth + 1) }
    requires depth_nonzero { (0 < depth) × Open b work.old left t.rows }
    ensures { Done (MergedRight rule.now at end table.now t depth how count to work.old left b) work.old n work.new }
{
    let s = choose(rule, at, table, t, work, left, how, count, b, depth);
    let builder = s.builder;
    let values = else_values(rule, at, end, table, work, s.left, count, builder);
    take(rule, at, end, table, t, work, n, &values, count, to, depth);
}

// The open list through the branches in turn: a row leaves at the first WHEN that takes it.
#[cycle(expressions)]
fn choose(
    rule: &[u8],
    at: usize,
    table: &[u8],
    t: Table,
    work: &mut [u8],
    left: usize,
    how: Leave,
    count: u8,
    b: ResultBuilder,
    depth: usize,
) -> Settled
    requires { Ahead table.now t work.old left b depth }
    ensures { Sifts (BranchesIndex rule.now at table.now t depth how count work.old) work.old left t.rows b result.left result.builder work.new }
{
    let failed = count as u16 + 2;
    let mut place = at;
    let mut open = left;
    let mut builder = b;
    for i in 0..count {
        let then = field_end(rule, place);
        let index = i as u16 + 1;
        let s = turn(
            rule, place, then, table, t, work, open, how, index, failed, builder, depth,
        );
        open = s.left;
        let next = s.builder;
        builder = next;
        place = field_end(rule, then);
    }
    Settled {
        left: open,
        builder,
    }
}

// One branch: its WHEN over the open list, by a step or in the next frame, and the rows that leave by it.
#[cycle(expressions)]
fn turn(
    rule: &[u8],
    start: usize,
    end: usize,
    table: &[u8],
    t: Table,
    work: &mut [u8],
    left: usize,
    how: Leave,
    index: u16,
    failed: u16,
    b: ResultBuilder,
    depth: usize,
) -> Settled
    requires ahead { Ahead table.now t work.old left b depth }
    requires index_nonzero { (0 < index) × (0 < failed) }
    ensures { Sifts (WhenRight rule.now start end table.now t depth how index failed work.old) work.old left t.rows b result.left result.builder work.new }
{
    let mut whens = [0u16; ROWS_MOST];
    if step_when(
        how.asks_true(),
        rule,
        start,
        end,
        table,
        t,
        work,
        5632,
        left,
        &mut whens,
    ) {
        return settle_by(work, left, &whens, index, b);
    }
    copy_list(work, left, 5632, 6656);
    expr(rule, start, end, table, t, &mut work[6656..], left, depth);
    settle(rule, table, work, left, how, index, failed, b)
}

// What each row's index stands for, in the row's slot: null, failed, a THEN or ELSE. Literals are put first.
#[cycle(expressions)]
fn take(
    rule: &[u8],
    at: usize,
    end: usize,
    table: &[u8],
    t: Table,
    work: &mut [u8],
    n: usize,
    values: &[u16; ROWS_MOST],
    count: u8,
    to: DataType,
    depth: usize,
)
    requires framed { Framed table.now t work.old n (depth + 1) }
    requires depth_nonzero { 0 < depth }
    ensures { Done (TakeRight rule.now at end table.now t depth count to values.now) work.old n work.new }
{
    let els = count as u16 + 1;
    start_results(rule, at, end, count, to, work, n, values);
    let mut place = at;
    for k in 1..els {
        let result = field_end(rule, place);
        let next = field_end(rule, result);
        then(rule, result, next, table, t, work, n, values, k, depth);
        place = next;
    }
    take_else(rule, place, end, table, t, work, n, values, els, to, depth);
}

// A THEN over the rows of its index; a literal is there already.
#[cycle(expressions)]
fn then(
    rule: &[u8],
    start: usize,
    end: usize,
    table: &[u8],
    t: Table,
    work: &mut [u8],
    n: usize,
    values: &[u16; ROWS_MOST],
    k: u16,
    depth: usize,
)
    requires framed { Framed table.now t work.old n (depth + 1) }
    requires depth_nonzero { 0 < depth }
    ensures { Takes values.now k (ThenRight rule.now start end table.now t depth) work.old n work.new }
{
    if byte_at(rule, start) == LITERAL {
        return;
    }
    let m = pick(work, n, values, k);
    expr(rule, start, end, table, t, &mut work[6656..], m, depth);
    copy_slots(work, m);
}

// ELSE over the rows of its index, try-cast to the result's type; a literal is there already.
#[cycle(expressions)]
fn take_else(
    rule: &[u8],
    at: usize,
    end: usize,
    table: &[u8],
    t: Table,
    work: &mut [u8],
    n: usize,
    values: &[u16; ROWS_MOST],
    k: u16,
    to: DataType,
    depth: usize,
)
    requires framed { Framed table.now t work.old n (depth + 1) }
    requires depth_nonzero { 0 < depth }
    ensures { Takes values.now k (ElseRight rule.now at end table.now t depth to) work.old n work.new }
{
    if at == end {
        return;
    }
    if byte_at(rule, at) == LITERAL {
        return;
    }
    let m = pick(work, n, values, k);
    expr(rule, at, end, table, t, &mut work[6656..], m, depth);
    apply(&mut work[6656..], m, Op::TryCast(to));
    copy_slots(work, m);
}
