// WHENs that each compare the numbers of one column with a literal. A row's branch is found from the one number by which its entry is compared:
// the first WHEN that the number passes.
ghost use Rattle.std.specs.Prelude.{◌≡◌, ℕ, ◌+◌, ◌*◌, ◌<◌, ◌≤◌, List, [], ◌∷◌, length, if◌then◌else◌, IfSome};
ghost use Rattle.table.specs.Places.{column_in};
ghost use Rattle.case.specs.Frame.{Rows};
ghost use Rattle.case.specs.Steps.{StepsGive, comparison_tag, step_of, SidesGive, StepGives, SpansRead, step_low, step_high, SpansOf, one_span, in_span, span_index, row_span, RowIndex, RowsIndexed, ColumnGives, StepRows, WhenGives};

use crate::keys::column_keys;
use crate::literal_lookup_table::BRANCHES_MOST;
use crate::rows::{ROWS_MOST, row_at};
use layout::number::byte_at;
use layout::part::part_of;
use rule::literal::literal_value;
use rule::tag::{COLUMN, EQUAL, LESS, LITERAL};
use rule::walk::{children_at, field_end};
use scalar::order::{Key, key_of};
use scalar::types::DataType;
use table::entry::valid_at;
use table::places::{ColumnPlace, Table};

// How a column is compared with a literal. A closed set: the `match`es show that none is left out, which closures don't.
#[derive(Clone, Copy, PartialEq, Eq)]
pub(crate) enum Comparison {
    Equal,
    Less,
    More,
}

// A column compared with a literal: the column, and the kind and the key of the literal. The kind is the byte of a slot, as `Key`'s is.
#[derive(Clone, Copy)]
pub(crate) struct Step {
    pub(crate) comparison: Comparison,
    pub(crate) column: u8,
    pub(crate) kind: u8,
    pub(crate) key: u64,
}

impl Step {
    // The least number that passes; 1 where none does.
    fn low(self) -> u64
        ensures { result ≡ step_low (comparison_tag self.comparison) self.key }
    {
        match self.comparison {
            Comparison::Equal => self.key,
            Comparison::Less => if self.key == 0 { 1 } else { 0 },
            Comparison::More => if self.key < u64::MAX { self.key + 1 } else { 1 },
        }
    }

    // The greatest number that passes; 0 where none does.
    fn high(self) -> u64
        ensures { result ≡ step_high (comparison_tag self.comparison) self.key }
    {
        match self.comparison {
            Comparison::Equal => self.key,
            Comparison::Less => if self.key == 0 { 0 } else { self.key - 1 },
            Comparison::More => if self.key < u64::MAX { u64::MAX } else { 0 },
        }
    }
}

// A step by its comparison, its column and how its literal is compared.
fn step_of(comparison: Comparison, column: u8, key: Key) -> Option<Step>
    ensures { result ≡ step_of comparison column key }
{
    match key {
        Key::Number(kind, key) => Some(Step {
            comparison,
            column,
            kind,
            key,
        }),
        _ => None,
    }
}

// The step of a comparison, where a column stands at one place and a literal from another to its end.
fn step_between(
    rule: &[u8],
    comparison: Comparison,
    at: usize,
    literal: usize,
    end: usize,
) -> Option<Step>
    ensures { IfSome result (SidesGive rule.now (comparison_tag comparison) at literal end) }
{
    if byte_at(rule, at) != COLUMN {
        return None;
    }
    if byte_at(rule, literal) != LITERAL {
        return None;
    }
    step_of(
        comparison,
        byte_at(rule, at + 3),
        key_of(literal_value(rule, literal, end)),
    )
}

// The node at a place, where it is a step: a literal that is less than a column is a column that is more.
fn step_at(rule: &[u8], start: usize, end: usize) -> Option<Step>
    ensures { IfSome result (StepGives rule.now start end) }
{
    let comparison = match byte_at(rule, start) {
        EQUAL => Comparison::Equal,
        LESS => Comparison::Less,
        _ => return None,
    };
    let at = children_at(rule, start);
    let middle = field_end(rule, at);
    if byte_at(rule, at) != LITERAL {
        return step_between(rule, comparison, at, middle, end);
    }
    match comparison {
        Comparison::Less => step_between(rule, Comparison::More, middle, at, middle),
        _ => None,
    }
}

// Whether a number lies between two.
fn in_span(low: u64, high: u64, x: u64) -> bool
    ensures { result ≡ in_span low high x }
{
    if x < low { false } else { x <= high }
}

// The index by one span: 1 of a number in it, else 2.
fn one_index(low: u64, high: u64, x: u64) -> u16
    ensures { result ≡ (if in_span low high x then 1 else 2) }
{
    if x < low {
        2
    } else if high < x {
        2
    } else {
        1
    }
}

// The index of a row by one span: of a null the ELSE index.
fn one_row(numbers: &[u64; ROWS_MOST], validity: &[u8], low: u64, high: u64, row: usize) -> u16
    requires { row < 512 }
    ensures { result ≡ one_span numbers.now validity.now low high row }
{
    if !valid_at(validity, row) {
        return 2;
    }
    one_index(low, high, numbers[row])
}

// The index of each row of the list at a place, by one span.
fn index_one(
    numbers: &[u64; ROWS_MOST],
    validity: &[u8],
    low: u64,
    high: u64,
    work: &[u8],
    at: usize,
    n: usize,
    indices: &mut [u16; ROWS_MOST],
)
    requires { Rows work.now at n 512 × (at + 2 * n ≤ length work.now) }
    ensures { RowsIndexed (λ r c. c ≡ one_span numbers.now validity.now low high r) work.now at n indices.new }
{
    for i in 0..n {
        let r = row_at(work, at, i);
        indices[r] = one_row(numbers, validity, low, high, r);
    }
}

// The least and the greatest number that pass each of so many steps. Moved once, never copied.
#[derive(Drop)]
pub(crate) struct Spans {
    pub(crate) lows: [u64; 32],
    pub(crate) highs: [u64; 32],
    pub(crate) count: usize,
    ghost few: { count ≤ 32 },
}

impl Spans {
    // The spans of so many branches' WHENs, where each is a step on the column, of its kind.
    fn read(rule: &[u8], at: usize, count: usize, column: u8, kind: u8) -> Option<Spans>
        requires { count ≤ 32 }
        ensures { IfSome result (λ s. SpansRead rule.now at count column kind s.lows s.highs × (s.count ≡ count)) }
    {
        let mut spans = Spans {
            lows: [0; 32],
            highs: [0; 32],
            count,
        };
        let mut place = at;
        for k in 0..count {
            let then = field_end(rule, place);
            let Some(s) = step_at(rule, place, then) else {
                return None;
            };
            if s.column != column {
                return None;
            }
            if s.kind != kind {
                return None;
            }
            spans.lows[k] = s.low();
            spans.highs[k] = s.high();
            place = field_end(rule, then);
        }
        Some(spans)
    }

    // The span of one step.
    fn one(s: Step) -> Spans
        ensures { (result.count ≡ 1) × SpansOf (comparison_tag s.comparison ∷ []) (s.key ∷ []) 1 result.lows result.highs }
    {
        Spans {
            lows: [s.low(); 32],
            highs: [s.high(); 32],
            count: 1,
        }
    }

    // The index of the first span that a number lies in, from 1, or the ELSE index.
    fn index(&self, x: u64) -> u16
        ensures { result ≡ span_index self.now.lows self.now.highs self.now.count x }
    {
        for span in 0..self.count {
            if in_span(self.lows[span], self.highs[span], x) {
                return (span + 1) as u16;
            }
        }
        (self.count + 1) as u16
    }

    // The index of a row by its number: of a null the ELSE index.
    fn row_index(&self, numbers: &[u64; ROWS_MOST], validity: &[u8], row: usize) -> u16
        requires { row < 512 }
        ensures { result ≡ row_span numbers.now validity.now self.now.lows self.now.highs self.now.count row }
    {
        if !valid_at(validity, row) {
            return (self.count + 1) as u16;
        }
        self.index(numbers[row])
    }

    // The index of each row of the list at a place.
    fn index_rows(
        &self,
        numbers: &[u64; ROWS_MOST],
        validity: &[u8],
        work: &[u8],
        at: usize,
        n: usize,
        indices: &mut [u16; ROWS_MOST],
    )
        requires { Rows work.now at n 512 × (at + 2 * n ≤ length work.now) }
        ensures { RowsIndexed (λ r c. c ≡ row_span numbers.now validity.now self.now.lows self.now.highs self.now.count r) work.now at n indices.new }
    {
        for i in 0..n {
            let r = row_at(work, at, i);
            indices[r] = self.row_index(numbers, validity, r);
        }
    }

    // The same, by the one span alone where there is one.
    fn index_spans(
        &self,
        numbers: &[u64; ROWS_MOST],
        validity: &[u8],
        work: &[u8],
        at: usize,
        n: usize,
        indices: &mut [u16; ROWS_MOST],
    )
        requires { Rows work.now at n 512 × (at + 2 * n ≤ length work.now) }
        ensures { RowsIndexed (λ r c. c ≡ row_span numbers.now validity.now self.now.lows self.now.highs self.now.count r) work.now at n indices.new }
    {
        if self.count == 1 {
            index_one(
                numbers,
                validity,
                self.lows[0],
                self.highs[0],
                work,
                at,
                n,
                indices,
            );
            return;
        }
        self.index_rows(numbers, validity, work, at, n, indices);
    }
}

// The index of each row of the list at a place, by the spans of steps on the column at a place of the table, whose type is the steps'.
fn index_column(
    table: &[u8],
    place: ColumnPlace,
    spans: &Spans,
    work: &[u8],
    at: usize,
    n: usize,
    indices: &mut [u16; ROWS_MOST],
)
    requires { Rows work.now at n 512 × (at + 2 * n ≤ length work.now) }
    ensures { (tags keys : List ℕ) → SpansOf tags keys spans.now.count spans.now.lows spans.now.highs → RowsIndexed (RowIndex place.data_type (column_in table.now place).values (column_in table.now place).validity tags keys spans.now.count) work.now at n indices.new }
{
    let values = part_of(table, place.values.start, place.values.end);
    let validity = part_of(table, place.validity.start, place.validity.end);
    let mut numbers = [0u64; ROWS_MOST];
    column_keys(place.data_type, values, ROWS_MOST, &mut numbers);
    spans.index_spans(&numbers, validity, work, at, n, indices);
}

// The index of each listed row by steps on a column at a place, where every WHEN is one.
fn column_steps(
    rule: &[u8],
    at: usize,
    count: u8,
    table: &[u8],
    column: u8,
    place: ColumnPlace,
    work: &[u8],
    n: usize,
    indices: &mut [u16; ROWS_MOST],
) -> bool
    requires { Rows work.now 0 n 512 × (2 * n ≤ length work.now) }
    ensures { ColumnGives rule.now at table.now column place count work.now n result indices.new }
{
    if BRANCHES_MOST < count {
        return false;
    }
    if place.data_type == DataType::Utf8 {
        return false;
    }
    let code = place.data_type.number();
    let Some(spans) = Spans::read(rule, at, count as usize, column, code) else {
        return false;
    };
    index_column(table, place, &spans, work, 0, n, indices);
    true
}

// The index of each listed row by the branches at a place, where every WHEN is a step on one column. Whether they have one
// is a `bool`: the indices lie in the lent array, and `Option<()>` would say no more.
pub(crate) fn step_values(
    rule: &[u8],
    at: usize,
    count: u8,
    table: &[u8],
    t: Table,
    work: &[u8],
    n: usize,
    values: &mut [u16; ROWS_MOST],
) -> bool
    requires { Rows work.now 0 n 512 × (2 * n ≤ length work.now) }
    ensures { StepsGive rule.now at table.now t count work.now n result values.new }
{
    let Some(first) = step_at(rule, at, field_end(rule, at)) else {
        return false;
    };
    let Some(place) = t.column(first.column as usize) else {
        return false;
    };
    column_steps(rule, at, count, table, first.column, place, work, n, values)
}

// The index of each row of the list at a place of the work buffer, by a step on the column at a place of the table: 1 where it passes, 2 where it doesn't; where
// the column is of the step's kind.
fn column_step(
    s: Step,
    table: &[u8],
    place: ColumnPlace,
    work: &[u8],
    at: usize,
    n: usize,
    indices: &mut [u16; ROWS_MOST],
) -> bool
    requires { Rows work.now at n 512 × (at + 2 * n ≤ length work.now) }
    ensures { StepRows s table.now place work.now at n result indices.new }
{
    if place.data_type == DataType::Utf8 {
        return false;
    }
    let code = place.data_type.number();
    if s.kind != code {
        return false;
    }
    index_column(table, place, &Spans::one(s), work, at, n, indices);
    true
}

// The same by the WHEN at a place of the rule, where that is asked and it is a step on a column of the table: 1 where it is true, 2 where it is not.
// Whether they have one is a `bool`, as above.
pub(crate) fn step_when(
    asked: bool,
    rule: &[u8],
    start: usize,
    end: usize,
    table: &[u8],
    t: Table,
    work: &[u8],
    at: usize,
    n: usize,
    values: &mut [u16; ROWS_MOST],
) -> bool
    requires { Rows work.now at n 512 × (at + 2 * n ≤ length work.now) }
    ensures { WhenGives asked rule.now start end table.now t work.now at n result values.new }
{
    if !asked {
        return false;
    }
    let Some(s) = step_at(rule, start, end) else {
        return false;
    };
    let Some(place) = t.column(s.column as usize) else {
        return false;
    };
    column_step(s, table, place, work, at, n, values)
}
