// What a node is without reading a column: on the row of which no column can be read, with every part that equals the target's
// bytes as null. `depth` is how deep the node may nest.
ghost use Rattle.rule.specs.ConstantWalks.{OneGives, TwoGives, PassGives, ConstantGives, WithinGives, CaseGives, BaseGives, ElseGives, BranchesGives, WithBaseGives};

use crate::literal::literal_value;
use crate::tag;
use crate::type_of::{type_numbered, type_of};
use crate::walk::{behind_fields, children_at, field_end};
use layout::number::byte_at;
use layout::part::part_of;
use scalar::cast::cast;
use scalar::compare::{equal, less};
use scalar::is_not_null::is_not_null;
use scalar::negative::negative;
use scalar::not::not_value;
use scalar::text::same_bytes;
use scalar::try_cast::try_cast;
use scalar::types::DataType;
use scalar::value::Value;

// A rule whose parts that equal the target's bytes are null.
#[derive(Clone, Copy)]
pub(crate) struct Masked<'a> {
    pub(crate) rule: &'a [u8],
    pub(crate) target: &'a [u8],
}

// The branches of a CASE: where they start, where ELSE behind them ends, how many they are, and the result's type.
#[derive(Clone, Copy)]
struct BranchesAt {
    at: usize,
    end: usize,
    count: u8,
    to: DataType,
}

// What NOT, negative, IS NOT NULL and the casts make of a value, by tag and type byte.
fn one(tag: u8, number: u8, v: Value) -> Value
    ensures { OneGives tag number v result }
{
    match tag {
        tag::NOT => not_value(v),
        tag::NEGATIVE => negative(v),
        tag::IS_NOT_NULL => is_not_null(v),
        tag::CAST => cast(type_numbered(number), v),
        _ => try_cast(type_numbered(number), v),
    }
}

// What a comparison makes of two values, by tag.
fn two(rule: &[u8], tag: u8, a: Value, b: Value) -> Value
    ensures { TwoGives rule.now tag a b result }
{
    if tag == tag::EQUAL {
        equal(rule, rule, a, b)
    } else {
        less(rule, rule, a, b)
    }
}

// Whether a WHEN is true or failed.
pub(crate) fn may_pass(v: Value) -> bool
    ensures { PassGives v result }
{
    match v {
        Value::Boolean(b) => b,
        Value::Failed => true,
        _ => false,
    }
}

// A node; null where it equals the target.
#[cycle(constant)]
pub(crate) fn constant(masked: Masked, start: usize, end: usize, depth: usize) -> Value
    ensures { ConstantGives masked.entry.rule.now start end masked.entry.target.now depth result }
{
    if depth == 0 {
        return Value::Failed;
    }
    let same = same_bytes(part_of(masked.rule, start, end), masked.target);
    if same {
        return Value::Null;
    }
    constant_node(masked, start, end, depth - 1)
}

// A node that doesn't equal the target, by its tag.
#[cycle(constant)]
fn constant_node(masked: Masked, start: usize, end: usize, depth: usize) -> Value
    ensures { WithinGives masked.entry.rule.now start end masked.entry.target.now depth result }
{
    let rule = masked.rule;
    if rule.len() <= start {
        return Value::Failed;
    }
    let tag = rule[start];
    // Before `at`: a literal has no children, and where they stand would cost a look at its header.
    if tag == tag::LITERAL {
        return literal_value(rule, start, end);
    }
    let at = children_at(rule, start);
    match tag {
        tag::NOT | tag::NEGATIVE | tag::IS_NOT_NULL | tag::CAST | tag::TRY_CAST => {
            let number = byte_at(rule, start + 3);
            let v = constant(masked, at, end, depth);
            one(tag, number, v)
        }
        tag::EQUAL | tag::LESS => {
            let middle = field_end(rule, at);
            let a = constant(masked, at, middle, depth);
            let b = constant(masked, middle, end, depth);
            two(rule, tag, a, b)
        }
        tag::CASE => constant_case(masked, start, end, depth),
        _ => Value::Failed,
    }
}

// A CASE: its base, true where there is none, and then the branches.
#[cycle(constant)]
fn constant_case(masked: Masked, start: usize, end: usize, depth: usize) -> Value
    ensures { CaseGives masked.entry.rule.now start end masked.entry.target.now depth result }
{
    let rule = masked.rule;
    if rule.len() <= start {
        return Value::Failed;
    }
    let flags = byte_at(rule, start + 3);
    let count = byte_at(rule, start + 4);
    let at = children_at(rule, start);
    let first = behind_fields(rule, at, (flags % 2) as usize);
    let base = constant_base(masked, at, first, depth);
    let branches = BranchesAt {
        at: first,
        end,
        count,
        to: type_of(rule, start),
    };
    constant_with(masked, branches, base, depth)
}

// A base; true where the place is empty.
#[cycle(constant)]
fn constant_base(masked: Masked, at: usize, end: usize, depth: usize) -> Value
    ensures { BaseGives masked.entry.rule.now at end masked.entry.target.now depth result }
{
    if at == end {
        return Value::Boolean(true);
    }
    constant(masked, at, end, depth)
}

// The branches by a base: one that failed fails, one that is null goes to ELSE.
#[cycle(constant)]
fn constant_with(masked: Masked, branches: BranchesAt, base: Value, depth: usize) -> Value
    ensures { WithBaseGives masked.entry.rule.now branches.at branches.end branches.count base branches.to masked.entry.target.now depth result }
{
    match base {
        Value::Failed => Value::Failed,
        Value::Null => {
            let place = behind_fields(masked.rule, branches.at, 2 * (branches.count as usize));
            constant_else(masked, place, branches, depth)
        }
        _ => constant_branches(masked, branches, base, depth),
    }
}

// The THEN of the first branch whose WHEN equals the base, else ELSE.
#[cycle(constant)]
fn constant_branches(masked: Masked, branches: BranchesAt, base: Value, depth: usize) -> Value
    ensures { BranchesGives masked.entry.rule.now branches.at branches.end branches.count base branches.to masked.entry.target.now depth result }
{
    let rule = masked.rule;
    let mut place = branches.at;
    for _ in 0..branches.count {
        let then = field_end(rule, place);
        let next = field_end(rule, then);
        let when = constant(masked, place, then, depth);
        let test = equal(rule, rule, base, when);
        let passed = may_pass(test);
        if passed {
            if let Value::Failed = test {
                return Value::Failed;
            }
            return constant(masked, then, next, depth);
        }
        place = next;
    }
    constant_else(masked, place, branches, depth)
}

// ELSE behind the branches, try-cast to the result's type; null where the place is empty.
#[cycle(constant)]
fn constant_else(masked: Masked, at: usize, branches: BranchesAt, depth: usize) -> Value
    ensures { ElseGives masked.entry.rule.now at branches.end branches.to masked.entry.target.now depth result }
{
    if at == branches.end {
        return Value::Null;
    }
    let v = constant(masked, at, branches.end, depth);
    try_cast(branches.to, v)
}
