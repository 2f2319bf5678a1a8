// Whether the answer of a rule is marked nullable.
ghost use Rattle.std.specs.Prelude.{◌≡◌};
ghost use Rattle.scalar.specs.Cast.{can_fail_to_fit};
ghost use Rattle.rule.specs.Walked.{type_at};
ghost use Rattle.rule.specs.AnswerWalks.{StrippedGives, ReachableGives, NullableGives, AnyGives, CaseNullableGives, BranchesNullableGives, BranchNullableGives, RuleNullableGives};

use crate::constant::{Masked, constant, may_pass};
use crate::limits::MOST_DEPTH;
use crate::tag;
use crate::type_of::type_of;
use crate::walk::{behind_fields, children_at, field_end};
use layout::number::byte_at;
use layout::part::part_of;
use scalar::cast::can_fail_to_fit;

// Where a node stands without the NOT, negative and cast above it.
fn stripped_at(rule: &[u8], start: usize) -> usize
    ensures { StrippedGives rule.now start result }
{
    let mut at = start;
    // Where the next node stands is read from this one, so no range fits.
    while at < rule.len() {
        match rule[at] {
            tag::NOT | tag::NEGATIVE => at += 3,
            tag::CAST => at += 4,
            _ => return at,
        }
    }
    at
}

// Whether a WHEN is true, or can't be worked out, with the THEN behind it as null.
fn is_reachable(rule: &[u8], when: usize, then: usize, end: usize) -> bool
    ensures { ReachableGives rule.now when then end result }
{
    let at = stripped_at(rule, then);
    let target = part_of(rule, at, end);
    let masked = Masked { rule, target };
    may_pass(constant(masked, when, then, MOST_DEPTH))
}

// Whether the try-cast of an ELSE to the type of its CASE, at `start`, can fail to fit.
fn else_can_fail(rule: &[u8], start: usize, at: usize) -> bool
    ensures { result ≡ can_fail_to_fit (type_at rule.now at) (type_at rule.now start) }
{
    can_fail_to_fit(type_of(rule, at), type_of(rule, start))
}

// Whether a node is nullable, by its tag: a column's and a literal's mark, never IS NOT NULL, always try-cast, else as its children.
#[cycle(nullable)]
fn nullable_node(rule: &[u8], start: usize, end: usize, depth: usize) -> bool
    ensures { NullableGives rule.now start end depth result }
{
    if depth == 0 {
        return true;
    }
    if rule.len() <= start {
        return true;
    }
    match rule[start] {
        tag::COLUMN => byte_at(rule, start + 5) == 1,
        tag::LITERAL => byte_at(rule, start + 4) == 1,
        tag::IS_NOT_NULL => false,
        tag::TRY_CAST => true,
        tag::CASE => nullable_case(rule, start, end, depth - 1),
        _ => nullable_any(rule, children_at(rule, start), end, depth - 1),
    }
}

// Whether one of the nodes from one place to another is nullable.
#[cycle(nullable)]
fn nullable_any(rule: &[u8], start: usize, end: usize, depth: usize) -> bool
    ensures { AnyGives rule.now start end depth result }
{
    if rule.len() < end {
        return true;
    }
    let mut at = start;
    // Where the next node stands is read from this one, so no range fits.
    while at < end {
        let next = field_end(rule, at);
        let null = nullable_node(rule, at, next, depth);
        if null {
            return true;
        }
        at = next;
    }
    false
}

// Whether a CASE is nullable.
#[cycle(nullable)]
fn nullable_case(rule: &[u8], start: usize, end: usize, depth: usize) -> bool
    ensures { CaseNullableGives rule.now start end depth result }
{
    if rule.len() <= start {
        return true;
    }
    let base = byte_at(rule, start + 3) % 2;
    let count = byte_at(rule, start + 4);
    let at = behind_fields(rule, start + 5, base as usize);
    nullable_branches(rule, start, at, end, count, base == 1, depth)
}

// Whether a branch or ELSE is nullable, or ELSE's try-cast can fail; without ELSE a CASE is.
#[cycle(nullable)]
fn nullable_branches(
    rule: &[u8],
    start: usize,
    at: usize,
    end: usize,
    count: u8,
    base: bool,
    depth: usize,
) -> bool
    ensures { BranchesNullableGives rule.now start at end count base depth result }
{
    let mut place = at;
    for _ in 0..count {
        let then = field_end(rule, place);
        let next = field_end(rule, then);
        let null = nullable_branch(rule, place, then, next, base, depth);
        if null {
            return true;
        }
        place = next;
    }
    if place == end {
        return true;
    }
    let fails = else_can_fail(rule, start, place);
    if fails {
        return true;
    }
    nullable_node(rule, place, end, depth)
}

// Whether a THEN is nullable and may be taken when it is null.
#[cycle(nullable)]
fn nullable_branch(
    rule: &[u8],
    when: usize,
    then: usize,
    end: usize,
    base: bool,
    depth: usize,
) -> bool
    ensures { BranchNullableGives rule.now when then end base depth result }
{
    let null = nullable_node(rule, then, end, depth);
    if !null {
        return false;
    }
    if base {
        return true;
    }
    is_reachable(rule, when, then, end)
}

// Whether the answer of a rule is marked nullable.
pub(crate) fn nullable_of(rule: &[u8]) -> bool
    ensures { RuleNullableGives rule.now result }
{
    nullable_node(rule, 0, rule.len(), MOST_DEPTH)
}
