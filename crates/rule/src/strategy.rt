// How a CASE is evaluated, named as in the Rust.
ghost use Rattle.std.specs.Prelude.{◌≡◌};
ghost use Rattle.rule.specs.Strategy.{strategy_number};
ghost use Rattle.rule.specs.WalkedStrategy.{null_there, else_there, literals_there, when_there, else_serves_at, table_serves_at, single_at, strategy_at};

use crate::tag;
use crate::type_of::type_of;
use crate::walk::{behind_fields, field_end};
use layout::number::byte_at;

// A closed set: the `match`es show that none is left out, which closures don't.
#[derive(Clone, Copy, Debug, PartialEq, Eq)]
pub enum Strategy {
    NoExpression,
    WithExpression,
    InfallibleExprOrNull,
    ScalarOrScalar,
    ExpressionOrExpression,
    WithExprScalarLookupTable,
}

impl Strategy {
    // The number of a strategy.
    pub fn number(self) -> u8
        ensures { result ≡ strategy_number self }
    {
        match self {
            Strategy::NoExpression => 1,
            Strategy::WithExpression => 2,
            Strategy::InfallibleExprOrNull => 3,
            Strategy::ScalarOrScalar => 4,
            Strategy::ExpressionOrExpression => 5,
            Strategy::WithExprScalarLookupTable => 6,
        }
    }
}

// Whether the node at a place is a null literal.
#[tactic(auto, unfolding(crate::specs::WalkedStrategy::null_there))]
fn is_null_literal(rule: &[u8], at: usize) -> bool
    ensures { result ≡ null_there rule.now at }
{
    byte_at(rule, at) == tag::LITERAL && byte_at(rule, at + 4) == 1
}

// Whether an ELSE is there that is no null literal.
#[tactic(auto, unfolding(crate::specs::WalkedStrategy::else_there))]
fn else_there(rule: &[u8], at: usize, end: usize) -> bool
    ensures { result ≡ else_there rule.now at end }
{
    at != end && !is_null_literal(rule, at)
}

// Whether so many fields are all literals.
fn all_literals(rule: &[u8], at: usize, count: usize) -> bool
    ensures { result ≡ literals_there rule.now at count }
{
    let mut place = at;
    for _ in 0..count {
        if byte_at(rule, place) != tag::LITERAL {
            return false;
        }
        place = field_end(rule, place);
    }
    true
}

// Whether some WHEN of so many branches is no null literal.
fn some_when(rule: &[u8], at: usize, count: u8) -> bool
    ensures { result ≡ when_there rule.now at count }
{
    let mut place = at;
    for _ in 0..count {
        let null = is_null_literal(rule, place);
        if !null {
            return true;
        }
        place = behind_fields(rule, place, 2);
    }
    false
}

// Whether ELSE is absent, or a literal of the type of a THEN.
#[tactic(auto, unfolding(crate::specs::WalkedStrategy::else_serves_at))]
fn else_serves(rule: &[u8], at: usize, end: usize, then: usize) -> bool
    ensures { result ≡ else_serves_at rule.now at end then }
{
    !else_there(rule, at, end)
        || byte_at(rule, at) == tag::LITERAL && type_of(rule, at) == type_of(rule, then)
}

// Whether a lookup table serves: at least two branches, all literals, some WHEN not null, and an ELSE that serves.
#[tactic(auto, unfolding(crate::specs::WalkedStrategy::table_serves_at))]
fn table_serves(rule: &[u8], at: usize, end: usize, count: u8) -> bool
    ensures { result ≡ table_serves_at rule.now at end count }
{
    let fields = 2 * (count as usize);
    1 < count
        && all_literals(rule, at, fields)
        && some_when(rule, at, count)
        && else_serves(
            rule,
            behind_fields(rule, at, fields),
            end,
            field_end(rule, at),
        )
}

// One branch without a base: THEN a column and no ELSE, THEN and ELSE literals, or any other.
#[tactic(auto, unfolding(crate::specs::WalkedStrategy::single_at))]
fn single_branch(rule: &[u8], at: usize, end: usize) -> Strategy
    ensures { result ≡ single_at rule.now at end }
{
    let then = field_end(rule, at);
    let els = field_end(rule, then);
    let tag = byte_at(rule, then);
    let there = else_there(rule, els, end);
    if there {
        if tag != tag::LITERAL {
            return Strategy::ExpressionOrExpression;
        }
        if byte_at(rule, els) != tag::LITERAL {
            return Strategy::ExpressionOrExpression;
        }
        return Strategy::ScalarOrScalar;
    }
    if tag != tag::COLUMN {
        return Strategy::ExpressionOrExpression;
    }
    Strategy::InfallibleExprOrNull
}

// The strategy of the CASE at a place; where none stands, that of no expression.
#[tactic(auto, unfolding(crate::specs::WalkedStrategy::strategy_at))]
pub fn strategy_at(rule: &[u8], start: usize, end: usize) -> Strategy
    ensures { result ≡ strategy_at rule.now start end }
{
    if byte_at(rule, start) != tag::CASE {
        return Strategy::NoExpression;
    }
    let base = byte_at(rule, start + 3) % 2;
    let count = byte_at(rule, start + 4);
    let at = behind_fields(rule, start + 5, base as usize);
    if base == 1 {
        let serves = table_serves(rule, at, end, count);
        if serves {
            return Strategy::WithExprScalarLookupTable;
        }
        return Strategy::WithExpression;
    }
    if count == 1 {
        return single_branch(rule, at, end);
    }
    Strategy::NoExpression
}
