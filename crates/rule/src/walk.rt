// Steps over the fields of a rule. Where a field is cut it ends with the rule; behind the rule's end each stays.
ghost use Rattle.std.specs.Prelude.{◌≡◌};
ghost use Rattle.rule.specs.Walked.{field_end, children_at, behind_fields};

use crate::tag;
use layout::field::field_at;

// Where the field at a place ends.
#[tactic(auto, unfolding(crate::specs::Walked::field_end))]
pub fn field_end(rule: &[u8], at: usize) -> usize
    ensures { result ≡ field_end rule.now at }
{
    if rule.len() <= at {
        return at;
    }
    match field_at(rule, at) {
        Some(p) => p.end,
        None => rule.len(),
    }
}

// Where a node's children stand: behind its header, a type byte of a cast, flags and count of a CASE; a leaf has none.
#[tactic(auto, unfolding(crate::specs::Walked::children_at))]
pub fn children_at(rule: &[u8], at: usize) -> usize
    ensures { result ≡ children_at rule.now at }
{
    if rule.len() <= at {
        return at;
    }
    // An arm for each tag: of these a table of jumps is made, and of patterns with `|` a chain of tests, at each step of a walk.
    match rule[at] {
        tag::COLUMN => field_end(rule, at),
        tag::LITERAL => field_end(rule, at),
        tag::CAST => at + 4,
        tag::TRY_CAST => at + 4,
        tag::CASE => at + 5,
        _ => at + 3,
    }
}

// What stands behind so many fields.
pub fn behind_fields(rule: &[u8], at: usize, count: usize) -> usize
    ensures { result ≡ behind_fields rule.now at count }
{
    let mut place = at;
    for _ in 0..count {
        place = field_end(rule, place);
    }
    place
}
