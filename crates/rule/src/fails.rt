// Whether a constant cast of a rule fails (refusal 8).
ghost use Rattle.rule.specs.ConstantWalks.{ColumnGives, FailsHereGives, FailsGives};

use crate::constant::{Masked, constant};
use crate::limits::MOST_DEPTH;
use crate::tag;
use crate::walk::{children_at, field_end};
use layout::part::part_of;
use scalar::value::Value;

// Whether the node at a place is a column or has one under it.
fn names_column(rule: &[u8], start: usize, end: usize) -> bool
    ensures { ColumnGives rule.now start end result }
{
    if rule.len() < end {
        return false;
    }
    let mut at = start;
    // Where the next node stands is read from this one, so no range fits.
    while at < end {
        if rule[at] == tag::COLUMN {
            return true;
        }
        at = children_at(rule, at);
    }
    false
}

// Whether the node at a place is a cast with no column under it whose value doesn't fit.
fn fails_here(rule: &[u8], start: usize) -> bool
    ensures { FailsHereGives rule.now start result }
{
    if rule.len() <= start {
        return false;
    }
    if rule[start] != tag::CAST {
        return false;
    }
    let end = field_end(rule, start);
    if names_column(rule, start, end) {
        return false;
    }
    let masked = Masked {
        rule,
        target: part_of(rule, 0, 0),
    };
    matches!(constant(masked, start, end, MOST_DEPTH), Value::Failed)
}

// Whether a cast with no column under it fails, anywhere in the rule.
pub(crate) fn constant_fails(rule: &[u8]) -> bool
    ensures { FailsGives rule.now result }
{
    let mut at = 0;
    // Where the next node stands is read from this one, so no range fits.
    while at < rule.len() {
        if fails_here(rule, at) {
            return true;
        }
        at = children_at(rule, at);
    }
    false
}
