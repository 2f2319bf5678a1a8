// The type of a node.
ghost use Rattle.std.specs.Prelude.{◌≡◌};
ghost use Rattle.rule.specs.Walked.{type_from, first_then, type_at};

use crate::tag;
use crate::walk::behind_fields;
use layout::number::byte_at;
use scalar::types::DataType;

// The type of a number; Utf8 for one that no other type has.
pub fn type_numbered(n: u8) -> DataType
    ensures { result ≡ type_from n }
{
    DataType::numbered(n).unwrap_or(DataType::Utf8)
}

// Where the first THEN of the CASE at a place stands: behind the base, if there is one, and a WHEN.
#[tactic(auto, unfolding(crate::specs::Walked::first_then))]
fn first_then(rule: &[u8], at: usize) -> usize
    ensures { result ≡ first_then rule.now at }
{
    if rule.len() <= at {
        return at;
    }
    let base = (byte_at(rule, at + 3) % 2) as usize;
    behind_fields(rule, at + 5, base + 1)
}

// The type of the node at a place: its own byte, its child's, or that of the first THEN.
pub fn type_of(rule: &[u8], start: usize) -> DataType
    ensures { result ≡ type_at rule.now start }
{
    let mut at = start;
    // Where the next node stands is read from this one, so no range fits.
    while at < rule.len() {
        match rule[at] {
            tag::COLUMN => return type_numbered(byte_at(rule, at + 4)),
            tag::LITERAL | tag::CAST | tag::TRY_CAST => {
                return type_numbered(byte_at(rule, at + 3));
            }
            tag::NEGATIVE => at += 3,
            tag::CASE => at = first_then(rule, at),
            _ => return DataType::Boolean,
        }
    }
    DataType::Boolean
}
