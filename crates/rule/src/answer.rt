// The public answers about a rule: each is a refusal or what was asked.
ghost use Rattle.std.specs.Prelude.{◌≡◌};
ghost use Rattle.rule.specs.Reading.{read_rule};
ghost use Rattle.rule.specs.Answers.{rule_answer, strategy_answer, nullable_answer, projection_answer};

use crate::projection::{Projection, projected};
use crate::read::{read_accepted, read_rule};
use crate::strategy::{Strategy, strategy_at};
use layout::refusal::Refusal;
use scalar::types::DataType;

// Reads a rule: the result's type.
pub fn read(rule: &[u8]) -> Result<DataType, Refusal>
    ensures { result ≡ rule_answer (read_rule rule.now) }
{
    let r = read_accepted(rule)?;
    Ok(r.result)
}

// The root CASE's strategy.
pub fn strategy(rule: &[u8]) -> Result<Strategy, Refusal>
    ensures { result ≡ strategy_answer (read_rule rule.now) }
{
    read_accepted(rule)?;
    Ok(strategy_at(rule, 0, rule.len()))
}

// Whether the answer of a rule is marked nullable.
pub fn nullable(rule: &[u8]) -> Result<bool, Refusal>
    ensures { result ≡ nullable_answer (read_rule rule.now) }
{
    let r = read_rule(rule)?;
    Ok(r.nullable)
}

// The projection of a rule.
pub fn projection(rule: &[u8]) -> Result<Projection, Refusal>
    ensures { result ≡ projection_answer (read_rule rule.now) }
{
    let r = read_accepted(rule)?;
    Ok(projected(r.seen))
}
