// Reading a rule, and its public answers: strategy, projection, nullability.
#![tactic(auto)]

pub mod answer;
pub(crate) mod constant;
pub(crate) mod fails;
pub(crate) mod leaf;
pub(crate) mod limits;
pub mod literal;
pub(crate) mod node;
pub(crate) mod nullable;
pub mod projection;
pub mod read;
pub mod seen;
pub mod strategy;
pub mod tag;
pub mod type_of;
pub(crate) mod types;
pub mod walk;
