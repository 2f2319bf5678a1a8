// Values of one row, and what NOT, negative, IS NOT NULL, the casts and the comparisons make of them. Every function takes every
// argument.
#![tactic(auto)]

pub mod cast;
pub mod compare;
pub mod is_not_null;
pub mod negative;
pub mod not;
pub mod order;
pub mod text;
pub mod truncate;
pub mod try_cast;
pub mod types;
pub mod value;
