// Byte layouts: tagged fields, little-endian numbers, bit positions, parts of slices; and why a call stops. Every function takes every argument.
#![tactic(auto)]

pub mod bits;
pub mod field;
pub mod number;
pub mod part;
pub mod refusal;
