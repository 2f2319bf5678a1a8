// Well-formed UTF-8: whether a text is, or where it isn't first. Every public function takes every argument.
#![tactic(auto)]

pub mod ascii;
pub mod sequence;
pub mod validation;
