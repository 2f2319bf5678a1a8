// A listing, put at a place of a lent buffer. Every public function takes every argument.
#![tactic(auto)]

pub mod digits;
pub mod entry;
pub mod line;
pub mod put;
pub mod shown;
pub mod whole;
