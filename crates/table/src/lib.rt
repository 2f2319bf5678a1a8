// Reading a table: where each column's parts stand, and the entry of a column at a row. Every public function takes every argument.
#![tactic(auto)]

pub mod alone;
pub mod column;
pub mod entry;
pub mod nulls;
pub mod part;
pub mod places;
pub mod read;
pub mod slices;
