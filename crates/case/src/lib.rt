// Evaluation of a rule over a table.
#![tactic(auto)]

pub(crate) mod binary;
pub(crate) mod boolean_lookup_table;
pub(crate) mod bytes_like_lookup_table;
pub(crate) mod case;
pub(crate) mod case_values;
pub(crate) mod casting;
pub(crate) mod cells;
pub(crate) mod column;
pub(crate) mod column_lookup;
pub mod evaluate;
pub(crate) mod fits;
pub(crate) mod keys;
pub(crate) mod literal;
pub(crate) mod literal_lookup_table;
pub(crate) mod merge;
pub(crate) mod nested;
pub(crate) mod primitive_lookup_table;
pub(crate) mod results;
pub(crate) mod root;
pub(crate) mod rows;
pub(crate) mod settle;
pub(crate) mod slot;
pub(crate) mod steps;
pub(crate) mod taking;
pub(crate) mod truth;
pub(crate) mod when_literal_index_map;
