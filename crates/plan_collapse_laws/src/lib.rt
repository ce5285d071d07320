//! Filters over joins: the pairs of rows that they keep, and joins by more conditions under fewer filters. The definitions, and their laws.
#![tactic(auto)]

pub mod addition_laws;
pub mod join_laws;
