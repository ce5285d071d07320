//! A plan that is written as a JSON value reads as that plan: the definitions, and their laws.
#![tactic(auto)]

pub mod laws;
pub mod listed_laws;
