//! What pruning does at a join: before its sides are pruned, and after.
#![tactic(auto)]

pub mod join;
