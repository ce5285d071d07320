//! Plans built from below: each call puts a node on the plan that there is.
#![tactic(auto)]

mod builder;
mod functions;
mod group_by;
mod join;
pub mod laws;
mod made;
mod simple;

pub use builder::IRBuilder;
