//! The columns that expressions as trees make over others, with their types.
#![tactic(auto)]

mod schema;
mod typing;

pub use schema::{Context, expressions_to_schema};
