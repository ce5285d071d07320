//! The texts of plans, listings, errors and schemas.
#![tactic(auto)]

mod exprs;
mod joins;
mod listing;
mod nodes;
mod plan;
mod rows;
mod texts;

pub use texts::{write_fault, write_listing, write_plan, write_schema};
