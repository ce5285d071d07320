//! The table that a join gives of two tables.
#![tactic(auto)]

mod compared;
mod equal;
mod fills;
mod join;
mod joined;
mod reads;
mod runs;
mod unequal;
mod worked;

pub use join::evaluate_join;
