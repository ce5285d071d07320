//! The table that a plan gives over tables that fit it.
#![tactic(auto)]

mod between;
mod distinct;
mod filter;
mod frame_scan;
mod group_by;
mod hconcat;
mod hstack;
mod join;
mod made;
mod only;
mod picked;
mod plan;
mod projection;
mod select;
mod slice;
mod sort;
mod stack;
mod unchanged;
mod union;

pub use plan::evaluate;
pub use plan_meaning::choice_laws;
