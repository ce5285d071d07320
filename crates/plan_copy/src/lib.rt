//! Renumbered copies of plans, what their scans read, and how deep they are.
#![tactic(auto)]

mod copy;
mod depth;
mod moving;
mod numbering;
mod reading;

pub use copy::renumbered;
pub use depth::{expr_depth, expr_roots, plan_depth};
pub use moving::into_renumbered;
pub use reading::{reads, scan_reads};
