//! Which tables fit a plan.
#![tactic(auto)]

mod fitting;
pub mod inputs;
mod sources;

pub use fitting::fits;
pub use sources::table_of;
