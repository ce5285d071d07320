//! The chain of passes over a plan, and the trail of what they leave.
#![tactic(auto)]

mod chain;
mod passes;
mod steps;
mod trail;

pub use chain::{optimize, optimize_with};
pub use trail::{Pass, Step, Trail};
