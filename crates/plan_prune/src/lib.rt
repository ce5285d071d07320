//! Projection pushdown: a plan reads no columns that it doesn't put out or need.
#![tactic(auto)]

mod push_down;
mod taken;

pub use push_down::ProjectionPushDown;
