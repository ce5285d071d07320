//! What pruning asks of the sides of a join, and the join over the pruned sides.
#![tactic(auto)]

mod arguments;
mod condition;
pub mod cover;
pub mod exprs;
mod kept;
mod names;
mod origins;
mod pruned;
mod sides;
pub mod stand_in;
mod step;
mod top;

pub use arguments::narrowed_args;
pub use kept::Kept;
pub use names::JoinNames;
pub use origins::Origins;
pub use pruned::{PrunedJoin, pruned_join};
pub use sides::{asks, asks_unasked};
pub use step::Step;
pub use top::Top;
