//! Passes over the order and the number of rows: which kinds of nodes a plan has, the sorts and marks of order that nothing observes,
//! and the bare count.
#![tactic(auto)]

mod count_star;
mod demands;
mod flags;
mod marks;
mod members;
mod scans;
mod together;

pub use count_star::CountStar;
pub use flags::set_order_flags;
pub use members::MemberCollector;
