//! The checks of a plan: its numbers, then its nodes in order; its columns, or its first fault.
#![tactic(auto)]

mod distinct;
mod filter;
mod frame_scan;
mod group_by;
mod hconcat;
mod made;
mod mapped;
mod plan;
mod projection;
mod renamed;
mod scan;
mod scan_columns;
mod scan_types;
mod sort;
mod tree;
mod union;

pub use filter::check_filter;
pub use frame_scan::check_frame_scan;
pub use group_by::group_schema;
pub use plan::{check_nodes, check_plan};
pub use projection::check_projection;
pub use scan::check_scan;
pub use tree::check_tree;
