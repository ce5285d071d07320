//! The table of a scan of files, made from the tables of its sources.
#![tactic(auto)]

mod appended;
mod hive;
mod left;
mod names;
mod numbers;
mod output;
mod parts;
mod reads;
mod scan;

pub use appended::{append, append_column, append_times};
pub use left::{LeftScan, left_scan};
pub use numbers::row_numbers;
pub use scan::scan_table;
