//! What scans read from, in which format, and parts of scans in which each column has one value.
#![tactic(auto)]

mod field;
mod file_scan;
pub mod laws;
mod partitions;
mod source_iter;
mod sources;
mod stats;

pub use field::Field;
pub use file_scan::FileScan;
pub use partitions::HivePartitions;
pub use plan_core::{FileCount, FileScanOptions, HiveOptions, RowIndex};
pub use source_iter::ScanSourceIter;
pub use sources::{ScanSourceRef, ScanSources};
pub use stats::{BatchStats, ColumnStats};
