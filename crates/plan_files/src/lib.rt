//! The columns of the files of a scan, and which of them it reads.
#![tactic(auto)]

mod columns;
mod hive;

pub use columns::{FileColumns, file_columns};
pub use hive::{hive_schema, is_hive, parts_alike, plain_names};
