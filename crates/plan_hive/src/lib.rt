//! The columns that the folders of paths name, with their values.
#![tactic(auto)]

mod hive;
mod hive_columns;
mod hive_parts;
mod hive_values;
mod path_values;

pub use hive::hive_partitions_from_paths;
