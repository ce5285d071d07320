//! The JSON values of what stands under the keys of objects, and of the objects.
#![tactic(auto)]

mod cells;
mod functions;
mod hive;
mod join_options;
mod lists;
mod members;
mod scan_sources;
mod values;

pub use lists::each_entry;
pub use values::object;
