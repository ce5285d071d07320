//! Copies of expressions under other names.
#![tactic(auto)]

mod columns;
mod functions;
pub mod laws;
mod names;
mod renamed;

pub use columns::{asked_columns, kept_columns, pruned_output, typed_columns};
pub use functions::{known_names, needed_names};
pub use names::{add_columns, add_listed, copied_names, listed_names};
pub use renamed::copy_renamed;
