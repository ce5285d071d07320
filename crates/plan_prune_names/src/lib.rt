//! The columns that a plan says it has, by name, and the names that nodes ask of their inputs for that. What functions change of
//! columns is laid over what a node stores once for all functions of a chain, and taken back on the way down.
#![tactic(auto)]

mod among;
mod functions;
mod held;
mod known;
mod known_columns;
mod moved;
mod ordered;
mod places;
mod renaming;
mod replaced;
mod types;
mod walk;

pub use among::add_columns_at;
pub use held::known_with;
pub use known::{known_at, known_by};
pub use known_columns::KnownColumns;
pub use places::Places;
pub use renaming::renamed_names;
pub use walk::descend;
