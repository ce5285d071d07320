//! The checks on lists of columns and of expressions, the columns that expressions make, and the checks of joins.
#![tactic(auto)]

mod columns;
mod exprs;
mod join;
mod join_columns;
mod join_form;
mod join_types;
mod made_columns;
mod types;

pub use columns::{check_columns_known, check_columns_typed, check_stored, columns_differ};
pub use exprs::{
    check_forms, check_leaves, check_leaves_from, check_namings, check_namings_from, check_outputs,
    check_plain, check_types,
};
pub use join::joined_schema;
pub use made_columns::{check_made, made_schema};
pub use types::{is_boolean, is_plain};
