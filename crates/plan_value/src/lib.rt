//! The values of expressions over the rows of a table, tables of some of the rows, and rows in groups and in order.
#![tactic(auto)]

mod aggregates;
mod choices;
mod exprs;
mod functions;
mod gathered;
mod groups;
mod keys;
mod operators;
mod orders;
mod rows;
mod spread;

pub use exprs::{Values, column, evaluate_expr, filled, is_true_at, value_at};
pub use gathered::evaluate_groups;
pub use groups::{Groups, grouped, rows_of_groups};
pub use keys::{key_values, typed};
pub use operators::operated;
pub use orders::row_ordering;
pub use rows::{picked_column, rows_at, value_in};
