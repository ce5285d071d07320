//! Frames, and what expressions mean over them: the definitions, their laws, and what is asked of expressions over columns.
#![tactic(auto)]

mod exprs;
pub mod laws;

pub use exprs::{all_scalar, counts_rows, expr_type, reads_only};
