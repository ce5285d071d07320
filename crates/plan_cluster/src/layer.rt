//! The nodes of a run of additions, taken out of their arena.

use plan_core::{Items, ProjectionOptions, Schema};
use plan_expr::ExprIR;

/// An addition of columns: its expressions, the columns that it says it has, and its options.
#[derive(Drop, Debug)]
pub struct Addition {
    /// The expressions.
    pub exprs: Items<ExprIR>,
    /// The columns below it with those that it adds.
    pub schema: Schema,
    /// How it goes about it.
    pub options: ProjectionOptions,
}

/// A node of a run of additions, taken out of its arena.
#[derive(Drop, Debug)]
pub enum Layer {
    /// An addition of columns.
    Adds(Addition),
    /// A projection that restores the order of columns.
    Projects(Schema),
}
