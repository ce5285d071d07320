//! A plan with arenas of its own.

use crate::ir::IR;
use plan_core::{Arena, Node};
use plan_expr::AExpr;

/// A plan of its own: the number of its root, and the arenas that its numbers name.
#[derive(Drop)]
pub struct PlanCopy {
    /// The number of the topmost node in `lp`.
    pub root: Node,
    /// The nodes, by their numbers.
    pub lp: Arena<IR>,
    /// The expressions of the nodes, by their numbers.
    pub ex: Arena<AExpr>,
}
