//! The parts of entries, in lists of their own, and what stands in them by place.
ghost use Rattle.std.specs.Prelude.{◌≡◌, ◌<◌, ◌^◌, IfErr, IfOk, IfSome, Some, length, map, slice_get};
ghost use Rattle.plan_core.specs.declared.error.PolarsError.TheVariants.{OutOfMemory};
ghost use Rattle.plan_expr.specs.declared.aexpr.AExpr.{AExpr};
ghost use Rattle.plan_expr.specs.declared.expr_ir.ExprIR.{ExprIR};
ghost use Rattle.plan_expr.specs.Operands.{operands_of};
ghost use Rattle.plan_ir.specs.declared.ir.IR.{IR};
ghost use Rattle.plan_ir.specs.Parts.{inputs_of, listed_exprs_of};

use plan_core::{Arena, Items, Node, PolarsResult};
use plan_expr::{AExpr, ExprIR};
use plan_ir::IR;
use plan_tree::Entry;
use std::alloc::Global;

/// The operands of an expression, in order. Refuses for want of memory alone.
pub(crate) fn operands_at(alloc: Global, ex: &Arena<AExpr>, node: Node) -> PolarsResult<Items<Node>>
    requires { node.0 < length ex.now }
    ensures memory { IfErr result (λ e. e ≡ OutOfMemory) }
    ensures operands { IfOk result (λ r. (p : AExpr) × (slice_get ex.now node.0 ≡ Some p) × (r ≡ operands_of p)) }
{
    let mut operands = Items::new(alloc);
    ex.get(node).copy_inputs(&mut operands)?;
    Ok(operands)
}

/// The expressions that a node lists, in order. Refuses for want of memory alone.
pub(crate) fn exprs_at(alloc: Global, lp: &Arena<IR>, node: Node) -> PolarsResult<Items<ExprIR>>
    requires { node.0 < length lp.now }
    ensures memory { IfErr result (λ e. e ≡ OutOfMemory) }
    ensures exprs { IfOk result (λ r. (p : IR) × (slice_get lp.now node.0 ≡ Some p) × (r ≡ listed_exprs_of p)) }
{
    Ok(lp.get(node).get_exprs(alloc)?)
}

/// The inputs of a node, from first to last. Refuses for want of memory alone.
pub(crate) fn inputs_at(alloc: Global, lp: &Arena<IR>, node: Node) -> PolarsResult<Items<Node>>
    requires { node.0 < length lp.now }
    ensures memory { IfErr result (λ e. e ≡ OutOfMemory) }
    ensures inputs { IfOk result (λ r. (p : IR) × (slice_get lp.now node.0 ≡ Some p) × (r ≡ inputs_of p)) }
{
    Ok(lp.get(node).get_inputs_vec(alloc)?)
}

/// The number in a place, counted from 0, if there are so many.
pub(crate) fn node_at(nodes: &[Node], place: usize) -> Option<Node>
    ensures there { result ≡ slice_get nodes.now place }
    ensures further { IfSome result (λ _. place < 2 ^ 63) }
{
    if place < nodes.len() {
        Some(nodes[place])
    } else {
        None
    }
}

/// The number of the expression in a place, counted from 0, if there are so many.
pub(crate) fn root_at(exprs: &[ExprIR], place: usize) -> Option<Node>
    ensures there { result ≡ slice_get (map (λ (e : ExprIR). e.node) exprs.now) place }
    ensures further { IfSome result (λ _. place < 2 ^ 63) }
{
    if place < exprs.len() {
        Some(exprs[place].node())
    } else {
        None
    }
}
