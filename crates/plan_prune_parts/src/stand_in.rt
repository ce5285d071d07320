//! The column that stands in for the rows of a plan where they are counted: of a selection or an addition the first that
//! isn't scalar, else the last that the plan says it has.
ghost use Rattle.std.specs.Prelude.{◌≡◌, [], ◌∷◌, All, IfNone, IfOk, IfSome};
ghost use Rattle.plan_expr.specs.declared.aexpr.AExpr.{AExpr};
ghost use Rattle.plan_expr.specs.Operands.{IsExpr};
ghost use Rattle.plan_ir.specs.declared.ir.IR.{IR};
ghost use Rattle.plan_ir.specs.Parts.{IsPlan};
ghost use Rattle.plan_meaning.specs.Counting.{last_name as last_of};
ghost use Rattle.plan_prune_parts.specs.Kept.{made_by as exprs_by, many_at};
ghost use Rattle.plan_prune_parts.specs.Said.{stand_in_at};

use plan_core::{Arena, Node, PlSmallStr, Schema};
use plan_expr::{AExpr, ExprIR, is_scalar, output_name};
use plan_ir::IR;
use plan_schema::stored_schema;
use std::alloc::{AllocError, Global};

/// The first expression that isn't scalar, if there is one.
pub fn first_many<'a>(exprs: &'a [ExprIR], ex: &Arena<AExpr>) -> Option<&'a ExprIR>
    requires { All (λ e. IsExpr ex.now e.node) exprs.now }
    ensures some { IfSome result (λ e. many_at ex.now exprs.now ≡ e.now ∷ []) }
    ensures none { IfNone result (many_at ex.now exprs.now ≡ []) }
{
    for expr in exprs {
        if !is_scalar(expr.node, ex) {
            return Some(expr);
        }
    }
    None
}

/// The name of the last column, if there is one.
fn last_name(columns: &Schema) -> Option<&str>
    ensures some { IfSome result (λ a. last_of columns.now ≡ Some a.now) }
    ensures none { IfNone result (last_of columns.now ≡ None) }
{
    if columns.len() == 0 {
        return None;
    }
    match columns.get_at_index(columns.len() - 1) {
        Some((name, _)) => Some(name),
        None => None,
    }
}

/// The expressions that a selection or an addition makes columns of; none for another node.
fn made_by(node: &IR) -> &[ExprIR]
    ensures { result.now ≡ exprs_by node.now }
{
    match node {
        IR::Select { expr, .. } => expr.as_slice(),
        IR::HStack { exprs, .. } => exprs.as_slice(),
        _ => &[],
    }
}

/// The name of the column that stands in for the rows of the plan at a number, if it has a column. Refuses for want of memory
/// alone.
pub fn stand_in(
    alloc: Global,
    node: Node,
    lp: &Arena<IR>,
    ex: &Arena<AExpr>,
) -> Result<Option<PlSmallStr>, AllocError>
    requires { IsPlan lp.now ex.now node }
    ensures { IfOk result (λ name. name ≡ stand_in_at lp.now ex.now node) }
{
    if let Some(expr) = first_many(made_by(lp.get(node)), ex) {
        return Ok(Some(PlSmallStr::new(alloc, output_name(&expr.output_name))?));
    }
    let stored = stored_schema(alloc, node, lp)?;
    match last_name(stored.columns()) {
        Some(name) => Ok(Some(PlSmallStr::new(alloc, name)?)),
        None => Ok(None),
    }
}
