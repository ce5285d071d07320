//! Whether an expression has one value, and whether it works row by row. These calls take no memory.
ghost use Rattle.std.specs.Prelude.{◌≡◌, Bool, not, IfSome, IfNone};
ghost use Rattle.std.specs.List.{list_all};
ghost use Rattle.plan_expr.specs.Operands.{IsExpr};
ghost use Rattle.plan_expr.specs.Exprs.{expr_at, expr_op};
ghost use Rattle.plan_expr.specs.Scalars.{is_scalar as scalar_expr, scalar_by};
ghost use Rattle.plan_expr.specs.Walks.{reached, works_row_wise as row_wise};

use crate::aexpr::AExpr;
use crate::find::has_aexpr;
use plan_core::{Arena, Node};

/// Whether an expression is scalar, where that is settled without its operands; else it is where they all are.
fn settled_scalar(expr: &AExpr) -> Option<bool>
    ensures settled { IfSome result (λ b. (all : Bool) → scalar_by (expr_op expr.now) all ≡ b) }
    ensures open { IfNone result ((all : Bool) → scalar_by (expr_op expr.now) all ≡ all) }
{
    match expr {
        AExpr::Column(_) | AExpr::Window { .. } => Some(false),
        AExpr::Literal(_) | AExpr::Agg(_) | AExpr::Len => Some(true),
        AExpr::Alias(..)
        | AExpr::BinaryExpr { .. }
        | AExpr::Ternary { .. }
        | AExpr::Function { .. } => None,
    }
}

/// Whether the expression is scalar: it has one value, whatever the frame. Literals, aggregates and the number of rows are,
/// columns and windows aren't, and all else is where its operands all are.
pub fn is_scalar(node: Node, ex: &Arena<AExpr>) -> bool
    requires { IsExpr ex.now node }
    ensures { result ≡ scalar_expr (expr_at ex.now node) }
{
    let expr = ex.get(node);
    if let Some(settled) = settled_scalar(expr) {
        return settled;
    }
    let mut place = 0;
    while let Some(operand) = expr.operand(place) {
        if !is_scalar(operand, ex) {
            return false;
        }
        place += 1;
    }
    true
}

/// Whether an expression gives each of its values by one row of its operands alone.
fn works_row_wise(expr: &AExpr) -> bool
    ensures { result ≡ row_wise expr.now }
{
    match expr {
        AExpr::Column(_)
        | AExpr::Literal(_)
        | AExpr::Alias(..)
        | AExpr::BinaryExpr { .. }
        | AExpr::Ternary { .. } => true,
        AExpr::Function { function, .. } => function.is_elementwise(),
        AExpr::Agg(_) | AExpr::Window { .. } | AExpr::Len => false,
    }
}

/// Whether the expression is elementwise: no aggregate, window or number of rows is in it, and no function but those that
/// work row by row.
pub fn is_elementwise(node: Node, ex: &Arena<AExpr>) -> bool
    requires { IsExpr ex.now node }
    ensures { result ≡ list_all row_wise (reached ex.now node) }
{
    !has_aexpr(
        node,
        ex,
        |expr: &AExpr| -> bool
            ensures { result ≡ not (row_wise expr.now) }
        { !works_row_wise(expr) },
    )
}
