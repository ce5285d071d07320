//! Whether an expression has a form: functions carry their own options and have as many inputs as they take, and windows
//! stand over a scalar expression and have keys. These calls take no memory.
ghost use Rattle.std.specs.Prelude.{◌≡◌, All, map};
ghost use Rattle.plan_expr.specs.Exprs.{expr_at, expr_op};
ghost use Rattle.plan_expr.specs.Forms.{form_by, has_form as formed};
ghost use Rattle.plan_expr.specs.Operands.{IsExpr, operands_of};
ghost use Rattle.plan_expr.specs.Scalars.{is_scalar as scalar_expr};

use crate::aexpr::AExpr;
use crate::scalar::is_scalar;
use plan_core::{Arena, Node};

/// Whether an expression may stand over its operands.
fn has_own_form(expr: &AExpr, ex: &Arena<AExpr>) -> bool
    requires { All (IsExpr ex.now) (operands_of expr.now) }
    ensures { result ≡ form_by (expr_op expr.now) (map (λ n. scalar_expr (expr_at ex.now n)) (operands_of expr.now)) }
{
    match expr {
        AExpr::Column(_)
        | AExpr::Literal(_)
        | AExpr::Alias(..)
        | AExpr::BinaryExpr { .. }
        | AExpr::Ternary { .. }
        | AExpr::Agg(_)
        | AExpr::Len => true,
        AExpr::Function {
            input,
            function,
            options,
        } => function.carries(options) && input.len() == function.inputs(),
        AExpr::Window {
            function,
            partition_by,
        } => partition_by.len() != 0 && is_scalar(*function, ex),
    }
}

/// Whether the expression has a form, and all that it is made of: each function in it carries its own options and has as many
/// inputs as it takes, and each window stands over a scalar expression and has keys.
pub fn has_form(node: Node, ex: &Arena<AExpr>) -> bool
    requires { IsExpr ex.now node }
    ensures { result ≡ formed (expr_at ex.now node) }
{
    let expr = ex.get(node);
    if !has_own_form(expr, ex) {
        return false;
    }
    let mut place = 0;
    while let Some(operand) = expr.operand(place) {
        if !has_form(operand, ex) {
            return false;
        }
        place += 1;
    }
    true
}
