//! Whether an expression of an arena has one of a kind in it. These calls take no memory.
ghost use Rattle.std.specs.Prelude.{◌≡◌, true, false, All, Any};
ghost use Rattle.std.specs.Bool.{OnTrue, OnFalse};
ghost use Rattle.std.specs.Fn.{FnReturnsAt};
ghost use Rattle.std.specs.List.{list_any};
ghost use Rattle.plan_expr.specs.Operands.{IsExpr};
ghost use Rattle.plan_expr.specs.Walks.{is_literal, is_window, reached};

use crate::aexpr::AExpr;
use plan_core::{Arena, Node};

/// Whether the expression or one below it matches.
pub fn has_aexpr<F: Fn(&AExpr) -> bool>(node: Node, ex: &Arena<AExpr>, matches: F) -> bool
    requires stands { IsExpr ex.now node }
    requires callable { F.IsAlwaysCallable matches }
    ensures found { OnTrue result (Any (λ e. FnReturnsAt F.Fn matches e true) (reached ex.now node)) }
    ensures absent { OnFalse result (All (λ e. FnReturnsAt F.Fn matches e false) (reached ex.now node)) }
{
    has_match(node, ex, &matches)
}

/// Whether the expression or one below it matches.
fn has_match<F: Fn(&AExpr) -> bool>(node: Node, ex: &Arena<AExpr>, matches: &F) -> bool
    requires stands { IsExpr ex.now node }
    requires callable { F.IsAlwaysCallable matches.now }
    ensures found { OnTrue result (Any (λ e. FnReturnsAt F.Fn matches.now e true) (reached ex.now node)) }
    ensures absent { OnFalse result (All (λ e. FnReturnsAt F.Fn matches.now e false) (reached ex.now node)) }
{
    let expr = ex.get(node);
    if matches(expr) {
        return true;
    }
    let mut place = 0;
    while let Some(operand) = expr.operand(place) {
        if has_match(operand, ex, matches) {
            return true;
        }
        place += 1;
    }
    false
}

/// Whether the expression or one below it is a literal.
pub fn has_aexpr_literal(node: Node, ex: &Arena<AExpr>) -> bool
    requires { IsExpr ex.now node }
    ensures { result ≡ list_any is_literal (reached ex.now node) }
{
    has_aexpr(
        node,
        ex,
        |expr: &AExpr| -> bool
            ensures { result ≡ is_literal expr.now }
        { matches!(expr, AExpr::Literal(_)) },
    )
}

/// Whether the expression or one below it is a window.
pub fn has_aexpr_window(node: Node, ex: &Arena<AExpr>) -> bool
    requires { IsExpr ex.now node }
    ensures { result ≡ list_any is_window (reached ex.now node) }
{
    has_aexpr(
        node,
        ex,
        |expr: &AExpr| -> bool
            ensures { result ≡ is_window expr.now }
        { matches!(expr, AExpr::Window { .. }) },
    )
}
