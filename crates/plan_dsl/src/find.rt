//! Whether a tree has an expression of a kind. These calls take no memory.
ghost use Rattle.std.specs.Prelude.{◌≡◌, true, false, All, Any};
ghost use Rattle.std.specs.Bool.{OnTrue, OnFalse};
ghost use Rattle.std.specs.Fn.{FnReturnsAt};
ghost use Rattle.std.specs.List.{list_any};
ghost use Rattle.plan_dsl.specs.Walks.{preorder};
ghost use Rattle.plan_dsl.specs.Names.{is_null};

use crate::expr::Expr;
use plan_expr::LiteralValue;

/// Whether the expression or one below it matches.
pub fn has_expr<F: Fn(&Expr) -> bool>(current_expr: &Expr, matches: F) -> bool
    requires { F.IsAlwaysCallable matches }
    ensures found { OnTrue result (Any (λ e. FnReturnsAt F.Fn matches e true) (preorder current_expr.now)) }
    ensures absent { OnFalse result (All (λ e. FnReturnsAt F.Fn matches e false) (preorder current_expr.now)) }
{
    has_match(current_expr, &matches)
}

/// Whether the expression or one below it matches.
fn has_match<F: Fn(&Expr) -> bool>(expr: &Expr, matches: &F) -> bool
    requires { F.IsAlwaysCallable matches.now }
    ensures found { OnTrue result (Any (λ e. FnReturnsAt F.Fn matches.now e true) (preorder expr.now)) }
    ensures absent { OnFalse result (All (λ e. FnReturnsAt F.Fn matches.now e false) (preorder expr.now)) }
{
    if matches(expr) {
        return true;
    }
    let children = expr.children();
    for index in 0..children.len() {
        if has_match(children.at(index), matches) {
            return true;
        }
    }
    false
}

/// Whether the expression or one below it is a literal without a value.
pub fn has_null(current_expr: &Expr) -> bool
    ensures { result ≡ list_any is_null (preorder current_expr.now) }
{
    has_expr(
        current_expr,
        |expr: &Expr| -> bool
            ensures { result ≡ is_null expr.now }
        { matches!(expr, Expr::Literal(LiteralValue::Null(_))) },
    )
}
