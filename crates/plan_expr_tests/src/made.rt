//! Small expressions, and the places of items, for the tests.
ghost use Rattle.std.specs.Prelude.{◌≡◌, [], ◌∷◌, IfOk, None, Some};
ghost use Rattle.plan_dsl.specs.Parts.{children};
ghost use Rattle.plan_expr_tests.specs.Made.{alias_of, operator_of};

use plan_core::{At, PlSmallStr};
use plan_dsl::Expr;
use plan_expr::Operator;
use std::alloc::{AllocError, Global};

/// A column.
pub fn column(alloc: Global, name: &str) -> Result<Expr, AllocError>
    ensures { IfOk result (λ expr. expr ≡ Expr.Column name.now) }
{
    Ok(Expr::Column(PlSmallStr::new(alloc, name)?))
}

/// A column, in a box.
pub fn boxed(alloc: Global, name: &str) -> Result<Box<Expr>, AllocError>
    ensures { IfOk result (λ boxed. boxed.value ≡ Expr.Column name.now) }
{
    Ok(Box::new(alloc, column(alloc, name)?)?)
}

/// The sum of two columns.
pub fn sum(alloc: Global, left: &str, right: &str) -> Result<Expr, AllocError>
    ensures sum { IfOk result (λ expr. operator_of expr ≡ Some Operator.Plus) }
    ensures sides { IfOk result (λ expr. children expr ≡ Expr.Column left.now ∷ Expr.Column right.now ∷ []) }
{
    let left = boxed(alloc, left)?;
    let right = boxed(alloc, right)?;
    Ok(Expr::BinaryExpr {
        left,
        op: Operator::Plus,
        right,
    })
}

/// An expression under another name.
pub fn named(alloc: Global, expr: Expr, name: &str) -> Result<Expr, AllocError>
    ensures name { IfOk result (λ named. alias_of named ≡ Some name.now) }
    ensures expr { IfOk result (λ named. children named ≡ expr ∷ []) }
{
    Ok(Expr::Alias(Box::new(alloc, expr)?, PlSmallStr::new(alloc, name)?))
}

/// The place of an item, outside plans.
pub fn item(place: u32) -> At
    ensures node { result.node ≡ None }
    ensures place { result.place ≡ place }
{
    At { node: None, place }
}
