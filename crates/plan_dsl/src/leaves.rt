//! The columns that stand in expressions.
ghost use Rattle.std.specs.Prelude.{◌≡◌, length, Some, IfOk, IfErr};
ghost use Rattle.std.specs.Iterator.{YieldsFirstRef, item_count};
ghost use Rattle.plan_dsl.specs.Names.{column_name, is_leaf_column, leaf_column_name, leaf_column_names};
ghost use Rattle.plan_expr.specs.Refusals.{RefusesNone};

use crate::expr::Expr;
use crate::expr_iter::ExprIter;
use plan_core::{At, Items, PlSmallStr, PolarsError, PolarsResult, TryClone};
use std::alloc::{AllocError, Global};
use std::marker::Model;

/// The names of the columns in an expression that are left, in walk order. A contract sees their list.
#[derive(Drop)]
pub struct LeafColumnNames<'a> {
    walk: ExprIter<'a>,
}

impl<'a> Model for LeafColumnNames<'a> {
    ghost use Rattle.std.specs.Prelude.{List, ℕ};
    ghost use Rattle.std.specs.List.{filter_map};
    ghost use Rattle.plan_dsl.specs.Names.{column_name};

    ghost Value = { List (List ℕ) };

    ghost view = { λ names. filter_map column_name names.walk };
}

impl<'a> Iterator for LeafColumnNames<'a> {
    type Item = &'a PlSmallStr;

    ghost next_gives = { YieldsFirstRef (λ names. names) };

    ghost remaining = { item_count (λ names. names) };

    fn next(&mut self) -> Option<&'a PlSmallStr> {
        while let Some(expr) = self.walk.next() {
            if let Expr::Column(name) = expr {
                return Some(name);
            }
        }
        None
    }
}

impl Expr {
    /// Whether the expression is a column, or stands for all of them.
    fn is_leaf_column(&self) -> bool
        ensures { result ≡ is_leaf_column self.now }
    {
        matches!(self, Expr::Column(_) | Expr::Wildcard)
    }
}

/// The names of the columns in the expression, in walk order, with repeats. All memory that they take
/// is taken here.
pub fn expr_to_leaf_column_names_iter(
    alloc: Global,
    expr: &Expr,
) -> Result<LeafColumnNames<'_>, AllocError>
    ensures { IfOk result (λ names. names ≡ leaf_column_names expr.now) }
{
    Ok(LeafColumnNames {
        walk: expr.iter(alloc)?,
    })
}

/// The names of the columns in the expression, in walk order, with repeats. Refuses for want of memory alone.
pub fn expr_to_leaf_column_names(
    alloc: Global,
    expr: &Expr,
) -> Result<Items<PlSmallStr>, AllocError>
    ensures { IfOk result (λ names. names ≡ leaf_column_names expr.now) }
{
    let mut names = Items::new(alloc);
    for name in expr_to_leaf_column_names_iter(alloc, expr)? {
        names.push(name.try_clone(alloc)?)?;
    }
    Ok(names)
}

/// The name of the only column in the expression. It is a computation fault where the columns and
/// the expressions that stand for all of them aren't one, or that one stands for all.
pub fn expr_to_leaf_column_name(alloc: Global, expr: &Expr) -> PolarsResult<PlSmallStr>
    ensures name { IfOk result (λ name. leaf_column_name expr.now ≡ Some name) }
    ensures fault { IfErr result (RefusesNone (leaf_column_name expr.now)) }
{
    let fault = PolarsError::ComputeError(At {
        node: None,
        place: 0,
    });
    let mut found = None;
    for leaf in expr.iter(alloc)? {
        if leaf.is_leaf_column() {
            if found.is_some() {
                return Err(fault);
            }
            found = Some(leaf);
        }
    }
    match found {
        Some(Expr::Column(name)) => Ok(name.try_clone(alloc)?),
        _ => Err(fault),
    }
}
