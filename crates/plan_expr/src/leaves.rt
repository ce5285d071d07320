//! The columns that an expression of an arena reads.
ghost use Rattle.std.specs.Prelude.{◌≡◌, length, slice_get, Some, None, IfOk, option_map};
ghost use Rattle.std.specs.Iterator.{YieldsFirstRef, item_count};
ghost use Rattle.plan_expr.specs.declared.aexpr.AExpr.TheVariants.{Column};
ghost use Rattle.plan_expr.specs.Exprs.{expr_at};
ghost use Rattle.plan_expr.specs.Leaves.{Name, leaves};
ghost use Rattle.plan_expr.specs.Operands.{IsExpr};

use crate::aexpr::AExpr;
use crate::iterator::{AExprIter, ArenaExprIter};
use plan_core::{Arena, ColumnNode, Items, Node, PlSmallStr, TryClone};
use std::alloc::{AllocError, Global};
use std::marker::Model;

/// The names of the columns of a walk that are left, in walk order. A contract sees their list.
#[derive(Drop)]
pub struct AExprLeafNames<'a> {
    walk: AExprIter<'a>,
}

impl<'a> Model for AExprLeafNames<'a> {
    ghost use Rattle.std.specs.Prelude.{List, ℕ};
    ghost use Rattle.plan_expr.specs.Walks.{column_names};

    ghost Value = { List (List ℕ) };

    ghost view = { λ names. column_names names.walk };
}

impl<'a> Iterator for AExprLeafNames<'a> {
    type Item = &'a PlSmallStr;

    ghost next_gives = { YieldsFirstRef (λ names. names) };

    ghost remaining = { item_count (λ names. names) };

    fn next(&mut self) -> Option<&'a PlSmallStr> {
        while let Some((_, expr)) = self.walk.next() {
            if let AExpr::Column(name) = expr {
                return Some(name);
            }
        }
        None
    }
}

/// The names of the columns in the expression, in walk order, with repeats. All memory that they take is taken here; it
/// refuses for want of it alone.
pub fn aexpr_to_leaf_names_iter(
    alloc: Global,
    node: Node,
    ex: &Arena<AExpr>,
) -> Result<AExprLeafNames<'_>, AllocError>
    requires { IsExpr ex.now node }
    ensures { IfOk result (λ names. names ≡ leaves (expr_at ex.now node)) }
{
    Ok(AExprLeafNames {
        walk: ex.iter(alloc, node)?,
    })
}

/// The names of the columns in the expression, in walk order, with repeats. Refuses for want of memory alone.
pub fn aexpr_to_leaf_names(
    alloc: Global,
    node: Node,
    ex: &Arena<AExpr>,
) -> Result<Items<PlSmallStr>, AllocError>
    requires { IsExpr ex.now node }
    ensures { IfOk result (λ names. names ≡ leaves (expr_at ex.now node)) }
{
    let mut names = Items::new(alloc);
    for name in aexpr_to_leaf_names_iter(alloc, node, ex)? {
        names.push(name.try_clone(alloc)?)?;
    }
    Ok(names)
}

/// The name of the first column in the expression, in walk order, if there is one. Refuses for want of memory alone.
pub fn aexpr_to_leaf_name(
    alloc: Global,
    node: Node,
    ex: &Arena<AExpr>,
) -> Result<Option<PlSmallStr>, AllocError>
    requires { IsExpr ex.now node }
    ensures { IfOk result (λ name. name ≡ slice_get (leaves (expr_at ex.now node)) 0) }
{
    match aexpr_to_leaf_names_iter(alloc, node, ex)?.next() {
        Some(name) => Ok(Some(name.try_clone(alloc)?)),
        None => Ok(None),
    }
}

/// The name of the column that a number stands for.
pub fn column_node_to_name(node: ColumnNode, ex: &Arena<AExpr>) -> &PlSmallStr
    requires { (name : Name) × (slice_get ex.now node.0.0 ≡ Some (Column name)) }
    ensures { slice_get ex.now node.0.0 ≡ Some (Column result.now) }
{
    match ex.get(node.0) {
        AExpr::Column(name) => name,
        _ => unreachable!(),
    }
}
