//! Copies of expressions whose columns have other names.
ghost use Rattle.std.specs.Prelude.{◌≡◌, ◌≤◌, ◌<◌, ◌++◌, Some, length, reverse, slice_get, IfOk, OnOk};
ghost use Rattle.plan_tree.specs.Rose.{labels};
ghost use Rattle.plan_tree.specs.Read.{tree_at};
ghost use Rattle.plan_expr.specs.Exprs.{expr_op};
ghost use Rattle.plan_expr.specs.Operands.{expr_shape, operands_of, IsExpr};
ghost use Rattle.plan_meaning.specs.Functions.{names_now, renamed};
ghost use Rattle.plan_pruned.specs.Renamed.{renamed_op, IsLonger, IsNext, IsRenamed};

use plan_core::{Arena, Items, Node, PlSmallStr};
use plan_expr::AExpr;
use plan_schema::Renaming;
use plan_tree::{Entry, Step, walk};
use std::alloc::{AllocError, Global};

/// An expression over other operands, under its new name if it is a column.
fn renamed_over(
    alloc: Global,
    expr: &AExpr,
    operands: &[Node],
    names: &Renaming,
) -> Result<AExpr, AllocError>
    requires { length operands.now ≡ length (operands_of expr.now) }
    ensures operands { IfOk result (λ e. operands_of e ≡ operands.now) }
    ensures op { IfOk result (λ e. expr_op e ≡ renamed_op (names_now names.now) (expr_op expr.now)) }
{
    match expr {
        AExpr::Column(name) => Ok(AExpr::Column(PlSmallStr::new(alloc, names.now(name.as_str()))?)),
        _ => expr.with_operands(alloc, operands),
    }
}

/// Takes so many numbers from the end, the last one first.
fn taken(alloc: Global, copies: &mut Items<Node>, count: usize) -> Result<Items<Node>, AllocError>
    requires { count ≤ length copies.old }
    ensures taken { IfOk result (λ taken. reverse copies.old ≡ taken ++ reverse copies.new) }
    ensures count { IfOk result (λ taken. length taken ≡ count) }
{
    let mut taken = Items::new(alloc);
    for _ in 0..count {
        if let Some(node) = copies.pop() {
            taken.push(node)?;
        }
    }
    Ok(taken)
}

/// Puts a copy of an expression over the copies of its operands, which are the last ones, the first operand's last.
fn copy_one(
    alloc: Global,
    node: Node,
    ex: &mut Arena<AExpr>,
    names: &Renaming,
    copies: &mut Items<Node>,
) -> Result<(), AllocError>
    requires within { node.0 < length ex.old }
    requires operands { (e : AExpr) → slice_get ex.old node.0 ≡ Some e → length (operands_of e) ≤ length copies.old }
    ensures copied { OnOk result (IsNext (names_now names.now) ex.old ex.new node copies.old copies.new) }
    ensures longer { IsLonger ex.old ex.new }
{
    let mut operands = Items::new(alloc);
    ex.get(node).copy_inputs(&mut operands)?;
    let operands = taken(alloc, copies, operands.len())?;
    let copy = renamed_over(alloc, ex.get(node), operands.as_slice(), names)?;
    copies.push(ex.add(copy)?)
}

/// A copy of an expression of which these are the numbers in walk order.
fn copy_listed(
    alloc: Global,
    node: Node,
    listed: &[Node],
    ex: &mut Arena<AExpr>,
    names: &Renaming,
) -> Result<Node, AllocError>
    requires stands { IsExpr ex.old node }
    requires in_order { listed.now ≡ labels (tree_at expr_shape ex.old node) }
    ensures copied { IfOk result (IsRenamed (names_now names.now) ex.old ex.new node) }
    ensures longer { IsLonger ex.old ex.new }
{
    let mut copies = Items::new(alloc);
    let mut left = listed.len();
    while left > 0 {
        left -= 1;
        copy_one(alloc, listed[left], ex, names, &mut copies)?;
    }
    Ok(copies.pop().unwrap())
}

/// The number of a copy of the expression at a number: of each column that is called as one of `from`, the name becomes the
/// one of `to` at the first such place. The copy is made of new entries, and all that were there stay. Refuses for want of
/// memory alone; entries that nothing reaches may have been added then. It keeps a stack of its own, and takes the time of
/// the expression and of the names.
pub fn copy_renamed(
    alloc: Global,
    node: Node,
    ex: &mut Arena<AExpr>,
    from: &[PlSmallStr],
    to: &[PlSmallStr],
) -> Result<Node, AllocError>
    requires stands { IsExpr ex.old node }
    requires equal { length from.now ≡ length to.now }
    ensures copied { IfOk result (IsRenamed (renamed from.now to.now) ex.old ex.new node) }
    ensures longer { IsLonger ex.old ex.new }
{
    let names = Renaming::new(alloc, from, to)?;
    let start = Step { node, mark: () };
    let listed = walk(alloc, ex, &[start])?.listed;
    copy_listed(alloc, node, listed.as_slice(), ex, &names)
}
