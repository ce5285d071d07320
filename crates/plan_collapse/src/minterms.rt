//! The operands of nested And in an expression of an arena, one after another.
ghost use Rattle.std.specs.Prelude.{◌≡◌, ◌++◌, [], ◌∷◌, false, IfNone, IfOk, IfSome, OnOk, map};
ghost use Rattle.std.specs.Iterator.{YieldsFirst, item_count};
ghost use Rattle.plan_expr.specs.declared.aexpr.AExpr.TheVariants.{BinaryExpr};
ghost use Rattle.plan_expr.specs.declared.operator.Operator.TheVariants.{And};
ghost use Rattle.plan_expr.specs.Exprs.{expr_at, expr_op};
ghost use Rattle.plan_expr.specs.Operands.{IsExpr};
ghost use Rattle.plan_meaning.specs.Minterms.{is_and, minterms};
ghost use Rattle.plan_prune_parts.specs.Places.{TakePlace};

use plan_core::{Arena, Items, Node};
use plan_expr::{AExpr, Operator};
use std::alloc::{AllocError, Global};
use std::marker::Model;
use std::vec::IntoIter;

/// The operands of an And, if the expression is one.
fn and_operands(expr: &AExpr) -> Option<(Node, Node)>
    ensures some { IfSome result (λ operands. expr.now ≡ BinaryExpr operands.0 And operands.1) }
    ensures none { IfNone result (is_and (expr_op expr.now) ≡ false) }
{
    match expr {
        AExpr::BinaryExpr {
            left,
            op: Operator::And,
            right,
        } => Some((*left, *right)),
        _ => None,
    }
}

/// Puts two operands on a stack, the left one on top. Refuses for want of memory alone.
fn stack_operands(operands: (Node, Node), pending: &mut Items<Node>) -> Result<(), AllocError>
    ensures { OnOk result (pending.new ≡ (pending.old ++ operands.1 ∷ []) ++ operands.0 ∷ []) }
{
    pending.push(operands.1)?;
    pending.push(operands.0)
}

/// The numbers of the minterms of an expression, whose trees stand in its place. It keeps a stack of its own, in which the right operand waits for what is left
/// of the left one. Refuses for want of memory alone.
pub(crate) fn list_minterms(
    alloc: Global,
    node: Node,
    ex: &Arena<AExpr>,
) -> Result<Vec<Node>, AllocError>
    requires { IsExpr ex.now node }
    ensures exprs { IfOk result (λ ns. map (expr_at ex.now) ns.items ≡ minterms (expr_at ex.now node)) }
    ensures place { IfOk result (λ ns. TakePlace ex.now ex.now ns.items (node ∷ [])) }
{
    let mut numbers = Vec::new(alloc);
    let mut pending = Items::new(alloc);
    pending.push(node)?;
    while let Some(next) = pending.pop() {
        let Some(operands) = and_operands(ex.get(next)) else {
            numbers.push(next)?;
            continue;
        };
        stack_operands(operands, &mut pending)?;
    }
    Ok(numbers)
}

/// The minterms of an expression that are left, by their numbers: the operands of nested And, left first; an expression that is no And
/// is its own single one. A contract sees the list of the numbers.
#[derive(Drop)]
pub struct MintermIter {
    numbers: IntoIter<Node, Global>,
}

impl Model for MintermIter {
    ghost use Rattle.std.specs.Prelude.{List};
    ghost use Rattle.std.specs.Vec.Iter.{into_iter_items};
    ghost use Rattle.plan_core.specs.declared.arena.Node.{Node};

    ghost Value = { List Node };

    ghost view = { λ minterms. into_iter_items minterms.numbers };
}

impl MintermIter {
    /// The minterms of the expression at a number, whose trees stand in its place. All memory that they take is taken here; it refuses
    /// for want of it alone.
    pub fn new(alloc: Global, node: Node, ex: &Arena<AExpr>) -> Result<Self, AllocError>
        requires { IsExpr ex.now node }
        ensures exprs { IfOk result (λ ns. map (expr_at ex.now) ns ≡ minterms (expr_at ex.now node)) }
        ensures place { IfOk result (λ ns. TakePlace ex.now ex.now ns (node ∷ [])) }
    {
        Ok(MintermIter {
            numbers: list_minterms(alloc, node, ex)?.into_iter(),
        })
    }
}

impl Iterator for MintermIter {
    type Item = Node;

    ghost next_gives = { YieldsFirst (λ minterms. minterms) };

    ghost remaining = { item_count (λ minterms. minterms) };

    fn next(&mut self) -> Option<Node> {
        self.numbers.next()
    }
}
