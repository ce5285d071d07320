//! Whether two expressions are the same tree. These calls take no memory.
ghost use Rattle.std.specs.Prelude.{◌≡◌, ◌↔◌, IsTrue};
ghost use Rattle.plan_expr.specs.Exprs.{expr_at, expr_op};
ghost use Rattle.plan_expr.specs.Operands.{IsExpr};
ghost use Rattle.plan_expr.specs.Same.{same_op, same_tree};

use crate::AExpr;
use plan_core::{Arena, Node};

/// Whether two expressions are the same beside their operands.
fn same_operator(left: &AExpr, right: &AExpr) -> bool
    ensures { result ≡ same_op (expr_op left.now) (expr_op right.now) }
{
    match (left, right) {
        (AExpr::Column(a), AExpr::Column(b)) => *a == *b,
        (AExpr::Literal(a), AExpr::Literal(b)) => *a == *b,
        (AExpr::Alias(_, a), AExpr::Alias(_, b)) => *a == *b,
        (AExpr::BinaryExpr { op: a, .. }, AExpr::BinaryExpr { op: b, .. }) => *a == *b,
        (AExpr::Ternary { .. }, AExpr::Ternary { .. }) => true,
        (AExpr::Agg(a), AExpr::Agg(b)) => a.aggregate() == b.aggregate(),
        (
            AExpr::Function {
                function: a,
                options: o,
                ..
            },
            AExpr::Function {
                function: b,
                options: p,
                ..
            },
        ) => *a == *b && *o == *p,
        (AExpr::Window { .. }, AExpr::Window { .. }) => true,
        (AExpr::Len, AExpr::Len) => true,
        _ => false,
    }
}

/// Whether two expressions have the same operators over the same operands.
fn is_same(left: Node, right: Node, ex: &Arena<AExpr>) -> bool
    requires left { IsExpr ex.now left }
    requires right { IsExpr ex.now right }
    ensures { result ≡ same_tree (expr_at ex.now left) (expr_at ex.now right) }
{
    let own = ex.get(left);
    let other = ex.get(right);
    if !same_operator(own, other) {
        return false;
    }
    let mut place = 0;
    while let Some(operand) = own.operand(place) {
        let Some(partner) = other.operand(place) else {
            return false;
        };
        if !is_same(operand, partner, ex) {
            return false;
        }
        place += 1;
    }
    other.operand(place).is_none()
}

/// Whether two expressions are the same tree, whatever the numbers of what they are made of.
pub fn same_expr(left: Node, right: Node, ex: &Arena<AExpr>) -> bool
    requires left { IsExpr ex.now left }
    requires right { IsExpr ex.now right }
    ensures value { result ≡ same_tree (expr_at ex.now left) (expr_at ex.now right) }
    ensures same { IsTrue result ↔ (expr_at ex.now left ≡ expr_at ex.now right) }
{
    is_same(left, right, ex)
}
