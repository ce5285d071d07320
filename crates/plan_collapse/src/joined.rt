//! Expressions joined by And.
ghost use Rattle.std.specs.Prelude.{◌≡◌, [], ◌∷◌, ◌++◌, IfOk, fold, length, map, option_map};
ghost use Rattle.plan_expr.specs.Exprs.{expr_at};
ghost use Rattle.plan_ir.specs.Parts.{list_of};
ghost use Rattle.plan_pruned.specs.Renamed.{IsLonger};
ghost use Rattle.plan_prune_parts.specs.Places.{StandExprs, TakePlace};
ghost use Rattle.plan_collapse_laws.specs.TakenKeys.{and_all as and_of, and_expr};

use plan_core::{Arena, Node};
use plan_expr::{AExpr, Operator};
use std::alloc::AllocError;

/// Joins an expression and others by And, nested to the left, at new entries; an And stands in the place of all. Refuses for want of
/// memory alone.
fn and_with(first: Node, others: &[Node], ex: &mut Arena<AExpr>) -> Result<Node, AllocError>
    requires { StandExprs ex.old (first ∷ others.now) }
    ensures expr { IfOk result (λ made. expr_at ex.new made ≡ fold and_expr (expr_at ex.old first) (map (expr_at ex.old) others.now)) }
    ensures place { IfOk result (λ made. TakePlace ex.old ex.new (made ∷ []) (first ∷ others.now)) }
    ensures longer { IsLonger ex.old ex.new }
{
    let mut made = first;
    for other in others {
        made = ex.add(AExpr::BinaryExpr {
            left: made,
            op: Operator::And,
            right: *other,
        })?;
    }
    Ok(made)
}

/// Joins expressions by And, nested to the left, at new entries; where there are some, it stands in the place of all. Refuses for want
/// of memory alone.
pub fn and_all(nodes: &[Node], ex: &mut Arena<AExpr>) -> Result<Option<Node>, AllocError>
    requires { StandExprs ex.old nodes.now }
    ensures expr { IfOk result (λ made. option_map (expr_at ex.new) made ≡ and_of (map (expr_at ex.old) nodes.now)) }
    ensures place { IfOk result (λ made. TakePlace ex.old ex.new (list_of made) nodes.now) }
    ensures longer { IsLonger ex.old ex.new }
{
    match nodes.split_first() {
        Some((first, others)) => Ok(Some(and_with(*first, others, ex)?)),
        None => Ok(None),
    }
}
