//! Copies of the operands that become right keys, under the names of their own side.
ghost use Rattle.std.specs.Prelude.{◌≡◌, [], ◌∷◌, IfOk, map};
ghost use Rattle.plan_expr.specs.Exprs.{expr_at};
ghost use Rattle.plan_expr.specs.Operands.{IsExpr};
ghost use Rattle.plan_pruned.specs.Renamed.{IsLonger};
ghost use Rattle.plan_prune_parts.specs.Places.{StandExprs, TakePlace};
ghost use Rattle.plan_collapse_laws.specs.CrossKeys.{Crossed, own_expr};
ghost use Rattle.plan_collapse.specs.KeysAt.{AreOrigins, own_in, right_nodes};

use crate::keys::KeyNodes;
use plan_core::{Arena, Items, Node, PlSmallStr};
use plan_expr::{AExpr, aexpr_to_leaf_names};
use plan_prune_parts::Origins;
use plan_pruned::copy_renamed;
use std::alloc::{AllocError, Global};

/// The name that a column of a cross join has on its own side; another name stays.
fn own_name<'a>(origins: &'a Origins, name: &'a str) -> &'a str
    ensures { result.now ≡ own_in origins.now name.now }
{
    match origins.get(name) {
        Some((_, own)) => own,
        None => name,
    }
}

/// The names that columns of a cross join have on their own sides, at their places. Refuses for want of memory alone.
fn own_names(
    alloc: Global,
    origins: &Origins,
    names: &[PlSmallStr],
) -> Result<Items<PlSmallStr>, AllocError>
    ensures { IfOk result (λ own. own ≡ map (own_in origins.now) names.now) }
{
    let mut own = Items::new(alloc);
    for name in names {
        own.push(PlSmallStr::new(alloc, own_name(origins, name.as_str()))?)?;
    }
    Ok(own)
}

/// A copy of an expression over a cross join, under the names that its columns have on their own sides. It is made of new entries.
/// Refuses for want of memory alone.
fn own_copy(
    alloc: Global,
    node: Node,
    origins: &Origins,
    ex: &mut Arena<AExpr>,
) -> Result<Node, AllocError>
    requires { IsExpr ex.old node }
    ensures expr { IfOk result (λ copy. (j : Crossed) → AreOrigins j origins.now → expr_at ex.new copy ≡ own_expr j (expr_at ex.old node)) }
    ensures place { IfOk result (λ copy. TakePlace ex.old ex.new (copy ∷ []) (node ∷ [])) }
    ensures longer { IsLonger ex.old ex.new }
{
    let from = aexpr_to_leaf_names(alloc, node, ex)?;
    let to = own_names(alloc, origins, from.as_slice())?;
    copy_renamed(alloc, node, ex, from.as_slice(), to.as_slice())
}

/// Copies of the right keys over a cross join, under the names that their columns have on their own side, in the place of these.
/// Expressions are only added. Refuses for want of memory alone.
pub fn right_copies(
    alloc: Global,
    keys: &[KeyNodes],
    origins: &Origins,
    ex: &mut Arena<AExpr>,
) -> Result<Items<Node>, AllocError>
    requires { StandExprs ex.old (right_nodes keys.now) }
    ensures exprs { IfOk result (λ copies. (j : Crossed) → AreOrigins j origins.now → map (expr_at ex.new) copies ≡ map (λ k. own_expr j (expr_at ex.old k.right)) keys.now) }
    ensures place { IfOk result (λ copies. TakePlace ex.old ex.new copies (right_nodes keys.now)) }
    ensures longer { IsLonger ex.old ex.new }
{
    let mut copies = Items::new(alloc);
    for key in keys {
        copies.push(own_copy(alloc, key.right, origins, ex)?)?;
    }
    Ok(copies)
}
