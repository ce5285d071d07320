//! Minterms above a cross join, split into the keys of a join in its place and what remains.
ghost use Rattle.std.specs.Prelude.{◌≡◌, ◌++◌, [], ◌∷◌, false, true, IfNone, IfOk, IfSome, None, OnOk, length, option_map};
ghost use Rattle.plan_expr.specs.Exprs.{expr_at};
ghost use Rattle.plan_expr.specs.Operands.{IsExpr};
ghost use Rattle.plan_prune_parts.specs.Places.{StandExprs, TakePlace};
ghost use Rattle.plan_collapse_laws.specs.CrossKeys.{Crossed, equality_keys as equality_keys_of, inequality_keys as inequality_keys_of};
ghost use Rattle.plan_collapse.specs.KeysAt.{AreOrigins, both_nodes, IsSplit, pair_at, split_nodes};

use crate::keys::{KeyNodes, equality_keys, inequality_keys};
use plan_core::{Arena, Items, Node, Schema};
use plan_expr::AExpr;
use plan_prune_parts::Origins;
use std::alloc::{AllocError, Global};

/// Minterms above a cross join, of which some are keys of a join in its place.
#[derive(Drop)]
pub struct Split {
    /// The keys that those give.
    pub keys: Items<KeyNodes>,
    /// The numbers of the others.
    pub rest: Items<Node>,
}

/// Adds the keys that a minterm gives, or else the minterm. Refuses for want of memory alone.
fn add(split: &mut Split, minterm: Node, found: Option<KeyNodes>) -> Result<(), AllocError>
    ensures some { OnOk result (IfSome found (λ k. (split.new.keys ≡ split.old.keys ++ k ∷ []) × (split.new.rest ≡ split.old.rest))) }
    ensures none { OnOk result (IfNone found ((split.new.keys ≡ split.old.keys) × (split.new.rest ≡ split.old.rest ++ minterm ∷ []))) }
{
    match found {
        Some(keys) => split.keys.push(keys),
        None => split.rest.push(minterm),
    }
}

/// Nothing split yet.
fn none(alloc: Global) -> Split
    ensures keys { result.keys ≡ [] }
    ensures rest { result.rest ≡ [] }
{
    Split {
        keys: Items::new(alloc),
        rest: Items::new(alloc),
    }
}

/// Minterms above a cross join, split into the keys of all that are equalities with each operand from one side alone, and the others;
/// keys and others stand in their place. Refuses for want of memory alone.
pub fn split_equalities(
    alloc: Global,
    minterms: &[Node],
    origins: &Origins,
    ex: &Arena<AExpr>,
) -> Result<Split, AllocError>
    requires { StandExprs ex.now minterms.now }
    ensures split { IfOk result (λ split. (j : Crossed) → AreOrigins j origins.now → IsSplit ex.now j (length minterms.now) (equality_keys_of j) minterms.now split) }
    ensures place { IfOk result (λ split. TakePlace ex.now ex.now (split_nodes split) minterms.now) }
{
    let mut split = none(alloc);
    for minterm in minterms {
        let found = equality_keys(alloc, *minterm, origins, ex)?;
        add(&mut split, *minterm, found)?;
    }
    Ok(split)
}

/// The keys that a minterm gives, if they are wanted and it is an inequality that gives some. Refuses for want of memory alone.
fn inequality_if(
    alloc: Global,
    wanted: bool,
    node: Node,
    origins: &Origins,
    left: &Schema,
    ex: &Arena<AExpr>,
) -> Result<Option<KeyNodes>, AllocError>
    requires { IsExpr ex.now node }
    ensures keys { wanted ≡ true → IfOk result (λ found. (j : Crossed) → AreOrigins j origins.now → j.left ≡ left.now → option_map (pair_at ex.now j) found ≡ inequality_keys_of j (expr_at ex.now node)) }
    ensures none { wanted ≡ false → IfOk result (λ found. found ≡ None) }
    ensures place { IfOk result (λ found. IfSome found (λ k. TakePlace ex.now ex.now (both_nodes k) (node ∷ []))) }
{
    if wanted {
        return inequality_keys(alloc, node, origins, left, ex);
    }
    Ok(None)
}

/// Minterms above a cross join, split into the keys of the first two that are inequalities of whole numbers with each operand from one
/// side alone, and the others; keys and others stand in their place. These are the columns of the left side. Refuses for want of memory
/// alone.
pub fn split_inequalities(
    alloc: Global,
    minterms: &[Node],
    origins: &Origins,
    left: &Schema,
    ex: &Arena<AExpr>,
) -> Result<Split, AllocError>
    requires { StandExprs ex.now minterms.now }
    ensures split { IfOk result (λ split. (j : Crossed) → AreOrigins j origins.now → j.left ≡ left.now → IsSplit ex.now j 2 (inequality_keys_of j) minterms.now split) }
    ensures place { IfOk result (λ split. TakePlace ex.now ex.now (split_nodes split) minterms.now) }
{
    let mut split = none(alloc);
    for minterm in minterms {
        let wanted = split.keys.len() < 2;
        let found = inequality_if(alloc, wanted, *minterm, origins, left, ex)?;
        add(&mut split, *minterm, found)?;
    }
    Ok(split)
}
