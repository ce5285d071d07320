//! What a cross join becomes, by the minterms of the run of filters above it.
ghost use Rattle.std.specs.Prelude.{◌≡◌, IfOk};
ghost use Rattle.plan_prune_parts.specs.Places.{StandExprs};
ghost use Rattle.plan_collapse_laws.specs.CrossKeys.{Crossed};
ghost use Rattle.plan_collapse.specs.KeysAt.{AreOrigins};
ghost use Rattle.plan_collapse.specs.Ways.{is_free_order, IsWay, StandsInPlace};

use crate::named::operators_of;
use crate::split::{Split, split_equalities, split_inequalities};
use plan_core::{Arena, Node, Schema};
use plan_expr::AExpr;
use plan_options::{IEJoinOptions, JoinType, MaintainOrderJoin};
use plan_prune_parts::Origins;
use std::alloc::{AllocError, Global};

/// What a cross join becomes.
#[derive(Drop)]
pub enum Way {
    /// A join of this kind on keys, told these inequalities, if it is told any.
    OnKeys(JoinType, Option<IEJoinOptions>, Split),
    /// A cross join by a condition.
    Condition,
    /// What it is, under its run.
    Stays,
}

/// Whether an order is free.
fn is_free(order: MaintainOrderJoin) -> bool
    ensures { result ≡ is_free_order order }
{
    matches!(order, MaintainOrderJoin::None)
}

/// What a cross join with this order becomes that has minterms above it: a join on all equalities with each operand from one side alone;
/// where there are none, on the first two such inequalities of whole numbers; else one by a condition where its order is free. These are
/// the columns of its left side. Refuses for want of memory alone.
pub fn way_of(
    alloc: Global,
    minterms: &[Node],
    origins: &Origins,
    left: &Schema,
    order: MaintainOrderJoin,
    ex: &Arena<AExpr>,
) -> Result<Way, AllocError>
    requires { StandExprs ex.now minterms.now }
    ensures way { IfOk result (λ way. (j : Crossed) → AreOrigins j origins.now → j.left ≡ left.now → IsWay ex.now j minterms.now order way) }
    ensures place { IfOk result (λ way. StandsInPlace ex.now minterms.now way) }
{
    let equal = split_equalities(alloc, minterms, origins, ex)?;
    if equal.keys.len() > 0 {
        return Ok(Way::OnKeys(JoinType::Inner, None, equal));
    }
    let unequal = split_inequalities(alloc, minterms, origins, left, ex)?;
    if unequal.keys.len() > 0 {
        let operators = operators_of(unequal.keys.as_slice());
        return Ok(Way::OnKeys(JoinType::IEJoin, operators, unequal));
    }
    if is_free(order) {
        return Ok(Way::Condition);
    }
    Ok(Way::Stays)
}
