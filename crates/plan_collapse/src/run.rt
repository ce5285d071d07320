//! The minterms of a run of filters.
ghost use Rattle.std.specs.Prelude.{◌≡◌, IfOk, OnOk, map};
ghost use Rattle.std.specs.List.{flat_map};
ghost use Rattle.plan_expr.specs.Exprs.{expr_at};
ghost use Rattle.plan_expr.specs.Operands.{IsExpr};
ghost use Rattle.plan_meaning.specs.Minterms.{minterms};
ghost use Rattle.plan_prune_parts.specs.Places.{StandExprs, TakePlace};
ghost use Rattle.plan_collapse.specs.KeysAt.{AddsMinterms};

use crate::minterms::MintermIter;
use plan_core::{Arena, Items, Node};
use plan_expr::AExpr;
use std::alloc::{AllocError, Global};

/// Adds the numbers of the minterms of an expression. Refuses for want of memory alone.
fn add_minterms(
    alloc: Global,
    node: Node,
    all: &mut Items<Node>,
    ex: &Arena<AExpr>,
) -> Result<(), AllocError>
    requires { IsExpr ex.now node }
    ensures { OnOk result (AddsMinterms ex.now node all.old all.new) }
{
    for minterm in MintermIter::new(alloc, node, ex)? {
        all.push(minterm)?;
    }
    Ok(())
}

/// The numbers of the minterms of the predicates of a run of filters, from the topmost down; they stand in the place of the predicates.
/// Refuses for want of memory alone.
pub fn run_minterms(
    alloc: Global,
    run: &[Node],
    ex: &Arena<AExpr>,
) -> Result<Items<Node>, AllocError>
    requires { StandExprs ex.now run.now }
    ensures exprs { IfOk result (λ ns. map (expr_at ex.now) ns ≡ flat_map minterms (map (expr_at ex.now) run.now)) }
    ensures place { IfOk result (λ ns. TakePlace ex.now ex.now ns run.now) }
{
    let mut all = Items::new(alloc);
    for node in run {
        add_minterms(alloc, *node, &mut all, ex)?;
    }
    Ok(all)
}
