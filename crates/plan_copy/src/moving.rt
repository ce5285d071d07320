//! Plans on their own, made of the nodes that were given: their columns and names move over, and none is copied.
ghost use Rattle.std.specs.Prelude.{◌≡◌, ◌<◌, [], All, length, map, nat_eq, IfOk, MatchBool, OnOk, slice_get};
ghost use Rattle.std.specs.List.{IsDistinct};
ghost use Rattle.plan_tree.specs.Stands.{numbers};
ghost use Rattle.plan_ir.specs.Copies.{IsRenumbered};
ghost use Rattle.plan_copy.specs.Lists.{Numbers};
ghost use Rattle.plan_ir.specs.Moved.{entries_at, moved_named, moved_node};
ghost use Rattle.plan_ir.specs.Parts.{list_of, IsPlan};

use crate::copy::{Numbered, move_node, moved_exprs, number_plan};
use crate::numbering::Numbering;
use plan_core::{Arena, Node};
use plan_expr::{AExpr, ExprIR};
use plan_ir::{IR, PlanCopy};
use std::alloc::{AllocError, Global};

/// Gives an expression that a node may have its new number.
fn renumber_named(expr: &mut Option<ExprIR>, exprs: &Numbering)
    ensures { expr.new ≡ slice_get (map (moved_named exprs.now) (list_of expr.old)) 0 }
{
    if let Some(named) = expr {
        named.node = exprs.new_number(named.node);
    }
}

/// Gives the inputs and expressions of a node that can be large new numbers, where it stands; any other is left as it is,
/// and the answer is false.
fn renumber_large(node: &mut IR, nodes: &Numbering, exprs: &Numbering) -> bool
    ensures { MatchBool result (node.new ≡ moved_node nodes.now exprs.now node.old) (node.new ≡ node.old) }
{
    match node {
        IR::Scan { predicate, .. } => {
            renumber_named(predicate, exprs);
            true
        }
        IR::SimpleProjection { input, .. } => {
            *input = nodes.new_number(*input);
            true
        }
        _ => false,
    }
}

/// A node whose inputs and expressions have new numbers. What is large in it moves over.
fn take_node(
    alloc: Global,
    node: IR,
    nodes: &Numbering,
    exprs: &Numbering,
) -> Result<IR, AllocError>
    ensures { IfOk result (λ moved. moved ≡ moved_node nodes.now exprs.now node) }
{
    let mut moved = node;
    if renumber_large(&mut moved, nodes, exprs) {
        Ok(moved)
    } else {
        let copy = move_node(alloc, &moved, nodes, exprs);
        drop(moved);
        copy
    }
}

/// An arena of the listed nodes, in order, whose inputs and expressions have new numbers.
fn taken_nodes(
    alloc: Global,
    listed: &[Node],
    left: &mut Arena<IR>,
    nodes: &Numbering,
    exprs: &Numbering,
) -> Result<Arena<IR>, AllocError>
    requires within { All (λ n. n.0 < length left.old) listed.now }
    requires distinct { IsDistinct nat_eq (numbers listed.now) }
    ensures { IfOk result (λ taken. taken ≡ map (moved_node nodes.now exprs.now) (entries_at left.old listed.now)) }
{
    let mut taken = Arena::with_capacity(alloc, listed.len())?;
    take_nodes(alloc, listed, left, &mut taken, nodes, exprs)?;
    Ok(taken)
}

/// Takes the listed nodes, in order, into an arena without nodes, each with new numbers for its inputs and expressions.
fn take_nodes(
    alloc: Global,
    listed: &[Node],
    left: &mut Arena<IR>,
    taken: &mut Arena<IR>,
    nodes: &Numbering,
    exprs: &Numbering,
) -> Result<(), AllocError>
    requires within { All (λ n. n.0 < length left.old) listed.now }
    requires distinct { IsDistinct nat_eq (numbers listed.now) }
    requires none { taken.old ≡ [] }
    ensures { OnOk result (taken.new ≡ map (moved_node nodes.now exprs.now) (entries_at left.old listed.now)) }
{
    for node in listed {
        let moved = take_node(alloc, left.take(*node), nodes, exprs)?;
        taken.add(moved)?;
    }
    Ok(())
}

/// A plan on its own, from what was found of it, of nodes that are taken from the arena.
fn take_plan(
    alloc: Global,
    root: Node,
    found: &Numbered,
    lp: &mut Arena<IR>,
    ex: &Arena<AExpr>,
) -> Result<PlanCopy, AllocError>
    requires { Numbers lp.old ex.now root found.now }
    ensures { IfOk result (λ copy. IsRenumbered lp.old ex.now root copy) }
{
    let own_ex = moved_exprs(alloc, found.listed.exprs.as_slice(), ex, &found.exprs)?;
    let own_lp = taken_nodes(
        alloc,
        found.listed.nodes.as_slice(),
        lp,
        &found.nodes,
        &found.exprs,
    )?;
    Ok(PlanCopy {
        root: found.nodes.new_number(root),
        lp: own_lp,
        ex: own_ex,
    })
}

/// The plan at a root, on its own, of nodes that are taken from the arena.
fn take_listed(
    alloc: Global,
    root: Node,
    lp: &mut Arena<IR>,
    ex: &Arena<AExpr>,
) -> Result<PlanCopy, AllocError>
    requires { IsPlan lp.old ex.now root }
    ensures { IfOk result (λ copy. IsRenumbered lp.old ex.now root copy) }
{
    let found = number_plan(alloc, root, lp, ex)?;
    let copy = take_plan(alloc, root, &found, lp, ex);
    drop(found);
    copy
}

/// The plan at a root, on its own as `renumbered` makes it, of the arenas' own nodes: no column is copied. What the
/// plan doesn't reach is dropped. Refuses for want of memory alone.
pub fn into_renumbered(
    alloc: Global,
    root: Node,
    lp: Arena<IR>,
    ex: Arena<AExpr>,
) -> Result<PlanCopy, AllocError>
    requires { IsPlan lp ex root }
    ensures { IfOk result (λ copy. IsRenumbered lp ex root copy) }
{
    let mut left = lp;
    let copy = take_listed(alloc, root, &mut left, &ex);
    drop(left);
    drop(ex);
    copy
}
