//! Which expressions of an addition directly on another have to stay: found by a list of names that grows while it is walked.
ghost use Rattle.std.specs.Prelude.{◌≡◌, All, IfOk, OnOk, length, option_and_then, option_map, slice_get};
ghost use Rattle.std.specs.List.{filter as only_where, list_any};
ghost use Rattle.plan_core.specs.Names.{AreDistinct, has, with_names};
ghost use Rattle.plan_expr.specs.Exprs.{Named, all_named_at, expr_at};
ghost use Rattle.plan_expr.specs.Leaves.{leaves};
ghost use Rattle.plan_expr.specs.Operands.{IsExpr};
ghost use Rattle.plan_frame.specs.ExprLists.{all_leaves, out_names};
ghost use Rattle.plan_collapse_laws.specs.Staying.{IsOne, out, reads_one, stays};
ghost use Rattle.plan_cluster.specs.ExprNames.{expr_named, expr_names};
ghost use Rattle.plan_cluster.specs.Found.{found_after, found_first, found_next, is_awaited, remade_and_read};

use crate::places::Places;
use plan_core::{Arena, Names, Node};
use plan_expr::{AExpr, ExprIR, aexpr_to_leaf_names_iter, output_name};
use std::alloc::{AllocError, Global};

/// Adds the names that an expression reads. Says whether one of them is a lower output. Refuses for want of memory alone.
fn add_leaves(
    alloc: Global,
    node: Node,
    lower: &Places,
    ex: &Arena<AExpr>,
    read: &mut Names,
) -> Result<bool, AllocError>
    requires { IsExpr ex.now node }
    ensures reads { IfOk result (λ reads. reads ≡ list_any (has lower.now) (leaves (expr_at ex.now node))) }
    ensures added { OnOk result (read.new ≡ with_names read.old (leaves (expr_at ex.now node))) }
{
    let mut reads = false;
    for name in aexpr_to_leaf_names_iter(alloc, node, ex)? {
        if lower.contains(name.as_str()) {
            reads = true;
        }
        let _ = read.add(name.as_str())?;
    }
    Ok(reads)
}

/// Adds to `found` the names of the expressions that read a lower output, and to `read` all names that are read. Refuses for want of
/// memory alone.
fn add_readers(
    alloc: Global,
    upper: &[ExprIR],
    lower: &Places,
    ex: &Arena<AExpr>,
    read: &mut Names,
    found: &mut Names,
) -> Result<(), AllocError>
    requires { All (λ e. IsExpr ex.now e.node) upper.now }
    ensures read { OnOk result (read.new ≡ with_names read.old (all_leaves (all_named_at ex.now upper.now))) }
    ensures found { OnOk result (found.new ≡ with_names found.old (out_names (only_where (reads_one lower.now) (all_named_at ex.now upper.now)))) }
{
    for expr in upper {
        if add_leaves(alloc, expr.node, lower, ex, read)? {
            let _ = found.add(output_name(&expr.output_name))?;
        }
    }
    Ok(())
}

/// Adds the names of the expressions that remake a lower output that is read. Refuses for want of memory alone.
fn add_remakers(
    upper: &[ExprIR],
    lower: &Places,
    read: &Names,
    found: &mut Names,
) -> Result<(), AllocError>
    ensures { OnOk result (found.new ≡ with_names found.old (only_where (remade_and_read lower.now read.now) (expr_names upper.now))) }
{
    for expr in upper {
        let name = output_name(&expr.output_name);
        if lower.contains(name) && read.contains(name) {
            let _ = found.add(name)?;
        }
    }
    Ok(())
}

/// Adds the names of the upper expressions that an expression reads, but for lower outputs. Refuses for want of memory alone.
fn add_awaited(
    alloc: Global,
    node: Node,
    upper: &Places,
    lower: &Places,
    ex: &Arena<AExpr>,
    found: &mut Names,
) -> Result<(), AllocError>
    requires { IsExpr ex.now node }
    ensures { OnOk result (found.new ≡ with_names found.old (only_where (is_awaited upper.now lower.now) (leaves (expr_at ex.now node)))) }
{
    for name in aexpr_to_leaf_names_iter(alloc, node, ex)? {
        if upper.contains(name.as_str()) && !lower.contains(name.as_str()) {
            let _ = found.add(name.as_str())?;
        }
    }
    Ok(())
}

/// The number of the expression whose name stands in a place among those that are found, if there is one.
fn found_node(upper: &[ExprIR], places: &Places, found: &Names, place: usize) -> Option<Node>
    requires { places.now ≡ expr_names upper.now }
    ensures { result ≡ option_map (λ e. e.node) (option_and_then (expr_named upper.now) (slice_get found.now place)) }
{
    let name = found.get_at_index(place)?;
    let expr = places.find(upper, name)?;
    Some(expr.node)
}

/// Adds the names that the expression awaits whose name stands in a place among those that are found. Refuses for want of memory alone.
fn add_next(
    alloc: Global,
    upper: &[ExprIR],
    places: &Places,
    lower: &Places,
    ex: &Arena<AExpr>,
    place: usize,
    found: &mut Names,
) -> Result<(), AllocError>
    requires stand { All (λ e. IsExpr ex.now e.node) upper.now }
    requires places { places.now ≡ expr_names upper.now }
    ensures { OnOk result (found.new ≡ found_next (all_named_at ex.now upper.now) lower.now found.old place) }
{
    match found_node(upper, places, found, place) {
        Some(node) => add_awaited(alloc, node, places, lower, ex, found),
        None => Ok(()),
    }
}

/// Adds the names that the expressions await whose names are found, from the first one on, those that are added included. Refuses for
/// want of memory alone.
fn add_all_awaited(
    alloc: Global,
    upper: &[ExprIR],
    places: &Places,
    lower: &Places,
    ex: &Arena<AExpr>,
    found: &mut Names,
) -> Result<(), AllocError>
    requires stand { All (λ e. IsExpr ex.now e.node) upper.now }
    requires places { places.now ≡ expr_names upper.now }
    ensures { OnOk result (found.new ≡ found_after (all_named_at ex.now upper.now) lower.now found.old (length upper.now)) }
{
    for place in 0..upper.len() {
        add_next(alloc, upper, places, lower, ex, place, found)?;
    }
    Ok(())
}

/// The names of the expressions that read a lower output, or remake one that is read. Refuses for want of memory alone.
fn first_found(
    alloc: Global,
    upper: &[ExprIR],
    lower: &Places,
    ex: &Arena<AExpr>,
) -> Result<Names, AllocError>
    requires { All (λ e. IsExpr ex.now e.node) upper.now }
    ensures { IfOk result (λ found. found ≡ found_first (all_named_at ex.now upper.now) lower.now) }
{
    let mut read = Names::new(alloc);
    let mut found = Names::new(alloc);
    add_readers(alloc, upper, lower, ex, &mut read, &mut found)?;
    add_remakers(upper, lower, &read, &mut found)?;
    Ok(found)
}

/// The names of the expressions that have to stay. Refuses for want of memory alone.
pub fn which_stay(
    alloc: Global,
    upper: &[ExprIR],
    lower: &Places,
    ex: &Arena<AExpr>,
) -> Result<Names, AllocError>
    requires stand { All (λ e. IsExpr ex.now e.node) upper.now }
    requires once { AreDistinct (expr_names upper.now) }
    ensures { IfOk result (λ found. (e : Named) → IsOne e (all_named_at ex.now upper.now) → has found (out e) ≡ stays (all_named_at ex.now upper.now) lower.now e) }
{
    let mut found = first_found(alloc, upper, lower, ex)?;
    let places = Places::of(alloc, upper)?;
    add_all_awaited(alloc, upper, &places, lower, ex, &mut found)?;
    Ok(found)
}
