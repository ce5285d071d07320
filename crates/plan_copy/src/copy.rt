//! Copies of plans, each with arenas of its own.
ghost use Rattle.std.specs.Prelude.{◌≡◌, ◌<◌, ◌++◌, All, length, map, IfOk, OnOk};
ghost use Rattle.std.specs.List.{flat_map};
ghost use Rattle.plan_tree.specs.Walk.{steps_to};
ghost use Rattle.plan_ir.specs.Copies.{IsRenumbered};
ghost use Rattle.plan_copy.specs.Lists.{Lists, Numbers};
ghost use Rattle.plan_ir.specs.Moved.{entries_at, moved_expr, moved_named, moved_node, new_number};
ghost use Rattle.plan_ir.specs.Parts.{exprs_of, roots_of, IsPlan};

use crate::numbering::Numbering;
use plan_core::{Arena, Items, Node, TryClone};
use plan_expr::{AExpr, ExprIR};
use plan_ir::{IR, PlanCopy};
use plan_tree::{Entry, Step, walk};
use std::alloc::{AllocError, Global};

/// Appends steps to the expressions of a node.
fn step_to_exprs(alloc: Global, node: &IR, steps: &mut Items<Step<()>>) -> Result<(), AllocError>
    ensures { OnOk result (steps.new ≡ steps.old ++ steps_to tt (roots_of node.now)) }
{
    for expr in node.exprs(alloc)?.as_slice() {
        steps.push(Step {
            node: expr.node,
            mark: (),
        })?;
    }
    Ok(())
}

/// Steps to the expressions of nodes, node by node.
pub(crate) fn expr_steps(
    alloc: Global,
    nodes: &[Node],
    lp: &Arena<IR>,
) -> Result<Items<Step<()>>, AllocError>
    requires { All (λ n. n.0 < length lp.now) nodes.now }
    ensures { IfOk result (λ steps. steps ≡ steps_to tt (flat_map roots_of (entries_at lp.now nodes.now))) }
{
    let mut steps = Items::new(alloc);
    for node in nodes {
        step_to_exprs(alloc, lp.get(*node), &mut steps)?;
    }
    Ok(steps)
}

/// The numbers of the nodes of a plan, and of the expressions of its nodes, each in walk order.
#[derive(Drop)]
pub(crate) struct Listed {
    pub(crate) nodes: Items<Node>,
    pub(crate) exprs: Items<Node>,
}

/// The numbers of a plan. The walks keep stacks of their own.
pub(crate) fn list_plan(
    alloc: Global,
    root: Node,
    lp: &Arena<IR>,
    ex: &Arena<AExpr>,
) -> Result<Listed, AllocError>
    requires { IsPlan lp.now ex.now root }
    ensures { IfOk result (λ listed. Lists lp.now ex.now root listed) }
{
    let start = Step {
        node: root,
        mark: (),
    };
    let nodes = walk(alloc, lp, &[start])?.listed;
    let steps = expr_steps(alloc, nodes.as_slice(), lp)?;
    let exprs = walk(alloc, ex, steps.as_slice())?.listed;
    Ok(Listed { nodes, exprs })
}

/// What a plan lists, and the new numbers of what is listed.
#[derive(Drop)]
pub(crate) struct Numbered {
    pub(crate) listed: Listed,
    pub(crate) nodes: Numbering,
    pub(crate) exprs: Numbering,
}

/// Numbers the nodes of a plan and the expressions of its nodes from 0, in the order in which they are listed.
pub(crate) fn number_plan(
    alloc: Global,
    root: Node,
    lp: &Arena<IR>,
    ex: &Arena<AExpr>,
) -> Result<Numbered, AllocError>
    requires { IsPlan lp.now ex.now root }
    ensures { IfOk result (λ found. Numbers lp.now ex.now root found) }
{
    let listed = list_plan(alloc, root, lp, ex)?;
    let nodes = Numbering::in_order(alloc, lp.len(), listed.nodes.as_slice())?;
    let exprs = Numbering::in_order(alloc, ex.len(), listed.exprs.as_slice())?;
    Ok(Numbered {
        listed,
        nodes,
        exprs,
    })
}

/// The new numbers of entries, in order.
fn moved_numbers(
    alloc: Global,
    nodes: &[Node],
    numbering: &Numbering,
) -> Result<Items<Node>, AllocError>
    ensures { IfOk result (λ moved. moved ≡ map (new_number numbering.now) nodes.now) }
{
    let mut moved = Items::new(alloc);
    for node in nodes {
        moved.push(numbering.new_number(*node))?;
    }
    Ok(moved)
}

/// A copy of an expression whose operands have new numbers.
fn move_expr(alloc: Global, expr: &AExpr, exprs: &Numbering) -> Result<AExpr, AllocError>
    ensures { IfOk result (λ moved. moved ≡ moved_expr exprs.now expr.now) }
{
    let mut operands = Items::new(alloc);
    expr.copy_inputs(&mut operands)?;
    let moved = moved_numbers(alloc, operands.as_slice(), exprs)?;
    expr.with_operands(alloc, moved.as_slice())
}

/// Copies of expressions, each under its new number.
fn move_each(
    alloc: Global,
    list: &[&ExprIR],
    exprs: &Numbering,
) -> Result<Items<ExprIR>, AllocError>
    ensures { IfOk result (λ moved. moved ≡ map (λ e. moved_named exprs.now e.now) list.now) }
{
    let mut moved = Items::new(alloc);
    for expr in list {
        let name = expr.output_name.try_clone(alloc)?;
        moved.push(ExprIR::new(exprs.new_number(expr.node), name))?;
    }
    Ok(moved)
}

/// Copies of the expressions of a node, each under its new number.
fn move_named(alloc: Global, node: &IR, exprs: &Numbering) -> Result<Items<ExprIR>, AllocError>
    ensures { IfOk result (λ moved. moved ≡ map (moved_named exprs.now) (exprs_of node.now)) }
{
    let own = node.exprs(alloc)?;
    move_each(alloc, own.as_slice(), exprs)
}

/// A copy of a node whose inputs and expressions have new numbers.
pub(crate) fn move_node(
    alloc: Global,
    node: &IR,
    nodes: &Numbering,
    exprs: &Numbering,
) -> Result<IR, AllocError>
    ensures { IfOk result (λ moved. moved ≡ moved_node nodes.now exprs.now node.now) }
{
    let inputs = node.get_inputs_vec(alloc)?;
    let inputs = moved_numbers(alloc, inputs.as_slice(), nodes)?;
    let named = move_named(alloc, node, exprs)?;
    node.over(alloc, named, inputs)
}

/// An arena of copies of the listed expressions, in order, whose operands have new numbers.
pub(crate) fn moved_exprs(
    alloc: Global,
    listed: &[Node],
    ex: &Arena<AExpr>,
    exprs: &Numbering,
) -> Result<Arena<AExpr>, AllocError>
    requires { All (λ n. n.0 < length ex.now) listed.now }
    ensures { IfOk result (λ copies. copies ≡ map (moved_expr exprs.now) (entries_at ex.now listed.now)) }
{
    let mut copies = Arena::with_capacity(alloc, listed.len())?;
    for node in listed {
        copies.add(move_expr(alloc, ex.get(*node), exprs)?)?;
    }
    Ok(copies)
}

/// An arena of copies of the listed nodes, in order, whose inputs and expressions have new numbers.
fn moved_nodes(
    alloc: Global,
    listed: &[Node],
    lp: &Arena<IR>,
    nodes: &Numbering,
    exprs: &Numbering,
) -> Result<Arena<IR>, AllocError>
    requires { All (λ n. n.0 < length lp.now) listed.now }
    ensures { IfOk result (λ copies. copies ≡ map (moved_node nodes.now exprs.now) (entries_at lp.now listed.now)) }
{
    let mut copies = Arena::with_capacity(alloc, listed.len())?;
    for node in listed {
        copies.add(move_node(alloc, lp.get(*node), nodes, exprs)?)?;
    }
    Ok(copies)
}

/// A plan on its own, from what was found of it.
fn copy_plan(
    alloc: Global,
    root: Node,
    found: &Numbered,
    lp: &Arena<IR>,
    ex: &Arena<AExpr>,
) -> Result<PlanCopy, AllocError>
    requires { Numbers lp.now ex.now root found.now }
    ensures { IfOk result (λ copy. IsRenumbered lp.now ex.now root copy) }
{
    let own_lp = moved_nodes(
        alloc,
        found.listed.nodes.as_slice(),
        lp,
        &found.nodes,
        &found.exprs,
    )?;
    let own_ex = moved_exprs(alloc, found.listed.exprs.as_slice(), ex, &found.exprs)?;
    Ok(PlanCopy {
        root: found.nodes.new_number(root),
        lp: own_lp,
        ex: own_ex,
    })
}

/// The plan at a root, with arenas of its own: its nodes are numbered from 0, each before its inputs and those from
/// first to last, and so are the expressions of its nodes, node by node. It keeps no stack of calls, so that no depth
/// exhausts the machine's. Refuses for want of memory alone.
pub fn renumbered(
    alloc: Global,
    root: Node,
    lp: &Arena<IR>,
    ex: &Arena<AExpr>,
) -> Result<PlanCopy, AllocError>
    requires { IsPlan lp.now ex.now root }
    ensures { IfOk result (λ copy. IsRenumbered lp.now ex.now root copy) }
{
    let found = number_plan(alloc, root, lp, ex)?;
    let copy = copy_plan(alloc, root, &found, lp, ex);
    drop(found);
    copy
}
