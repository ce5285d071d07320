//! Whether numbers lead to a plan: each to an entry, none twice. The walks keep stacks of their own.
ghost use Rattle.std.specs.Prelude.{◌≡◌, ◌++◌, map, IfOk, OnOk};
ghost use Rattle.plan_ir.specs.Parts.{IsPlan};
ghost use Rattle.plan_meaning.specs.Typing.{Says};
ghost use Rattle.plan_meaning.specs.TreeFaults.{marked, marked_at, marked_exprs as marks_of, tree_fault};

use plan_core::{Arena, At, Items, Node, PolarsError, PolarsResult};
use plan_expr::{AExpr, ExprIR};
use plan_ir::IR;
use plan_schema::at;
use plan_tree::{Step, walk};
use std::alloc::{AllocError, Global};

/// Appends the numbers of expressions, each with its place at the node; the first stands at place 1.
fn mark_exprs(node: Node, exprs: &[&ExprIR], out: &mut Items<Step<At>>) -> Result<(), AllocError>
    ensures { OnOk result (out.new ≡ out.old ++ marked node 1 (map (λ e. e.now) exprs.now)) }
{
    for (i, expr) in exprs.iter().enumerate() {
        out.push(Step {
            node: expr.node,
            mark: at(node, 1 + i),
        })?;
    }
    Ok(())
}

/// Appends the numbers of the expressions of a node, each with its place.
fn mark_node(
    alloc: Global,
    node: Node,
    lp: &Arena<IR>,
    out: &mut Items<Step<At>>,
) -> Result<(), AllocError>
    ensures { OnOk result (out.new ≡ out.old ++ marked_at lp.now node) }
{
    if node.0 >= lp.len() {
        return Ok(());
    }
    let exprs = lp.get(node).exprs(alloc)?;
    mark_exprs(node, exprs.as_slice(), out)
}

/// The numbers of the expressions of nodes, node by node, each with its place.
fn marked_exprs(
    alloc: Global,
    nodes: &[Node],
    lp: &Arena<IR>,
) -> Result<Items<Step<At>>, AllocError>
    ensures { IfOk result (λ steps. steps ≡ marks_of lp.now nodes.now) }
{
    let mut steps = Items::new(alloc);
    for node in nodes {
        mark_node(alloc, *node, lp, &mut steps)?;
    }
    Ok(steps)
}

/// Succeeds exactly where `root` leads to a plan. Else it refuses with a `ComputeError` at the first number, in walk
/// order, that is outside its arena, or of an invalid node, or met before.
pub fn check_tree(alloc: Global, root: Node, lp: &Arena<IR>, ex: &Arena<AExpr>) -> PolarsResult<()>
    ensures fault { Says result (tree_fault lp.now ex.now root) }
    ensures stands { IfOk result (λ _. IsPlan lp.now ex.now root) }
{
    let nodes = walk(
        alloc,
        lp,
        &[Step {
            node: root,
            mark: (),
        }],
    )?;
    let roots = marked_exprs(alloc, nodes.listed.as_slice(), lp)?;
    let exprs = walk(alloc, ex, roots.as_slice())?;
    if let Some(step) = exprs.fault {
        return Err(PolarsError::ComputeError(step.mark));
    }
    if let Some(step) = nodes.fault {
        return Err(PolarsError::ComputeError(at(step.node, 0)));
    }
    Ok(())
}
