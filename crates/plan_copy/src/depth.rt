//! How deep a plan and an expression are. The walks keep stacks of their own, so that no depth exhausts the machine's.
ghost use Rattle.std.specs.Prelude.{◌≡◌, [], ◌∷◌, IfOk};
ghost use Rattle.plan_tree.specs.Depths.{IsDepth};
ghost use Rattle.plan_tree.specs.Stands.{Trees, StandsOnce};
ghost use Rattle.plan_tree.specs.Walk.{nodes_of};
ghost use Rattle.plan_expr.specs.Operands.{expr_shape};
ghost use Rattle.plan_ir.specs.declared.ir.IR.{IR as Nodes};
ghost use Rattle.plan_ir.specs.Parts.{plan_shape, roots_in};

use crate::copy::expr_steps;
use plan_core::{Arena, Items, Node};
use plan_expr::AExpr;
use plan_ir::IR;
use plan_tree::{Step, depth_of, walk};
use std::alloc::{AllocError, Global};

/// How many levels the plan at `root` has: one where it is one node. None exactly where no plan stands there: where a
/// number lies outside the arena, or is that of an invalid node, or is reached twice. It takes the time of what is
/// reached. Refuses for want of memory alone.
pub fn plan_depth(alloc: Global, root: Node, lp: &Arena<IR>) -> Result<Option<usize>, AllocError>
    ensures { IfOk result (IsDepth plan_shape lp.now root) }
{
    depth_of(alloc, lp, root)
}

/// How many levels the expression at a number has: one where it is one node. None exactly where no expression stands
/// there: where a number lies outside the arena, or is reached twice. It takes the time of what is reached. Refuses for
/// want of memory alone.
pub fn expr_depth(alloc: Global, node: Node, ex: &Arena<AExpr>) -> Result<Option<usize>, AllocError>
    ensures { IfOk result (IsDepth expr_shape ex.now node) }
{
    depth_of(alloc, ex, node)
}

/// The numbers of steps.
fn numbers_of(alloc: Global, steps: &[Step<()>]) -> Result<Items<Node>, AllocError>
    ensures { IfOk result (λ numbers. numbers ≡ nodes_of steps.now) }
{
    let mut numbers = Items::new(alloc);
    for step in steps {
        numbers.push(step.node)?;
    }
    Ok(numbers)
}

/// The numbers of the expressions of a plan's nodes, node by node in walk order. Refuses for want of memory alone.
pub fn expr_roots(alloc: Global, root: Node, lp: &Arena<IR>) -> Result<Items<Node>, AllocError>
    requires { (t : Trees Nodes) × StandsOnce plan_shape lp.now (root ∷ []) t }
    ensures { IfOk result (λ numbers. (t : Trees Nodes) → StandsOnce plan_shape lp.now (root ∷ []) t → numbers ≡ roots_in t) }
{
    let start = Step {
        node: root,
        mark: (),
    };
    let nodes = walk(alloc, lp, &[start])?.listed;
    let steps = expr_steps(alloc, nodes.as_slice(), lp)?;
    let numbers = numbers_of(alloc, steps.as_slice())?;
    Ok(numbers)
}
