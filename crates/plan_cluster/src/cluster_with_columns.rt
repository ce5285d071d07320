//! The pass that brings each run of additions of columns to rest.
ghost use Rattle.std.specs.Prelude.{◌≡◌, ◌+◌, ◌≤◌, [], ◌∷◌, IfOk, OnOk};
ghost use Rattle.plan_tree.specs.Stands.{StandsOnce, Trees};
ghost use Rattle.plan_expr.specs.declared.aexpr.AExpr.{AExpr as AExprType};
ghost use Rattle.plan_ir.specs.declared.ir.IR.{IR as IRType};
ghost use Rattle.plan_ir.specs.Parts.{IsPlan, StandsPlan, plan_shape};
ghost use Rattle.plan_meaning.specs.Caches.{AreShared};
ghost use Rattle.plan_meaning.specs.PlanAt.{plan_at};
ghost use Rattle.plan_meaning.specs.Relating.{Refines};
ghost use Rattle.plan_meaning.specs.Scans.{Keeps, nodes};
ghost use Rattle.plan_meaning.specs.Steps.{IsValid};
ghost use Rattle.plan_pass_laws.specs.Becoming.{Becomes};
ghost use Rattle.plan_collapse_laws.specs.Clustered.{clustered};
ghost use Rattle.plan_collapse_laws.specs.Clusters.{IsClustered};
ghost use Rattle.plan_collapse_laws.specs.Counts.{placing};
ghost use Rattle.plan_cluster.specs.Chains.{Settled};
ghost use Rattle.plan_cluster.specs.Sound.{AllSound};

use crate::rest::rest;
use crate::run::{put_run, take_run};
use plan_core::{Arena, Items, Node};
use plan_expr::AExpr;
use plan_ir::IR;
use plan_tree::Entry;
use std::alloc::{AllocError, Global};

/// Brings the run of additions that begins at `node` to rest, and gives the number of the node below it. Another node stays, and its
/// own number is given. Refuses for want of memory alone.
fn settle(
    alloc: Global,
    node: Node,
    lp: &mut Arena<IR>,
    ex: &Arena<AExpr>,
) -> Result<Node, AllocError>
    requires { (t : Trees IRType) × StandsOnce plan_shape lp.old (node ∷ []) t × AllSound ex.now t }
    ensures { IfOk result (λ below. Settled lp.old lp.new ex.now node below) }
{
    let mut run = Vec::new(alloc);
    let mut places = Vec::new(alloc);
    let below = take_run(node, lp, &mut run, &mut places)?;
    rest(alloc, &mut run, ex)?;
    put_run(below, places.as_slice(), &mut run, lp)?;
    Ok(below)
}

/// Brings each run of additions of columns in the plan at `root` to rest. Of an addition that stands directly on another, only the
/// expressions that have to stay above it stay; each other one moves down into the other, in the place of its expression of that name,
/// or behind all. Where none stays, the two are one. Where the columns would change their order, a projection goes on top. The topmost
/// node of a run stands at the number of the one before it, the others at numbers of the run or at new ones. Refuses for want of memory
/// alone, and then nothing is known of what stands at `root`.
pub fn optimize(
    alloc: Global,
    root: Node,
    lp: &mut Arena<IR>,
    ex: &Arena<AExpr>,
) -> Result<(), AllocError>
    requires plan { IsPlan lp.old ex.now root }
    requires valid { IsValid (plan_at lp.old ex.now root) }
    ensures clustered { OnOk result (plan_at lp.new ex.now root ≡ clustered (plan_at lp.old ex.now root)) }
    ensures refines { OnOk result (Refines (plan_at lp.new ex.now root) (plan_at lp.old ex.now root)) }
    ensures keeps { OnOk result (Keeps (plan_at lp.new ex.now root) (plan_at lp.old ex.now root)) }
    ensures at_rest { OnOk result (IsClustered (plan_at lp.new ex.now root)) }
    ensures stays { OnOk result (IsClustered (plan_at lp.old ex.now root) → plan_at lp.new ex.now root ≡ plan_at lp.old ex.now root) }
    ensures few { OnOk result (nodes (plan_at lp.new ex.now root) + placing (plan_at lp.new ex.now root) ≤ nodes (plan_at lp.old ex.now root) + placing (plan_at lp.old ex.now root)) }
    ensures shared { OnOk result (AreShared (plan_at lp.old ex.now root) → AreShared (plan_at lp.new ex.now root)) }
    ensures in_place { OnOk result ((t : Trees IRType) (e : Trees AExprType) → StandsPlan lp.old ex.now root t e → Becomes lp.old lp.new ex.now ex.now root t e) }
    ensures is_plan { OnOk result (IsPlan lp.new ex.now root) }
{
    let mut stack = Items::new(alloc);
    stack.push(root)?;
    while let Some(node) = stack.pop() {
        let below = settle(alloc, node, lp, ex)?;
        lp.get(below).copy_inputs(&mut stack)?;
    }
    Ok(())
}
