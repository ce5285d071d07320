//! The pass that leaves out the sorts that nothing observes, and marks which nodes keep the order of their rows.
ghost use Rattle.std.specs.Prelude.{◌≡◌, [], ◌∷◌, OnErr, OnOk, length, true};
ghost use Rattle.plan_tree.specs.Stands.{Trees};
ghost use Rattle.plan_expr.specs.declared.aexpr.AExpr.{AExpr as AExprType};
ghost use Rattle.plan_ir.specs.declared.ir.IR.{IR as IRType};
ghost use Rattle.plan_ir.specs.Parts.{IsPlan, StandsPlan};
ghost use Rattle.plan_meaning.specs.Caches.{AreShared};
ghost use Rattle.plan_meaning.specs.Counting.{meets_count};
ghost use Rattle.plan_meaning.specs.PlanAt.{plan_at};
ghost use Rattle.plan_meaning.specs.Relating.{Refines};
ghost use Rattle.plan_meaning.specs.Scans.{Keeps};
ghost use Rattle.plan_meaning.specs.Steps.{IsValid};
ghost use Rattle.plan_pass_laws.specs.Becoming.{Becomes};
ghost use Rattle.plan_order_laws.specs.Demands.{ordered};
ghost use Rattle.plan_order.specs.Undemanded.{Reordered};

use crate::demands::top_demand;
use crate::marks::{idle_input, stack_inputs, tell};
use plan_core::{Arena, Node};
use plan_expr::AExpr;
use plan_ir::IR;
use std::alloc::AllocError;

/// Leaves out the sorts of the plan at `root` whose order nothing observes, and sets the marks of unions and distinct rows to
/// whether it is observed. The node of a sort's input moves up to the number of the sort. A valid plan is refined, with its scans,
/// and its rows are counted where they were; each part of it whose order nothing observes gives the frames that it gave, with their
/// rows in any order. `scratch` is used as a stack: whatever it held, it is empty afterwards. Refuses for want
/// of memory alone, and then the plan stays as it is.
pub fn set_order_flags(
    root: Node,
    lp: &mut Arena<IR>,
    ex: &Arena<AExpr>,
    scratch: &mut Vec<Node>,
) -> Result<(), AllocError>
    requires { IsPlan lp.old ex.now root }
    ensures ordered { OnOk result (plan_at lp.new ex.now root ≡ ordered true (plan_at lp.old ex.now root)) }
    ensures refines { OnOk result (IsValid (plan_at lp.old ex.now root) → Refines (plan_at lp.new ex.now root) (plan_at lp.old ex.now root)) }
    ensures reordered { OnOk result (IsValid (plan_at lp.old ex.now root) → Reordered true (plan_at lp.new ex.now root) (plan_at lp.old ex.now root)) }
    ensures keeps { OnOk result (IsValid (plan_at lp.old ex.now root) → Keeps (plan_at lp.new ex.now root) (plan_at lp.old ex.now root)) }
    ensures counts { OnOk result (IsValid (plan_at lp.old ex.now root) → meets_count (plan_at lp.new ex.now root) ≡ meets_count (plan_at lp.old ex.now root)) }
    ensures shared { OnOk result (AreShared (plan_at lp.old ex.now root) → AreShared (plan_at lp.new ex.now root)) }
    ensures in_place { OnOk result ((t : Trees IRType) (e : Trees AExprType) → StandsPlan lp.old ex.now root t e → Becomes lp.old lp.new ex.now ex.now root t e) }
    ensures is_plan { OnOk result (IsPlan lp.new ex.now root) }
    ensures length { length lp.new ≡ length lp.old }
    ensures unchanged { OnErr result (lp.new ≡ lp.old) }
    ensures emptied { scratch.new.items ≡ [] }
{
    scratch.clear();
    scratch.reserve(lp.len())?;
    scratch.push_reserved(root);
    let mut ordered = true;
    while let Some(node) = scratch.pop() {
        if let Some(input) = idle_input(lp.get(node), ordered) {
            let below = lp.take(input);
            lp.put(node, below);
            scratch.push_reserved(node);
            continue;
        }
        let demanded = top_demand(lp.get(node), ex, ordered);
        stack_inputs(lp.get(node), scratch);
        tell(lp.get_mut(node), ordered);
        ordered = demanded;
    }
    Ok(())
}
