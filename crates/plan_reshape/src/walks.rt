//! Walks of rules over a plan.
ghost use Rattle.std.specs.Prelude.{◌≡◌, ◌<◌, ◌≤◌, ◌^◌, ◌++◌, [], ◌∷◌, length, map, true, IfOk, IfErr, OnOk};
ghost use Rattle.plan_core.specs.declared.error.PolarsError.TheVariants.{OutOfMemory};
ghost use Rattle.plan_tree.specs.Stands.{Trees};
ghost use Rattle.plan_expr.specs.declared.aexpr.AExpr.{AExpr};
ghost use Rattle.plan_ir.specs.declared.ir.IR.{IR};
ghost use Rattle.plan_ir.specs.Parts.{IsPlan, StandsPlan};
ghost use Rattle.plan_meaning.specs.Marks.{unmarked};
ghost use Rattle.plan_meaning.specs.PlanAt.{plan_at};
ghost use Rattle.plan_meaning.specs.Steps.{IsValid};
ghost use Rattle.plan_pass_laws.specs.Becoming.{Becomes};
ghost use Rattle.plan_pass_laws.specs.Settling.{Settles};
ghost use Rattle.plan_pass_laws.specs.Walks.{Walks};
ghost use Rattle.plan_pass_laws.specs.Weights.{weight};
ghost use Rattle.plan_reshape.specs.Walking.{Rounds, WalkedAt, all_own, done_of};

use crate::exprs::walk_exprs;
use crate::items::inputs_at;
use crate::nodes::visit_both;
use crate::work::Work;
use plan_core::{Arena, Node, PolarsResult};
use plan_expr::AExpr;
use plan_ir::IR;
use plan_rule::OptimizationRule;
use std::alloc::Global;

/// Calls the rules at each node of a plan: at a node and at its expressions first, and then at the inputs that it has by then, the
/// last of them first. Refuses for want of memory alone.
fn walk<R: OptimizationRule, Q: OptimizationRule>(
    rules: &mut [R],
    extra: &mut [Q],
    alloc: Global,
    lp: &mut Arena<IR>,
    ex: &mut Arena<AExpr>,
    node: Node,
) -> PolarsResult<Work>
    requires plan { IsPlan lp.old ex.old node }
    requires valid { IsValid (plan_at lp.old ex.old node) }
    requires fits { weight (plan_at lp.old ex.old node) < 2 ^ 64 }
    ensures kinds { map R.kind_of rules.new ≡ map R.kind_of rules.old }
    ensures owns { map R.is_own rules.new ≡ map R.is_own rules.old }
    ensures extra_kinds { map Q.kind_of extra.new ≡ map Q.kind_of extra.old }
    ensures extra_owns { map Q.is_own extra.new ≡ map Q.is_own extra.old }
    ensures memory { IfErr result (λ e. e ≡ OutOfMemory) }
    ensures grows { length lp.old ≤ length lp.new }
    ensures longer { length ex.old ≤ length ex.new }
    ensures walked { IfOk result (λ w. (t : Trees IR) (e : Trees AExpr) → StandsPlan lp.old ex.old node t e → WalkedAt (map R.kind_of rules.old ++ map Q.kind_of extra.old) lp.old lp.new ex.old ex.new node t e (done_of w)) }
    ensures told { OnOk result (all_own (map R.is_own rules.old ++ map Q.is_own extra.old) ≡ true → Walks (map R.kind_of rules.old ++ map Q.kind_of extra.old) (unmarked (plan_at lp.old ex.old node)) (unmarked (plan_at lp.new ex.new node))) }
{
    let top = visit_both(rules, extra, alloc, lp, ex, node)?;
    let exprs = walk_exprs(rules, extra, alloc, ex, lp, node)?;
    let above = top.and(exprs);
    let mut inputs = inputs_at(alloc, lp, node)?;
    let mut work = Work::none();
    while let Some(input) = inputs.pop() {
        let done = walk(rules, extra, alloc, lp, ex, input)?;
        work = work.and(done);
    }
    Ok(above.and(work))
}

/// Walks until a walk changes nothing. Gives how often a rule put something in the place of something whose kind isn't `Other`.
/// Refuses for want of memory alone.
pub fn repeat<R: OptimizationRule, Q: OptimizationRule>(
    rules: &mut [R],
    extra: &mut [Q],
    alloc: Global,
    ex: &mut Arena<AExpr>,
    lp: &mut Arena<IR>,
    lp_top: Node,
) -> PolarsResult<u64>
    requires plan { IsPlan lp.old ex.old lp_top }
    requires valid { IsValid (plan_at lp.old ex.old lp_top) }
    ensures kinds { map R.kind_of rules.new ≡ map R.kind_of rules.old }
    ensures owns { map R.is_own rules.new ≡ map R.is_own rules.old }
    ensures extra_kinds { map Q.kind_of extra.new ≡ map Q.kind_of extra.old }
    ensures extra_owns { map Q.is_own extra.new ≡ map Q.is_own extra.old }
    ensures memory { IfErr result (λ e. e ≡ OutOfMemory) }
    ensures grows { length lp.old ≤ length lp.new }
    ensures longer { length ex.old ≤ length ex.new }
    ensures is_plan { OnOk result (IsPlan lp.new ex.new lp_top) }
    ensures in_place { OnOk result ((t : Trees IR) (e : Trees AExpr) → StandsPlan lp.old ex.old lp_top t e → Becomes lp.old lp.new ex.old ex.new lp_top t e) }
    ensures settles { IfOk result (λ r. Settles (map R.kind_of rules.old ++ map Q.kind_of extra.old) (plan_at lp.old ex.old lp_top) (plan_at lp.new ex.new lp_top) r) }
    ensures rounds { OnOk result (all_own (map R.is_own rules.old ++ map Q.is_own extra.old) ≡ true → Rounds (map R.kind_of rules.old ++ map Q.kind_of extra.old) (plan_at lp.old ex.old lp_top) (plan_at lp.new ex.new lp_top)) }
{
    let _ = (lp.len(), ex.len());
    let mut replaced: u64 = 0;
    loop {
        let work = walk(rules, extra, alloc, lp, ex, lp_top)?;
        replaced += work.replaced;
        if !work.changed {
            return Ok(replaced);
        }
    }
}
