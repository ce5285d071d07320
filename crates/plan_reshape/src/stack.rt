//! The loop over rules.
ghost use Rattle.std.specs.Prelude.{◌≡◌, ◌≤◌, ◌++◌, length, map, true, ℕ, IfOk, IfErr, OnOk};
ghost use Rattle.plan_core.specs.declared.error.PolarsError.TheVariants.{OutOfMemory};
ghost use Rattle.plan_tree.specs.Stands.{Trees};
ghost use Rattle.plan_expr.specs.declared.aexpr.AExpr.{AExpr};
ghost use Rattle.plan_ir.specs.declared.ir.IR.{IR};
ghost use Rattle.plan_ir.specs.Parts.{IsPlan, StandsPlan};
ghost use Rattle.plan_meaning.specs.Caches.{AreShared};
ghost use Rattle.plan_meaning.specs.PlanAt.{plan_at};
ghost use Rattle.plan_meaning.specs.Steps.{IsValid};
ghost use Rattle.plan_pass_laws.specs.Becoming.{Becomes};
ghost use Rattle.plan_pass_laws.specs.Clearing.{Cleared};
ghost use Rattle.plan_pass_laws.specs.Settling.{Settles};
ghost use Rattle.plan_reshape.specs.Walking.{Rounds, all_own};

use crate::boxed::BoxedRule;
use crate::rule::Rule;
use crate::walks::repeat;
use plan_core::{Arena, Node, PolarsResult};
use plan_expr::AExpr;
use plan_ir::IR;
use plan_rule::OptimizationRule;
use std::alloc::Global;

/// Calls rules over a plan until none of them finds its pattern.
pub struct StackOptimizer;

impl StackOptimizer {
    /// Calls the rules at each node and expression of the plan at `lp_top`, walk after walk, until a walk changes nothing, and gives
    /// `lp_top`. The plan is then as `optimize_loop_counted` says. Refuses for want of memory alone.
    pub fn optimize_loop<R: OptimizationRule>(
        &self,
        alloc: Global,
        rules: &mut [R],
        ex: &mut Arena<AExpr>,
        lp: &mut Arena<IR>,
        lp_top: Node,
    ) -> PolarsResult<Node>
        requires plan { IsPlan lp.old ex.old lp_top }
        requires valid { IsValid (plan_at lp.old ex.old lp_top) }
        ensures kinds { map R.kind_of rules.new ≡ map R.kind_of rules.old }
        ensures owns { map R.is_own rules.new ≡ map R.is_own rules.old }
        ensures memory { IfErr result (λ e. e ≡ OutOfMemory) }
        ensures grows { length lp.old ≤ length lp.new }
        ensures longer { length ex.old ≤ length ex.new }
        ensures node { IfOk result (λ r. r ≡ lp_top) }
        ensures is_plan { OnOk result (IsPlan lp.new ex.new lp_top) }
        ensures in_place { OnOk result ((t : Trees IR) (e : Trees AExpr) → StandsPlan lp.old ex.old lp_top t e → Becomes lp.old lp.new ex.old ex.new lp_top t e) }
        ensures settles { OnOk result ((replaced : ℕ) × Settles (map R.kind_of rules.old) (plan_at lp.old ex.old lp_top) (plan_at lp.new ex.new lp_top) replaced) }
        ensures rounds { OnOk result (all_own (map R.is_own rules.old) ≡ true → Rounds (map R.kind_of rules.old) (plan_at lp.old ex.old lp_top) (plan_at lp.new ex.new lp_top)) }
        ensures shared { OnOk result (all_own (map R.is_own rules.old) ≡ true → AreShared (plan_at lp.old ex.old lp_top) → AreShared (plan_at lp.new ex.new lp_top)) }
    {
        let (node, _) = self.optimize_loop_counted(alloc, rules, ex, lp, lp_top)?;
        Ok(node)
    }

    /// Calls the rules at each node and expression of the plan at `lp_top`, walk after walk, until a walk changes nothing. Gives
    /// `lp_top`, and how often a rule whose kind isn't `Other` put something in the place of something.
    ///
    /// The plan then refines the given one and keeps its scans, and the pattern of no rule's kind stands at a node. What was counted
    /// and the weight of the plan are at most the weight of the given one; where the weights are equal, the plan is the given one but
    /// for rechunk marks. Where no kind is `Other`, what was counted is at most the nodes and selections of the given plan, and it is
    /// 0 exactly where the plan is the given one but for these marks. What `lp_top` doesn't reach stays, and it reaches only what it
    /// reached, or what was added. Where each rule is its kind's own, caches of one number stand over alike plans if they did.
    ///
    /// A walk takes time in what the plan reaches, and each but the last lowers the weight. At a node a rule is called again after
    /// each answer, so a run of projections, of filters by true or of unions goes in one walk. Refuses for want of memory alone.
    pub fn optimize_loop_counted<R: OptimizationRule>(
        &self,
        alloc: Global,
        rules: &mut [R],
        ex: &mut Arena<AExpr>,
        lp: &mut Arena<IR>,
        lp_top: Node,
    ) -> PolarsResult<(Node, u64)>
        requires plan { IsPlan lp.old ex.old lp_top }
        requires valid { IsValid (plan_at lp.old ex.old lp_top) }
        ensures kinds { map R.kind_of rules.new ≡ map R.kind_of rules.old }
        ensures owns { map R.is_own rules.new ≡ map R.is_own rules.old }
        ensures memory { IfErr result (λ e. e ≡ OutOfMemory) }
        ensures grows { length lp.old ≤ length lp.new }
        ensures longer { length ex.old ≤ length ex.new }
        ensures node { IfOk result (λ r. r.0 ≡ lp_top) }
        ensures is_plan { OnOk result (IsPlan lp.new ex.new lp_top) }
        ensures in_place { OnOk result ((t : Trees IR) (e : Trees AExpr) → StandsPlan lp.old ex.old lp_top t e → Becomes lp.old lp.new ex.old ex.new lp_top t e) }
        ensures settles { IfOk result (λ r. Settles (map R.kind_of rules.old) (plan_at lp.old ex.old lp_top) (plan_at lp.new ex.new lp_top) r.1) }
        ensures none { IfOk result (λ r. Cleared (plan_at lp.new ex.new lp_top) (plan_at lp.old ex.old lp_top) → r.1 ≡ 0) }
        ensures rounds { OnOk result (all_own (map R.is_own rules.old) ≡ true → Rounds (map R.kind_of rules.old) (plan_at lp.old ex.old lp_top) (plan_at lp.new ex.new lp_top)) }
        ensures shared { OnOk result (all_own (map R.is_own rules.old) ≡ true → AreShared (plan_at lp.old ex.old lp_top) → AreShared (plan_at lp.new ex.new lp_top)) }
    {
        let extra: &mut [R] = &mut [];
        let replaced = repeat(rules, extra, alloc, ex, lp, lp_top)?;
        Ok((lp_top, replaced))
    }

    /// As `optimize_loop_counted`, but that the boxes are called too, at each place after the rules. Gives what was counted. It stands
    /// here for the crates above, which call no loop at boxes of their own. Refuses for want of memory alone.
    pub fn optimize_boxed(
        &self,
        alloc: Global,
        rules: &mut [Rule],
        extra: &mut [BoxedRule],
        ex: &mut Arena<AExpr>,
        lp: &mut Arena<IR>,
        lp_top: Node,
    ) -> PolarsResult<u64>
        requires plan { IsPlan lp.old ex.old lp_top }
        requires valid { IsValid (plan_at lp.old ex.old lp_top) }
        ensures kinds { map ⟦<Rule as OptimizationRule>⟧.kind_of rules.new ≡ map ⟦<Rule as OptimizationRule>⟧.kind_of rules.old }
        ensures owns { map ⟦<Rule as OptimizationRule>⟧.is_own rules.new ≡ map ⟦<Rule as OptimizationRule>⟧.is_own rules.old }
        ensures extra_kinds { map ⟦<BoxedRule as OptimizationRule>⟧.kind_of extra.new ≡ map ⟦<BoxedRule as OptimizationRule>⟧.kind_of extra.old }
        ensures extra_owns { map ⟦<BoxedRule as OptimizationRule>⟧.is_own extra.new ≡ map ⟦<BoxedRule as OptimizationRule>⟧.is_own extra.old }
        ensures memory { IfErr result (λ e. e ≡ OutOfMemory) }
        ensures grows { length lp.old ≤ length lp.new }
        ensures longer { length ex.old ≤ length ex.new }
        ensures is_plan { OnOk result (IsPlan lp.new ex.new lp_top) }
        ensures in_place { OnOk result ((t : Trees IR) (e : Trees AExpr) → StandsPlan lp.old ex.old lp_top t e → Becomes lp.old lp.new ex.old ex.new lp_top t e) }
        ensures settles { IfOk result (λ r. Settles (map ⟦<Rule as OptimizationRule>⟧.kind_of rules.old ++ map ⟦<BoxedRule as OptimizationRule>⟧.kind_of extra.old) (plan_at lp.old ex.old lp_top) (plan_at lp.new ex.new lp_top) r) }
        ensures rounds { OnOk result (all_own (map ⟦<Rule as OptimizationRule>⟧.is_own rules.old ++ map ⟦<BoxedRule as OptimizationRule>⟧.is_own extra.old) ≡ true → Rounds (map ⟦<Rule as OptimizationRule>⟧.kind_of rules.old ++ map ⟦<BoxedRule as OptimizationRule>⟧.kind_of extra.old) (plan_at lp.old ex.old lp_top) (plan_at lp.new ex.new lp_top)) }
        ensures shared { OnOk result (all_own (map ⟦<Rule as OptimizationRule>⟧.is_own rules.old ++ map ⟦<BoxedRule as OptimizationRule>⟧.is_own extra.old) ≡ true → AreShared (plan_at lp.old ex.old lp_top) → AreShared (plan_at lp.new ex.new lp_top)) }
    {
        let replaced = repeat(rules, extra, alloc, ex, lp, lp_top)?;
        Ok(replaced)
    }
}
