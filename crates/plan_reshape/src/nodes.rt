//! Calls of rules at one node of a plan.
ghost use Rattle.std.specs.Prelude.{◌≡◌, ◌<◌, ◌≤◌, ◌^◌, ◌++◌, [], ◌∷◌, length, map, true, IfOk, IfErr, OnOk};
ghost use Rattle.plan_core.specs.declared.error.PolarsError.TheVariants.{OutOfMemory};
ghost use Rattle.plan_tree.specs.Stands.{Trees};
ghost use Rattle.plan_expr.specs.declared.aexpr.AExpr.{AExpr};
ghost use Rattle.plan_ir.specs.declared.ir.IR.{IR};
ghost use Rattle.plan_ir.specs.Parts.{IsPlan, StandsPlan};
ghost use Rattle.plan_meaning.specs.Marks.{unmarked};
ghost use Rattle.plan_meaning.specs.PlanAt.{plan_at};
ghost use Rattle.plan_meaning.specs.Steps.{IsValid};
ghost use Rattle.plan_pass_laws.specs.Walks.{Until, UntilAll};
ghost use Rattle.plan_pass_laws.specs.Weights.{weight};
ghost use Rattle.plan_reshape.specs.Walking.{AtTop, all_own, done_of};

use crate::work::{Work, counts};
use plan_core::{Arena, Node, PolarsResult};
use plan_expr::AExpr;
use plan_ir::IR;
use plan_rule::OptimizationRule;
use std::alloc::Global;

/// Calls one rule at a node until it answers None. Refuses for want of memory alone.
fn apply<R: OptimizationRule>(
    rule: &mut R,
    alloc: Global,
    lp: &mut Arena<IR>,
    ex: &mut Arena<AExpr>,
    node: Node,
) -> PolarsResult<Work>
    requires plan { IsPlan lp.old ex.old node }
    requires valid { IsValid (plan_at lp.old ex.old node) }
    requires fits { weight (plan_at lp.old ex.old node) < 2 ^ 64 }
    ensures kind { R.kind_of rule.new ≡ R.kind_of rule.old }
    ensures own { R.is_own rule.new ≡ R.is_own rule.old }
    ensures memory { IfErr result (λ e. e ≡ OutOfMemory) }
    ensures grows { length lp.old ≤ length lp.new }
    ensures longer { length ex.old ≤ length ex.new }
    ensures applied { IfOk result (λ w. (t : Trees IR) (e : Trees AExpr) → StandsPlan lp.old ex.old node t e → AtTop (R.kind_of rule.old ∷ []) lp.old lp.new ex.old ex.new node t e (done_of w)) }
    ensures told { OnOk result (R.is_own rule.old ≡ true → Until (R.kind_of rule.old) (unmarked (plan_at lp.old ex.old node)) (unmarked (plan_at lp.new ex.new node))) }
{
    let mut changed = false;
    let mut replaced: u64 = 0;
    let counted = counts(rule.kind());
    while let Some(entry) = rule.optimize_plan(alloc, lp, ex, node)? {
        lp.put(node, entry);
        changed = true;
        if counted {
            replaced += 1;
        }
    }
    Ok(Work { changed, replaced })
}

/// Calls each rule at a node, in order, until it answers None. Refuses for want of memory alone.
fn visit<R: OptimizationRule>(
    rules: &mut [R],
    alloc: Global,
    lp: &mut Arena<IR>,
    ex: &mut Arena<AExpr>,
    node: Node,
) -> PolarsResult<Work>
    requires plan { IsPlan lp.old ex.old node }
    requires valid { IsValid (plan_at lp.old ex.old node) }
    requires fits { weight (plan_at lp.old ex.old node) < 2 ^ 64 }
    ensures kinds { map R.kind_of rules.new ≡ map R.kind_of rules.old }
    ensures owns { map R.is_own rules.new ≡ map R.is_own rules.old }
    ensures memory { IfErr result (λ e. e ≡ OutOfMemory) }
    ensures grows { length lp.old ≤ length lp.new }
    ensures longer { length ex.old ≤ length ex.new }
    ensures visited { IfOk result (λ w. (t : Trees IR) (e : Trees AExpr) → StandsPlan lp.old ex.old node t e → AtTop (map R.kind_of rules.old) lp.old lp.new ex.old ex.new node t e (done_of w)) }
    ensures told { OnOk result (all_own (map R.is_own rules.old) ≡ true → UntilAll (map R.kind_of rules.old) (unmarked (plan_at lp.old ex.old node)) (unmarked (plan_at lp.new ex.new node))) }
{
    let mut work = Work::none();
    for i in 0..rules.len() {
        let done = apply(&mut rules[i], alloc, lp, ex, node)?;
        work = work.and(done);
    }
    Ok(work)
}

/// Calls the rules at a node, and then the extra ones, each until it answers None. Refuses for want of memory alone.
pub(crate) fn visit_both<R: OptimizationRule, Q: OptimizationRule>(
    rules: &mut [R],
    extra: &mut [Q],
    alloc: Global,
    lp: &mut Arena<IR>,
    ex: &mut Arena<AExpr>,
    node: Node,
) -> PolarsResult<Work>
    requires plan { IsPlan lp.old ex.old node }
    requires valid { IsValid (plan_at lp.old ex.old node) }
    requires fits { weight (plan_at lp.old ex.old node) < 2 ^ 64 }
    ensures kinds { map R.kind_of rules.new ≡ map R.kind_of rules.old }
    ensures owns { map R.is_own rules.new ≡ map R.is_own rules.old }
    ensures extra_kinds { map Q.kind_of extra.new ≡ map Q.kind_of extra.old }
    ensures extra_owns { map Q.is_own extra.new ≡ map Q.is_own extra.old }
    ensures memory { IfErr result (λ e. e ≡ OutOfMemory) }
    ensures grows { length lp.old ≤ length lp.new }
    ensures longer { length ex.old ≤ length ex.new }
    ensures visited { IfOk result (λ w. (t : Trees IR) (e : Trees AExpr) → StandsPlan lp.old ex.old node t e → AtTop (map R.kind_of rules.old ++ map Q.kind_of extra.old) lp.old lp.new ex.old ex.new node t e (done_of w)) }
    ensures told { OnOk result (all_own (map R.is_own rules.old ++ map Q.is_own extra.old) ≡ true → UntilAll (map R.kind_of rules.old ++ map Q.kind_of extra.old) (unmarked (plan_at lp.old ex.old node)) (unmarked (plan_at lp.new ex.new node))) }
{
    let first = visit(rules, alloc, lp, ex, node)?;
    let second = visit(extra, alloc, lp, ex, node)?;
    Ok(first.and(second))
}
