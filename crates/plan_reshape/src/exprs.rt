//! Calls of rules at the expressions of one node of a plan.
ghost use Rattle.std.specs.Prelude.{◌≡◌, ◌<◌, ◌≤◌, ◌^◌, ◌++◌, [], ◌∷◌, length, map, true, IfOk, IfErr, OnOk};
ghost use Rattle.plan_core.specs.declared.error.PolarsError.TheVariants.{OutOfMemory};
ghost use Rattle.plan_tree.specs.Stands.{Trees, StandsOnce};
ghost use Rattle.plan_expr.specs.declared.aexpr.AExpr.{AExpr};
ghost use Rattle.plan_expr.specs.Operands.{expr_shape};
ghost use Rattle.plan_ir.specs.declared.ir.IR.{IR};
ghost use Rattle.plan_ir.specs.Parts.{IsPlan, StandsPlan};
ghost use Rattle.plan_meaning.specs.PlanAt.{plan_at};
ghost use Rattle.plan_meaning.specs.Steps.{IsValid};
ghost use Rattle.plan_rule.specs.Calls.{ListsExpr};
ghost use Rattle.plan_pass_laws.specs.Weights.{weight};
ghost use Rattle.plan_reshape.specs.Walking.{Brought, Tended, all_own, asks_rules, done_of};

use crate::items::{exprs_at, node_at, operands_at, root_at};
use crate::work::{Work, counts};
use plan_core::{Arena, Node, PolarsResult};
use plan_expr::AExpr;
use plan_ir::IR;
use plan_rule::OptimizationRule;
use std::alloc::Global;

/// Calls one rule at an expression until it answers None. Refuses for want of memory alone.
fn apply_expr<R: OptimizationRule>(
    rule: &mut R,
    alloc: Global,
    ex: &mut Arena<AExpr>,
    expr_node: Node,
    lp: &Arena<IR>,
    lp_node: Node,
) -> PolarsResult<Work>
    requires plan { IsPlan lp.now ex.old lp_node }
    requires valid { IsValid (plan_at lp.now ex.old lp_node) }
    requires listed { ListsExpr lp.now ex.old lp_node expr_node }
    requires fits { weight (plan_at lp.now ex.old lp_node) < 2 ^ 64 }
    ensures kind { R.kind_of rule.new ≡ R.kind_of rule.old }
    ensures own { R.is_own rule.new ≡ R.is_own rule.old }
    ensures memory { IfErr result (λ e. e ≡ OutOfMemory) }
    ensures longer { length ex.old ≤ length ex.new }
    ensures tended { IfOk result (λ w. (t : Trees IR) (e : Trees AExpr) (g : Trees AExpr) → StandsPlan lp.now ex.old lp_node t e → StandsOnce expr_shape ex.old (expr_node ∷ []) g → Tended (R.kind_of rule.old ∷ []) lp.now ex.old ex.new lp_node expr_node t g (done_of w)) }
    ensures told { OnOk result (R.is_own rule.old ≡ true → plan_at lp.now ex.new lp_node ≡ plan_at lp.now ex.old lp_node) }
{
    let mut changed = false;
    let mut replaced: u64 = 0;
    let counted = counts(rule.kind());
    while let Some(entry) = rule.optimize_expr(alloc, ex, expr_node, lp, lp_node)? {
        ex.put(expr_node, entry);
        changed = true;
        if counted {
            replaced += 1;
        }
    }
    Ok(Work { changed, replaced })
}

/// Calls each rule at an expression, in order, until it answers None. Refuses for want of memory alone.
fn visit_expr<R: OptimizationRule>(
    rules: &mut [R],
    alloc: Global,
    ex: &mut Arena<AExpr>,
    expr_node: Node,
    lp: &Arena<IR>,
    lp_node: Node,
) -> PolarsResult<Work>
    requires plan { IsPlan lp.now ex.old lp_node }
    requires valid { IsValid (plan_at lp.now ex.old lp_node) }
    requires listed { ListsExpr lp.now ex.old lp_node expr_node }
    requires fits { weight (plan_at lp.now ex.old lp_node) < 2 ^ 64 }
    ensures kinds { map R.kind_of rules.new ≡ map R.kind_of rules.old }
    ensures owns { map R.is_own rules.new ≡ map R.is_own rules.old }
    ensures memory { IfErr result (λ e. e ≡ OutOfMemory) }
    ensures longer { length ex.old ≤ length ex.new }
    ensures tended { IfOk result (λ w. (t : Trees IR) (e : Trees AExpr) (g : Trees AExpr) → StandsPlan lp.now ex.old lp_node t e → StandsOnce expr_shape ex.old (expr_node ∷ []) g → Tended (map R.kind_of rules.old) lp.now ex.old ex.new lp_node expr_node t g (done_of w)) }
    ensures told { OnOk result (all_own (map R.is_own rules.old) ≡ true → plan_at lp.now ex.new lp_node ≡ plan_at lp.now ex.old lp_node) }
{
    let mut work = Work::none();
    for i in 0..rules.len() {
        let done = apply_expr(&mut rules[i], alloc, ex, expr_node, lp, lp_node)?;
        work = work.and(done);
    }
    Ok(work)
}

/// Whether rules are called at an expression: it is no column, literal or count of rows.
fn is_asked(expr: &AExpr) -> bool
    ensures { result ≡ asks_rules expr.now }
{
    !matches!(expr, AExpr::Column(_) | AExpr::Literal(_) | AExpr::Len)
}

/// Calls the rules at an expression, and then the extra ones, each until it answers None; none of them at a column, a literal or a
/// count of rows. Refuses for want of memory alone.
fn visit_both_expr<R: OptimizationRule, Q: OptimizationRule>(
    rules: &mut [R],
    extra: &mut [Q],
    alloc: Global,
    ex: &mut Arena<AExpr>,
    expr_node: Node,
    lp: &Arena<IR>,
    lp_node: Node,
) -> PolarsResult<Work>
    requires plan { IsPlan lp.now ex.old lp_node }
    requires valid { IsValid (plan_at lp.now ex.old lp_node) }
    requires listed { ListsExpr lp.now ex.old lp_node expr_node }
    requires fits { weight (plan_at lp.now ex.old lp_node) < 2 ^ 64 }
    ensures kinds { map R.kind_of rules.new ≡ map R.kind_of rules.old }
    ensures owns { map R.is_own rules.new ≡ map R.is_own rules.old }
    ensures extra_kinds { map Q.kind_of extra.new ≡ map Q.kind_of extra.old }
    ensures extra_owns { map Q.is_own extra.new ≡ map Q.is_own extra.old }
    ensures memory { IfErr result (λ e. e ≡ OutOfMemory) }
    ensures longer { length ex.old ≤ length ex.new }
    ensures tended { IfOk result (λ w. (t : Trees IR) (e : Trees AExpr) (g : Trees AExpr) → StandsPlan lp.now ex.old lp_node t e → StandsOnce expr_shape ex.old (expr_node ∷ []) g → Tended (map R.kind_of rules.old ++ map Q.kind_of extra.old) lp.now ex.old ex.new lp_node expr_node t g (done_of w)) }
    ensures told { OnOk result (all_own (map R.is_own rules.old ++ map Q.is_own extra.old) ≡ true → plan_at lp.now ex.new lp_node ≡ plan_at lp.now ex.old lp_node) }
{
    if !is_asked(ex.get(expr_node)) {
        return Ok(Work::none());
    }
    let first = visit_expr(rules, alloc, ex, expr_node, lp, lp_node)?;
    let second = visit_expr(extra, alloc, ex, expr_node, lp, lp_node)?;
    Ok(first.and(second))
}

/// Calls the rules at each node of an expression: at a node first, and then at its operands as they then stand, in order. Refuses
/// for want of memory alone.
fn walk_expr<R: OptimizationRule, Q: OptimizationRule>(
    rules: &mut [R],
    extra: &mut [Q],
    alloc: Global,
    ex: &mut Arena<AExpr>,
    expr_node: Node,
    lp: &Arena<IR>,
    lp_node: Node,
) -> PolarsResult<Work>
    requires plan { IsPlan lp.now ex.old lp_node }
    requires valid { IsValid (plan_at lp.now ex.old lp_node) }
    requires listed { ListsExpr lp.now ex.old lp_node expr_node }
    requires fits { weight (plan_at lp.now ex.old lp_node) < 2 ^ 64 }
    ensures kinds { map R.kind_of rules.new ≡ map R.kind_of rules.old }
    ensures owns { map R.is_own rules.new ≡ map R.is_own rules.old }
    ensures extra_kinds { map Q.kind_of extra.new ≡ map Q.kind_of extra.old }
    ensures extra_owns { map Q.is_own extra.new ≡ map Q.is_own extra.old }
    ensures memory { IfErr result (λ e. e ≡ OutOfMemory) }
    ensures longer { length ex.old ≤ length ex.new }
    ensures tended { IfOk result (λ w. (t : Trees IR) (e : Trees AExpr) (g : Trees AExpr) → StandsPlan lp.now ex.old lp_node t e → StandsOnce expr_shape ex.old (expr_node ∷ []) g → Tended (map R.kind_of rules.old ++ map Q.kind_of extra.old) lp.now ex.old ex.new lp_node expr_node t g (done_of w)) }
    ensures told { OnOk result (all_own (map R.is_own rules.old ++ map Q.is_own extra.old) ≡ true → plan_at lp.now ex.new lp_node ≡ plan_at lp.now ex.old lp_node) }
{
    let above = visit_both_expr(rules, extra, alloc, ex, expr_node, lp, lp_node)?;
    let operands = operands_at(alloc, ex, expr_node)?;
    let listed = operands.as_slice();
    let mut work = Work::none();
    let mut place: usize = 0;
    while let Some(operand) = node_at(listed, place) {
        let done = walk_expr(rules, extra, alloc, ex, operand, lp, lp_node)?;
        work = work.and(done);
        place += 1;
    }
    Ok(above.and(work))
}

/// Walks the expressions that a node lists, in order. Refuses for want of memory alone.
pub(crate) fn walk_exprs<R: OptimizationRule, Q: OptimizationRule>(
    rules: &mut [R],
    extra: &mut [Q],
    alloc: Global,
    ex: &mut Arena<AExpr>,
    lp: &Arena<IR>,
    lp_node: Node,
) -> PolarsResult<Work>
    requires plan { IsPlan lp.now ex.old lp_node }
    requires valid { IsValid (plan_at lp.now ex.old lp_node) }
    requires fits { weight (plan_at lp.now ex.old lp_node) < 2 ^ 64 }
    ensures kinds { map R.kind_of rules.new ≡ map R.kind_of rules.old }
    ensures owns { map R.is_own rules.new ≡ map R.is_own rules.old }
    ensures extra_kinds { map Q.kind_of extra.new ≡ map Q.kind_of extra.old }
    ensures extra_owns { map Q.is_own extra.new ≡ map Q.is_own extra.old }
    ensures memory { IfErr result (λ e. e ≡ OutOfMemory) }
    ensures longer { length ex.old ≤ length ex.new }
    ensures brought { IfOk result (λ w. (t : Trees IR) (e : Trees AExpr) → StandsPlan lp.now ex.old lp_node t e → Brought (map R.kind_of rules.old ++ map Q.kind_of extra.old) lp.now lp.now ex.old ex.new (lp_node ∷ []) t e (done_of w)) }
    ensures told { OnOk result (all_own (map R.is_own rules.old ++ map Q.is_own extra.old) ≡ true → plan_at lp.now ex.new lp_node ≡ plan_at lp.now ex.old lp_node) }
{
    let exprs = exprs_at(alloc, lp, lp_node)?;
    let listed = exprs.as_slice();
    let mut work = Work::none();
    let mut place: usize = 0;
    while let Some(root) = root_at(listed, place) {
        let done = walk_expr(rules, extra, alloc, ex, root, lp, lp_node)?;
        work = work.and(done);
        place += 1;
    }
    Ok(work)
}
