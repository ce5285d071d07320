//! The passes of the chain, each with what it does to the plan at a number.
ghost use Rattle.std.specs.Prelude.{◌≡◌, ◌||◌, true, false, [], IfErr, IfOk, OnErr, OnOk, List, map};
ghost use Rattle.plan_core.specs.declared.error.PolarsError.TheVariants.{OutOfMemory};
ghost use Rattle.plan_core.specs.declared.flags.OptFlags.{OptFlags as Flags};
ghost use Rattle.plan_expr.specs.declared.aexpr.AExpr.{AExpr as AExprType};
ghost use Rattle.plan_ir.specs.Parts.{IsPlan};
ghost use Rattle.plan_meaning.specs.Counting.{meets_count};
ghost use Rattle.plan_meaning.specs.PlanAt.{plan_at};
ghost use Rattle.plan_meaning.specs.Steps.{IsValid};
ghost use Rattle.plan_top.specs.declared.trail.Pass.TheVariants as passes_of;
ghost use Rattle.plan_top.specs.Chains.{Boxes, asks_members as are_members_asked, boxes_of, is_clustering, is_counting, is_ordering, is_pruning};
ghost use Rattle.plan_top.specs.Trails.{Passed, RanIf};

use plan_cluster::cluster_with_columns;
use plan_core::{Arena, Node, OptFlags, PolarsResult};
use plan_expr::AExpr;
use plan_ir::IR;
use plan_order::{CountStar, MemberCollector, set_order_flags};
use plan_prune::ProjectionPushDown;
use plan_reshape::{BoxedRule, OptimizationRule, Rule, StackOptimizer};
use plan_rule::{DelayRechunk, FlattenUnionRule, SimpleProjectionAndCollapse};
use std::alloc::{AllocError, Global};

/// Whether a group-by, a sort or distinct rows were reached.
fn has_order(members: &MemberCollector) -> bool
    ensures { result ≡ (members.now.has_group_by || (members.now.has_sort || members.now.has_distinct)) }
{
    members.has_group_by || members.has_sort || members.has_distinct
}

/// Whether flags ask which kinds of nodes a plan has.
fn asks_members(flags: OptFlags) -> bool
    ensures { result ≡ are_members_asked flags }
{
    !flags.eager() && (flags.contains(OptFlags::COMM_SUBEXPR_ELIM) || flags.projection_pushdown())
}

/// Whether the orders of the plan at `root` are to be looked at. Refuses for want of memory alone.
fn is_ordered(
    alloc: Global,
    root: Node,
    flags: OptFlags,
    lp: &Arena<IR>,
) -> Result<bool, AllocError>
    requires { (ex : List AExprType) × IsPlan lp.now ex root }
    ensures { IfOk result (λ asked. (ex : List AExprType) → IsPlan lp.now ex root → asked ≡ is_ordering flags (plan_at lp.now ex root)) }
{
    if !flags.contains(OptFlags::CHECK_ORDER_OBSERVE) {
        return Ok(false);
    }
    if !asks_members(flags) {
        return Ok(false);
    }
    let mut members = MemberCollector::new();
    members.collect(alloc, root, lp)?;
    Ok(has_order(&members))
}

/// Leaves the sorts of the plan at `root` out whose order nothing observes, and marks the nodes that need no order, where the flags ask
/// for it and the plan has nodes for which order counts. Gives whether it did. `scratch` is empty then, else as it was. Refuses for want
/// of memory alone.
pub fn order(
    alloc: Global,
    root: Node,
    flags: OptFlags,
    lp: &mut Arena<IR>,
    ex: &Arena<AExpr>,
    scratch: &mut Vec<Node>,
) -> Result<bool, AllocError>
    requires plan { IsPlan lp.old ex.now root }
    requires valid { IsValid (plan_at lp.old ex.now root) }
    ensures asked { IfOk result (λ ran. ran ≡ is_ordering flags (plan_at lp.old ex.now root)) }
    ensures is_plan { OnOk result (IsPlan lp.new ex.now root) }
    ensures is_valid { OnOk result (IsValid (plan_at lp.new ex.now root)) }
    ensures passed { IfOk result (λ ran. (boxes : Boxes) → RanIf ran flags boxes passes_of.Order lp.old lp.new ex.now ex.now root 0) }
    ensures counts { OnOk result (meets_count (plan_at lp.new ex.now root) ≡ meets_count (plan_at lp.old ex.now root)) }
    ensures emptied { OnOk result (is_ordering flags (plan_at lp.old ex.now root) ≡ true → scratch.new.items ≡ []) }
    ensures left { OnOk result (is_ordering flags (plan_at lp.old ex.now root) ≡ false → scratch.new ≡ scratch.old) }
{
    if !is_ordered(alloc, root, flags, lp)? {
        return Ok(false);
    }
    set_order_flags(root, lp, ex, scratch)?;
    Ok(true)
}

/// Prunes the plan at `root`. Gives whether it counts rows. Refuses for want of memory alone.
fn push_down(
    alloc: Global,
    root: Node,
    lp: &mut Arena<IR>,
    ex: &mut Arena<AExpr>,
) -> Result<bool, AllocError>
    requires plan { IsPlan lp.old ex.old root }
    requires valid { IsValid (plan_at lp.old ex.old root) }
    ensures is_plan { OnOk result (IsPlan lp.new ex.new root) }
    ensures is_valid { OnOk result (IsValid (plan_at lp.new ex.new root)) }
    ensures passed { OnOk result ((flags : Flags) (boxes : Boxes) → Passed flags boxes passes_of.Prune lp.old lp.new ex.old ex.new root 0) }
    ensures counts { IfOk result (λ counts. counts ≡ meets_count (plan_at lp.old ex.old root)) }
{
    let mut pushdown = ProjectionPushDown::new();
    pushdown.optimize(alloc, root, lp, ex)?;
    Ok(pushdown.is_count_star)
}

/// Prunes the plan at `root` where the flags ask for it. Gives whether it was pruned and counts rows. Refuses for want of memory alone.
pub fn prune(
    alloc: Global,
    root: Node,
    flags: OptFlags,
    lp: &mut Arena<IR>,
    ex: &mut Arena<AExpr>,
) -> Result<bool, AllocError>
    requires plan { IsPlan lp.old ex.old root }
    requires valid { IsValid (plan_at lp.old ex.old root) }
    ensures is_plan { OnOk result (IsPlan lp.new ex.new root) }
    ensures is_valid { OnOk result (IsValid (plan_at lp.new ex.new root)) }
    ensures passed { OnOk result ((boxes : Boxes) → RanIf (is_pruning flags) flags boxes passes_of.Prune lp.old lp.new ex.old ex.new root 0) }
    ensures counts { IfOk result (λ counts. counts ≡ is_counting flags (plan_at lp.old ex.old root)) }
{
    if !flags.projection_pushdown() {
        return Ok(false);
    }
    let counts = push_down(alloc, root, lp, ex)?;
    Ok(counts)
}

/// Puts a count of the rows of files in the place of the plan at `root`, where this pass is to run and the plan tells that number alone.
/// Refuses for want of memory alone.
pub fn count(
    alloc: Global,
    root: Node,
    runs: bool,
    lp: &mut Arena<IR>,
    ex: &Arena<AExpr>,
) -> PolarsResult<()>
    requires plan { IsPlan lp.old ex.now root }
    requires valid { IsValid (plan_at lp.old ex.now root) }
    ensures memory { IfErr result (λ e. e ≡ OutOfMemory) }
    ensures is_plan { OnOk result (IsPlan lp.new ex.now root) }
    ensures is_valid { OnOk result (IsValid (plan_at lp.new ex.now root)) }
    ensures passed { OnOk result ((flags : Flags) (boxes : Boxes) → RanIf runs flags boxes passes_of.Count lp.old lp.new ex.now ex.now root 0) }
{
    if runs {
        drop(CountStar::new().optimize_plan(alloc, lp, ex, root)?);
    }
    Ok(())
}

/// Makes few of the additions of columns of the plan at `root` that stand directly on one another, where the flags ask for it. Refuses for
/// want of memory alone.
pub fn cluster(
    alloc: Global,
    root: Node,
    flags: OptFlags,
    lp: &mut Arena<IR>,
    ex: &Arena<AExpr>,
) -> Result<(), AllocError>
    requires plan { IsPlan lp.old ex.now root }
    requires valid { IsValid (plan_at lp.old ex.now root) }
    ensures is_plan { OnOk result (IsPlan lp.new ex.now root) }
    ensures is_valid { OnOk result (IsValid (plan_at lp.new ex.now root)) }
    ensures passed { OnOk result ((boxes : Boxes) → RanIf (is_clustering flags) flags boxes passes_of.Cluster lp.old lp.new ex.now ex.now root 0) }
{
    if flags.cluster_with_columns() {
        cluster_with_columns::optimize(alloc, root, lp, ex)?;
    }
    Ok(())
}

/// Calls the rules that the flags ask for, and the boxes after them, until none finds its pattern in the plan at `root`. Gives what was
/// counted. Refuses for want of memory alone.
pub fn settle(
    alloc: Global,
    root: Node,
    flags: OptFlags,
    lp: &mut Arena<IR>,
    ex: &mut Arena<AExpr>,
    extra: &mut [BoxedRule],
) -> PolarsResult<u64>
    requires plan { IsPlan lp.old ex.old root }
    requires valid { IsValid (plan_at lp.old ex.old root) }
    ensures memory { IfErr result (λ e. e ≡ OutOfMemory) }
    ensures kinds { map ⟦<BoxedRule as OptimizationRule>⟧.kind_of extra.new ≡ map ⟦<BoxedRule as OptimizationRule>⟧.kind_of extra.old }
    ensures owns { map ⟦<BoxedRule as OptimizationRule>⟧.is_own extra.new ≡ map ⟦<BoxedRule as OptimizationRule>⟧.is_own extra.old }
    ensures is_plan { OnOk result (IsPlan lp.new ex.new root) }
    ensures passed { IfOk result (λ n. Passed flags (boxes_of (map ⟦<BoxedRule as OptimizationRule>⟧.kind_of extra.old) (map ⟦<BoxedRule as OptimizationRule>⟧.is_own extra.old)) passes_of.Rules lp.old lp.new ex.old ex.new root n) }
{
    let eager = flags.eager();
    if flags.fast_projection() {
        let collapse = Rule::Collapse(SimpleProjectionAndCollapse::new(eager));
        if eager {
            let rules: &mut [Rule] = &mut [collapse];
            return StackOptimizer.optimize_boxed(alloc, rules, extra, ex, lp, root);
        }
        let rules: &mut [Rule] = &mut [
            collapse,
            Rule::Rechunk(DelayRechunk::new()),
            Rule::Flatten(FlattenUnionRule),
        ];
        return StackOptimizer.optimize_boxed(alloc, rules, extra, ex, lp, root);
    }
    if eager {
        let rules: &mut [Rule] = &mut [];
        return StackOptimizer.optimize_boxed(alloc, rules, extra, ex, lp, root);
    }
    let rules: &mut [Rule] = &mut [
        Rule::Rechunk(DelayRechunk::new()),
        Rule::Flatten(FlattenUnionRule),
    ];
    StackOptimizer.optimize_boxed(alloc, rules, extra, ex, lp, root)
}
