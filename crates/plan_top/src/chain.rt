//! The chain of passes over a checked plan.
ghost use Rattle.std.specs.Prelude.{◌≡◌, ◌∷◌, [], true, false, IfErr, IfOk, OnErr, OnOk, Ok, length, map};
ghost use Rattle.plan_core.specs.Columns.{Columns};
ghost use Rattle.plan_ir.specs.Parts.{IsPlan};
ghost use Rattle.plan_meaning.specs.Caches.{AreShared};
ghost use Rattle.plan_meaning.specs.PlanAt.{plan_at};
ghost use Rattle.plan_meaning.specs.Relating.{Refines};
ghost use Rattle.plan_meaning.specs.Scans.{Keeps};
ghost use Rattle.plan_meaning.specs.Typed.{typed};
ghost use Rattle.plan_reshape.specs.Walking.{all_own};
ghost use Rattle.plan_top.specs.Chains.{ReadsAsked, boxes_of, is_ordering, is_pruning, passes};
ghost use Rattle.plan_top.specs.Trails.{Chained, RefusedFor, Trailed};

use crate::passes::{cluster, count, order, prune, settle};
use crate::steps::{cluster_step, count_step, keep_step, order_step, prune_step};
use crate::trail::{Pass, Trail};
use plan_check::check_plan;
use plan_core::{Arena, Node, OptFlags, PolarsResult};
use plan_expr::AExpr;
use plan_ir::IR;
use plan_reshape::{BoxedRule, OptimizationRule};
use std::alloc::Global;

/// Checks the plan at `root`, changes it by the passes that the flags ask for, and gives `root`.
///
/// With `CHECK_ORDER_OBSERVE` and without `EAGER`, sorts whose order nothing observes are left out, if columns are pruned or
/// `COMM_SUBEXPR_ELIM` is set, and the plan has a group-by, a sort or distinct rows. With `PROJECTION_PUSHDOWN` the plan is pruned, and
/// becomes a bare count if it tells the number of the rows of files alone. With `CLUSTER_WITH_COLUMNS` few additions of columns are made of
/// those that stand directly on one another. Then rules are called until none finds its pattern: that which collapses projections with
/// `FAST_PROJECTION`, and without `EAGER` those which delay rechunks and flatten unions.
///
/// The plan then refines the given one. Where it was pruned and isn't a bare count, its scans stand one for one for the given ones and
/// read only what they may for what is asked; without pruning they are kept. Caches of one number stand over alike plans if they did.
/// What `root` doesn't reach stays, and it reaches only what it reached, or what was added. `scratch` is empty where orders were looked
/// at, and else stays.
///
/// Refuses where the plan isn't valid, with its first fault, and then changes nothing; else for want of memory alone, and then nothing
/// is known of the arenas.
pub fn optimize(
    alloc: Global,
    root: Node,
    flags: OptFlags,
    shared: bool,
    lp: &mut Arena<IR>,
    ex: &mut Arena<AExpr>,
    scratch: &mut Vec<Node>,
) -> PolarsResult<Node>
    ensures refused { IfErr result (λ e. RefusedFor e lp.old ex.old root ((lp.new ≡ lp.old) × (ex.new ≡ ex.old) × (scratch.new ≡ scratch.old))) }
    ensures valid { OnOk result ((schema : Columns) × (typed lp.old ex.old root ≡ Ok schema)) }
    ensures node { IfOk result (λ r. r ≡ root) }
    ensures is_plan { OnOk result (IsPlan lp.new ex.new root) }
    ensures chained { OnOk result (Chained flags (boxes_of [] []) (passes flags (plan_at lp.old ex.old root)) lp.old lp.new ex.old ex.new root) }
    ensures refines { OnOk result (Refines (plan_at lp.new ex.new root) (plan_at lp.old ex.old root)) }
    ensures reads { OnOk result (is_pruning flags ≡ true → ReadsAsked flags (plan_at lp.old ex.old root) (plan_at lp.new ex.new root)) }
    ensures keeps { OnOk result (is_pruning flags ≡ false → Keeps (plan_at lp.new ex.new root) (plan_at lp.old ex.old root)) }
    ensures shared { OnOk result (AreShared (plan_at lp.old ex.old root) → AreShared (plan_at lp.new ex.new root)) }
    ensures emptied { OnOk result (is_ordering flags (plan_at lp.old ex.old root) ≡ true → scratch.new.items ≡ []) }
    ensures left { OnOk result (is_ordering flags (plan_at lp.old ex.old root) ≡ false → scratch.new ≡ scratch.old) }
{
    let _ = shared;
    let _ = check_plan(alloc, root, lp, ex)?;
    let _ = order(alloc, root, flags, lp, ex, scratch)?;
    let counts = prune(alloc, root, flags, lp, ex)?;
    count(alloc, root, counts, lp, ex)?;
    cluster(alloc, root, flags, lp, ex)?;
    let none: &mut [BoxedRule] = &mut [];
    let _ = settle(alloc, root, flags, lp, ex, none)?;
    Ok(root)
}

/// As `optimize`, but that the boxes of `extra` are called too, at each place after the rules, and that the trail gets a step for each
/// pass that ran, in order: the given plan first, then what each pass left. Caches of one number stand over alike plans if they did and
/// each box holds a rule that is its kind's own. `extra` has as many boxes, of the kinds that they had.
///
/// Refuses as `optimize`. The trail has more steps than before once an entry changed; where it has as many, nothing changed.
pub fn optimize_with(
    alloc: Global,
    root: Node,
    flags: OptFlags,
    shared: bool,
    lp: &mut Arena<IR>,
    ex: &mut Arena<AExpr>,
    scratch: &mut Vec<Node>,
    extra: &mut Vec<BoxedRule>,
    trail: &mut Trail,
) -> PolarsResult<Node>
    ensures refused { IfErr result (λ e. RefusedFor e lp.old ex.old root (trail.new ≡ trail.old)) }
    ensures unchanged { OnErr result (length trail.new ≡ length trail.old → (lp.new ≡ lp.old) × (ex.new ≡ ex.old) × (trail.new ≡ trail.old) × (scratch.new ≡ scratch.old) × (extra.new.items ≡ extra.old.items)) }
    ensures valid { OnOk result ((schema : Columns) × (typed lp.old ex.old root ≡ Ok schema)) }
    ensures node { IfOk result (λ r. r ≡ root) }
    ensures is_plan { OnOk result (IsPlan lp.new ex.new root) }
    ensures trailed { OnOk result (Trailed flags (boxes_of (map ⟦<BoxedRule as OptimizationRule>⟧.kind_of extra.old.items) (map ⟦<BoxedRule as OptimizationRule>⟧.is_own extra.old.items)) (passes flags (plan_at lp.old ex.old root)) lp.old lp.new ex.old ex.new root trail.old trail.new) }
    ensures refines { OnOk result (Refines (plan_at lp.new ex.new root) (plan_at lp.old ex.old root)) }
    ensures reads { OnOk result (is_pruning flags ≡ true → ReadsAsked flags (plan_at lp.old ex.old root) (plan_at lp.new ex.new root)) }
    ensures keeps { OnOk result (is_pruning flags ≡ false → Keeps (plan_at lp.new ex.new root) (plan_at lp.old ex.old root)) }
    ensures shared { OnOk result (all_own (map ⟦<BoxedRule as OptimizationRule>⟧.is_own extra.old.items) ≡ true → AreShared (plan_at lp.old ex.old root) → AreShared (plan_at lp.new ex.new root)) }
    ensures kinds { map ⟦<BoxedRule as OptimizationRule>⟧.kind_of extra.new.items ≡ map ⟦<BoxedRule as OptimizationRule>⟧.kind_of extra.old.items }
    ensures owns { map ⟦<BoxedRule as OptimizationRule>⟧.is_own extra.new.items ≡ map ⟦<BoxedRule as OptimizationRule>⟧.is_own extra.old.items }
    ensures emptied { OnOk result (is_ordering flags (plan_at lp.old ex.old root) ≡ true → scratch.new.items ≡ []) }
    ensures left { OnOk result (is_ordering flags (plan_at lp.old ex.old root) ≡ false → scratch.new ≡ scratch.old) }
{
    let _ = shared;
    let _ = check_plan(alloc, root, lp, ex)?;
    keep_step(alloc, Pass::Given, 0, root, lp, ex, trail)?;
    let _ = order_step(alloc, root, flags, lp, ex, scratch, trail)?;
    let counts = prune_step(alloc, root, flags, lp, ex, trail)?;
    count_step(alloc, root, counts, lp, ex, trail)?;
    cluster_step(alloc, root, flags, lp, ex, trail)?;
    let replaced = settle(alloc, root, flags, lp, ex, extra)?;
    keep_step(alloc, Pass::Rules, replaced, root, lp, ex, trail)?;
    Ok(root)
}
