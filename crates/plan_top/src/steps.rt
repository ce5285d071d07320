//! The passes of the chain with the steps that show what they leave.
ghost use Rattle.std.specs.Prelude.{◌≡◌, ◌++◌, ◌∷◌, ◌≤◌, true, false, [], IfErr, IfOk, OnErr, OnOk, length};
ghost use Rattle.plan_core.specs.declared.error.PolarsError.TheVariants.{OutOfMemory};
ghost use Rattle.plan_core.specs.declared.flags.OptFlags.{OptFlags as Flags};
ghost use Rattle.plan_ir.specs.Parts.{IsPlan};
ghost use Rattle.plan_meaning.specs.Counting.{meets_count};
ghost use Rattle.plan_meaning.specs.PlanAt.{plan_at};
ghost use Rattle.plan_meaning.specs.Steps.{IsValid};
ghost use Rattle.plan_top.specs.declared.trail.Pass.TheVariants as passes_of;
ghost use Rattle.plan_top.specs.declared.trail.Step.{Step as StepType};
ghost use Rattle.plan_top.specs.Chains.{Boxes, is_clustering, is_counting, is_ordering, is_pruning};
ghost use Rattle.plan_top.specs.Trails.{KeptIf, RanIf, Shows};

use crate::passes::{cluster, count, order, prune};
use crate::trail::{Pass, Step, Trail};
use plan_copy::renumbered;
use plan_core::{Arena, Node, OptFlags, PolarsResult};
use plan_expr::AExpr;
use plan_ir::IR;
use std::alloc::{AllocError, Global};

/// Appends a step that shows the plan at `root` as what a pass left. Refuses for want of memory alone, and then the trail is as it was.
pub fn keep_step(
    alloc: Global,
    pass: Pass,
    replaced: u64,
    root: Node,
    lp: &Arena<IR>,
    ex: &Arena<AExpr>,
    trail: &mut Trail,
) -> Result<(), AllocError>
    requires { IsPlan lp.now ex.now root }
    ensures kept { OnOk result ((step : StepType) × (trail.new ≡ trail.old ++ step ∷ []) × Shows step (record { pass = pass; plan = plan_at lp.now ex.now root; replaced = replaced })) }
    ensures unchanged { OnErr result (trail.new ≡ trail.old) }
{
    let plan = renumbered(alloc, root, lp, ex)?;
    trail.push(Step {
        pass,
        plan,
        replaced,
    })?;
    Ok(())
}

/// The same where the pass ran; else the trail stays. Refuses for want of memory alone, and then the trail is as it was.
fn keep_if(
    alloc: Global,
    ran: bool,
    pass: Pass,
    root: Node,
    lp: &Arena<IR>,
    ex: &Arena<AExpr>,
    trail: &mut Trail,
) -> Result<(), AllocError>
    requires { IsPlan lp.now ex.now root }
    ensures kept { OnOk result (KeptIf ran (record { pass = pass; plan = plan_at lp.now ex.now root; replaced = 0 }) trail.old trail.new) }
    ensures grows { length trail.old ≤ length trail.new }
{
    if ran {
        keep_step(alloc, pass, 0, root, lp, ex, trail)?;
    }
    Ok(())
}

/// `order`, and a step of what it left where it ran. Refuses for want of memory alone.
pub fn order_step(
    alloc: Global,
    root: Node,
    flags: OptFlags,
    lp: &mut Arena<IR>,
    ex: &Arena<AExpr>,
    scratch: &mut Vec<Node>,
    trail: &mut Trail,
) -> Result<bool, AllocError>
    requires plan { IsPlan lp.old ex.now root }
    requires valid { IsValid (plan_at lp.old ex.now root) }
    ensures asked { IfOk result (λ ran. ran ≡ is_ordering flags (plan_at lp.old ex.now root)) }
    ensures is_plan { OnOk result (IsPlan lp.new ex.now root) }
    ensures is_valid { OnOk result (IsValid (plan_at lp.new ex.now root)) }
    ensures passed { IfOk result (λ ran. (boxes : Boxes) → RanIf ran flags boxes passes_of.Order lp.old lp.new ex.now ex.now root 0) }
    ensures counts { OnOk result (meets_count (plan_at lp.new ex.now root) ≡ meets_count (plan_at lp.old ex.now root)) }
    ensures emptied { OnOk result (is_ordering flags (plan_at lp.old ex.now root) ≡ true → scratch.new.items ≡ []) }
    ensures left { OnOk result (is_ordering flags (plan_at lp.old ex.now root) ≡ false → scratch.new ≡ scratch.old) }
    ensures kept { IfOk result (λ ran. KeptIf ran (record { pass = passes_of.Order; plan = plan_at lp.new ex.now root; replaced = 0 }) trail.old trail.new) }
    ensures grows { length trail.old ≤ length trail.new }
{
    let ran = order(alloc, root, flags, lp, ex, scratch)?;
    keep_if(alloc, ran, Pass::Order, root, lp, ex, trail)?;
    Ok(ran)
}

/// `prune`, and a step of what it left where the flags ask for it. Refuses for want of memory alone.
pub fn prune_step(
    alloc: Global,
    root: Node,
    flags: OptFlags,
    lp: &mut Arena<IR>,
    ex: &mut Arena<AExpr>,
    trail: &mut Trail,
) -> Result<bool, AllocError>
    requires plan { IsPlan lp.old ex.old root }
    requires valid { IsValid (plan_at lp.old ex.old root) }
    ensures is_plan { OnOk result (IsPlan lp.new ex.new root) }
    ensures is_valid { OnOk result (IsValid (plan_at lp.new ex.new root)) }
    ensures passed { OnOk result ((boxes : Boxes) → RanIf (is_pruning flags) flags boxes passes_of.Prune lp.old lp.new ex.old ex.new root 0) }
    ensures counts { IfOk result (λ counts. counts ≡ is_counting flags (plan_at lp.old ex.old root)) }
    ensures kept { OnOk result (KeptIf (is_pruning flags) (record { pass = passes_of.Prune; plan = plan_at lp.new ex.new root; replaced = 0 }) trail.old trail.new) }
    ensures grows { length trail.old ≤ length trail.new }
{
    let counts = prune(alloc, root, flags, lp, ex)?;
    let ran = flags.projection_pushdown();
    keep_if(alloc, ran, Pass::Prune, root, lp, ex, trail)?;
    Ok(counts)
}

/// `count`, and a step of what it left where it runs. Refuses for want of memory alone.
pub fn count_step(
    alloc: Global,
    root: Node,
    runs: bool,
    lp: &mut Arena<IR>,
    ex: &Arena<AExpr>,
    trail: &mut Trail,
) -> PolarsResult<()>
    requires plan { IsPlan lp.old ex.now root }
    requires valid { IsValid (plan_at lp.old ex.now root) }
    ensures memory { IfErr result (λ e. e ≡ OutOfMemory) }
    ensures is_plan { OnOk result (IsPlan lp.new ex.now root) }
    ensures is_valid { OnOk result (IsValid (plan_at lp.new ex.now root)) }
    ensures passed { OnOk result ((flags : Flags) (boxes : Boxes) → RanIf runs flags boxes passes_of.Count lp.old lp.new ex.now ex.now root 0) }
    ensures kept { OnOk result (KeptIf runs (record { pass = passes_of.Count; plan = plan_at lp.new ex.now root; replaced = 0 }) trail.old trail.new) }
    ensures grows { length trail.old ≤ length trail.new }
{
    count(alloc, root, runs, lp, ex)?;
    keep_if(alloc, runs, Pass::Count, root, lp, ex, trail)?;
    Ok(())
}

/// `cluster`, and a step of what it left where the flags ask for it. Refuses for want of memory alone.
pub fn cluster_step(
    alloc: Global,
    root: Node,
    flags: OptFlags,
    lp: &mut Arena<IR>,
    ex: &Arena<AExpr>,
    trail: &mut Trail,
) -> Result<(), AllocError>
    requires plan { IsPlan lp.old ex.now root }
    requires valid { IsValid (plan_at lp.old ex.now root) }
    ensures is_plan { OnOk result (IsPlan lp.new ex.now root) }
    ensures is_valid { OnOk result (IsValid (plan_at lp.new ex.now root)) }
    ensures passed { OnOk result ((boxes : Boxes) → RanIf (is_clustering flags) flags boxes passes_of.Cluster lp.old lp.new ex.now ex.now root 0) }
    ensures kept { OnOk result (KeptIf (is_clustering flags) (record { pass = passes_of.Cluster; plan = plan_at lp.new ex.now root; replaced = 0 }) trail.old trail.new) }
    ensures grows { length trail.old ≤ length trail.new }
{
    cluster(alloc, root, flags, lp, ex)?;
    let ran = flags.cluster_with_columns();
    keep_if(alloc, ran, Pass::Cluster, root, lp, ex, trail)?;
    Ok(())
}
