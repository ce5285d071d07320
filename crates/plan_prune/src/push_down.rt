//! The pass that prunes a plan to the columns that it needs.
//! Each node is told the names that are asked of it, and asks its inputs the names that it needs;
//! no names stand for every column. The rule of a node kind is in a file of its own of plan_prune_steps, and its `step` finds it.
ghost use Rattle.std.specs.Prelude.{◌≡◌, ◌<◌, ◌≤◌, ◌+◌, List, [], ◌∷◌, Err, IfOk, IsTrue, OnOk, Some, ◌||◌, false, length, not, slice_get, slice_set, true};
ghost use Rattle.plan_tree.specs.Stands.{Trees, StandsOnce};
ghost use Rattle.plan_ir.specs.declared.ir.IR.{IR as IRType};
ghost use Rattle.plan_ir.specs.Parts.{IsPlan, inputs_of, is_join, plan_shape, roots_of};
ghost use Rattle.plan_ir.specs.Plans.{bare, plans_at};
ghost use Rattle.plan_meaning.specs.Caches.{AreShared};
ghost use Rattle.plan_meaning.specs.PlanAt.{plan_at};
ghost use Rattle.plan_meaning.specs.Steps.{IsValid};
ghost use Rattle.plan_meaning.specs.Relating.{all, Refines};
ghost use Rattle.plan_meaning.specs.Asked.{sites_of};
ghost use Rattle.plan_meaning.specs.Counting.{meets_count};
ghost use Rattle.plan_meaning.specs.Scans.{nodes, scans};
ghost use Rattle.plan_meaning.specs.Work.{made, kept};
ghost use Rattle.plan_pruned.specs.Pruned.{pruned_all};
ghost use Rattle.plan_pruned.specs.Reads.{ReadWithin, tops};
ghost use Rattle.plan_pruned.specs.Renamed.{IsLonger};
ghost use Rattle.plan_prune_parts.specs.declared.kept.Kept.{Kept as KeptType};
ghost use Rattle.plan_prune_parts.specs.Places.{StandExprs};
ghost use Rattle.plan_prune_parts.specs.Tops.{with_columns_on};
ghost use Rattle.plan_prune_names.specs.Known.{KnowsAt};
ghost use Rattle.plan_prune_steps.specs.Steps.{IsPutBack, put_back};
ghost use Rattle.plan_expr.specs.declared.aexpr.AExpr.{AExpr as AExprType};
ghost use Rattle.plan_prune.specs.Taken.{IsTaken, step_told, top_columns};
ghost use Rattle.plan_prune.specs.Prunes.{AreInputs, InputsPruned, MarksAt, PrunesAt, PrunesUnder};

use crate::taken::{Rest, Taken, boxed};
use plan_core::{Arena, Names, Node, Schema};
use plan_expr::AExpr;
use plan_ir::IR;
use plan_prune_joins::join;
use plan_prune_names::{KnownColumns, descend};
use plan_prune_parts::cover;
use plan_prune_parts::cover::cover;
use plan_prune_steps::{select, step};
use plan_pruned::copied_names;
use std::alloc::{AllocError, Global};

/// Puts a node without inputs at `node`, under a projection where there are columns and projections go on top. Refuses for want of
/// memory alone, and then nothing is known of what stands at `node`.
#[inline(never)]
fn put_leaf(
    node: Node,
    entry: Box<IR>,
    on_top: bool,
    columns: Option<Schema>,
    lp: &mut Arena<IR>,
) -> Result<(), AllocError>
    requires { node.0 < length lp.old }
    ensures placed { OnOk result (lp.new ≡ with_columns_on (top_columns on_top columns) lp.old node entry.value) }
    ensures grows { length lp.old ≤ length lp.new }
{
    let entry = Box::into_inner(entry);
    if on_top {
        return cover::put(node, entry, columns, lp);
    }
    lp.put(node, entry);
    Ok(())
}

/// Puts a node back at `node`, once its input is pruned. It is told whether names are asked of it. Refuses for want of memory alone,
/// and then nothing is known of what stands at `node`.
#[inline(never)]
fn put(
    alloc: Global,
    node: Node,
    entry: Box<IR>,
    is_asked: bool,
    lp: &mut Arena<IR>,
) -> Result<(), AllocError>
    requires node { node.0 < length lp.old }
    requires inputs { (t : Trees IRType) × StandsOnce plan_shape lp.old (inputs_of entry.value) t }
    ensures placed { OnOk result ((ex : List AExprType) → lp.new ≡ put_back is_asked lp.old ex node entry.value) }
    ensures grows { length lp.old ≤ length lp.new }
{
    step::put(alloc, node, Box::into_inner(entry), is_asked, lp)
}

/// Puts a node below which all stays at `node`, under a projection where there are columns. Refuses for want of memory alone, and
/// then nothing is known of what stands at `node`.
#[inline(never)]
fn put_closed(
    node: Node,
    entry: Box<IR>,
    columns: Option<Schema>,
    lp: &mut Arena<IR>,
) -> Result<(), AllocError>
    requires { node.0 < length lp.old }
    ensures placed { OnOk result (lp.new ≡ with_columns_on columns lp.old node entry.value) }
    ensures grows { length lp.old ≤ length lp.new }
{
    cover::put(node, Box::into_inner(entry), columns, lp)
}

/// Puts a node back at `node`, once each of its inputs is pruned, by what was kept of it. It is told whether names are asked of it.
/// Expressions are only added. Refuses for want of memory alone, and then nothing is known of what stands at `node`.
#[inline(never)]
fn put_over(
    alloc: Global,
    node: Node,
    rest: Box<Rest>,
    is_asked: bool,
    lp: &mut Arena<IR>,
    ex: &mut Arena<AExpr>,
) -> Result<(), AllocError>
    requires kind { (k : KeptType) → rest.value.kept ≡ Some k → IsTrue (is_join rest.value.entry) }
    requires node { node.0 < length lp.old }
    requires exprs { StandExprs ex.old (roots_of rest.value.entry) }
    requires inputs { (t : Trees IRType) × StandsOnce plan_shape lp.old (inputs_of rest.value.entry) t }
    ensures placed { OnOk result (IsPutBack is_asked rest.value.kept lp.old lp.new ex.old ex.new node rest.value.entry) }
    ensures grows { length lp.old ≤ length lp.new }
    ensures longer { IsLonger ex.old ex.new }
{
    let Rest { kept, entry } = Box::into_inner(rest);
    step::put_over(alloc, node, entry, kept, is_asked, lp, ex)
}

/// Puts a node back at `node` whose inputs could not be pruned, and refuses as they did.
#[inline(never)]
fn given_back(
    node: Node,
    entry: Box<IR>,
    refused: AllocError,
    lp: &mut Arena<IR>,
) -> Result<(), AllocError>
    requires { node.0 < length lp.old }
    ensures refused { result ≡ Err refused }
    ensures back { lp.new ≡ slice_set lp.old node.0 entry.value }
    ensures grows { length lp.old ≤ length lp.new }
{
    lp.put(node, Box::into_inner(entry));
    Err(refused)
}

/// The same of a node with several inputs.
#[inline(never)]
fn rest_given_back(
    node: Node,
    rest: Box<Rest>,
    refused: AllocError,
    lp: &mut Arena<IR>,
) -> Result<(), AllocError>
    requires { node.0 < length lp.old }
    ensures refused { result ≡ Err refused }
    ensures back { lp.new ≡ slice_set lp.old node.0 rest.value.entry }
    ensures grows { length lp.old ≤ length lp.new }
{
    let Rest { entry, .. } = Box::into_inner(rest);
    lp.put(node, entry);
    Err(refused)
}

/// Prunes plans to the columns that they need.
#[derive(Drop)]
pub struct ProjectionPushDown {
    /// Whether a selection of the number of rows alone was met. A narrowed scan then goes without a projection on top.
    pub is_count_star: bool,
}

impl ProjectionPushDown {
    /// A pass that has met no count of rows.
    pub fn new() -> Self
        ensures { result.is_count_star ≡ false }
    {
        ProjectionPushDown {
            is_count_star: false,
        }
    }

    /// Prunes the plan at `root`, of which every column is asked, and marks whether it counts rows. A projection goes on top of
    /// each narrowed scan, and on none from the first count of rows on; and on top of each cache that is asked names, and each of
    /// several inputs of a union that is. A projection, or a selection where some columns are called otherwise over the pruned
    /// sides, goes on top of each join that is asked names, puts out columns of its right side, and then has other columns than
    /// the asked ones. What is below a cache stays as it is, so that caches of one number stand over alike plans where they did.
    /// The expressions in `ex` stay as they are; others may be added behind them. Then `root` reaches only nodes and expressions
    /// that it reached, or that were added. Refuses for want of memory alone, and then nothing is known of what stands at `root`,
    /// and of the mark only that it isn't set back.
    pub fn optimize(
        &mut self,
        alloc: Global,
        root: Node,
        lp: &mut Arena<IR>,
        ex: &mut Arena<AExpr>,
    ) -> Result<(), AllocError>
        requires { IsPlan lp.old ex.old root }
        ensures pruned { OnOk result (
            bare (plans_at lp.new ex.new (root ∷ []))
            ≡ pruned_all (not self.old.is_count_star) [] (bare (plans_at lp.old ex.old (root ∷ [])))) }
        ensures in_place { OnOk result (PrunesAt (not self.old.is_count_star) [] lp.old lp.new ex.old ex.new root) }
        ensures is_plan { OnOk result (IsPlan lp.new ex.new root) }
        ensures refines { OnOk result (IsValid (plan_at lp.old ex.old root) → Refines (plan_at lp.new ex.new root) (plan_at lp.old ex.old root)) }
        ensures reads { OnOk result (IsValid (plan_at lp.old ex.old root) → ReadWithin (scans (plan_at lp.new ex.new root)) (sites_of (plan_at lp.old ex.old root))) }
        ensures nodes { OnOk result (IsValid (plan_at lp.old ex.old root) → nodes (plan_at lp.new ex.new root) ≤ nodes (plan_at lp.old ex.old root) + tops (plan_at lp.old ex.old root) all) }
        ensures work { OnOk result (IsValid (plan_at lp.old ex.old root) → made (plan_at lp.new ex.new root) ≤ kept (plan_at lp.old ex.old root)) }
        ensures cached { OnOk result (AreShared (plan_at lp.old ex.old root) → AreShared (plan_at lp.new ex.new root)) }
        ensures grows { length lp.old ≤ length lp.new }
        ensures longer { IsLonger ex.old ex.new }
        ensures marks { OnOk result (self.new.is_count_star ≡ (self.old.is_count_star || meets_count (plan_at lp.old ex.old root))) }
        ensures stays { self.old.is_count_star ≡ true → self.new.is_count_star ≡ true }
    {
        let asked = Names::new(alloc);
        let mut columns = KnownColumns::new(alloc);
        self.push_down(alloc, root, asked, lp, ex, &mut columns)?;
        Ok(())
    }

    /// Takes what stands at `node` and is asked these names, and marks whether it counts rows: what is to be done at it. What is known
    /// of its columns becomes what is known of those of its first input. Refuses for want of memory alone.
    #[inline(never)]
    fn take(
        &mut self,
        alloc: Global,
        node: Node,
        asked: Names,
        lp: &mut Arena<IR>,
        ex: &Arena<AExpr>,
        columns: &mut KnownColumns,
    ) -> Result<Taken, AllocError>
        requires plan { IsPlan lp.old ex.now node }
        requires known { KnowsAt columns.old lp.old (node ∷ []) }
        ensures known { OnOk result ((p : IRType) → slice_get lp.old node.0 ≡ Some p → KnowsAt columns.new lp.new (inputs_of p)) }
        ensures taken { IfOk result (λ taken. IsTaken self.old.is_count_star self.new.is_count_star lp.old lp.new ex.now asked node (step_told taken)) }
        ensures stays { self.old.is_count_star ≡ true → self.new.is_count_star ≡ true }
        ensures grows { length lp.old ≤ length lp.new }
    {
        descend(lp.get(node), columns)?;
        let entry = lp.take(node);
        if select::is_count(&entry, ex) {
            self.is_count_star = true;
        }
        let kept = join::keep(alloc, &entry, &asked, lp, ex)?;
        let step = step::prepare(alloc, entry, asked, &kept, lp, ex, columns)?;
        boxed(alloc, step.keeping(kept))
    }

    /// Prunes the plan at `node` to the asked names, by what is known of its columns, and marks whether it counts rows; no names stand
    /// for every column. Then nothing is known of the columns.
    #[cycle(push)]
    fn push_down(
        &mut self,
        alloc: Global,
        node: Node,
        asked: Names,
        lp: &mut Arena<IR>,
        ex: &mut Arena<AExpr>,
        columns: &mut KnownColumns,
    ) -> Result<(), AllocError>
        requires plan { IsPlan lp.old ex.old node }
        requires known { KnowsAt columns.old lp.old (node ∷ []) }
        ensures prunes { OnOk result (PrunesAt (not self.old.is_count_star) asked lp.old lp.new ex.old ex.new node) }
        ensures marks { OnOk result (MarksAt self.old.is_count_star self.new.is_count_star lp.old ex.old node) }
        ensures stays { self.old.is_count_star ≡ true → self.new.is_count_star ≡ true }
        ensures grows { length lp.old ≤ length lp.new }
        ensures longer { IsLonger ex.old ex.new }
    {
        let is_asked = asked.len() > 0;
        let on_top = !self.is_count_star;
        match self.take(alloc, node, asked, lp, ex, columns)? {
            Taken::Leaf { columns, entry } => put_leaf(node, entry, on_top, columns, lp),
            Taken::Over {
                input,
                asked,
                entry,
            } => {
                match self.push_down(alloc, input, asked, lp, ex, columns) {
                    Ok(()) => put(alloc, node, entry, is_asked, lp),
                    Err(refused) => given_back(node, entry, refused, lp),
                }
            }
            Taken::Closed { columns, entry } => put_closed(node, entry, columns, lp),
            Taken::Each {
                inputs,
                asked,
                covered,
                rest,
            } => {
                let (own, lists) = (inputs.as_slice(), asked.as_slice());
                match self.push_inputs(alloc, own, lists, &covered, lp, ex, columns) {
                    Ok(()) => put_over(alloc, node, rest, is_asked, lp, ex),
                    Err(refused) => rest_given_back(node, rest, refused, lp),
                }
            }
        }
    }

    /// Prunes the plans at `inputs`, each to a list of names of its own, the first by what is known of its columns, and marks whether
    /// they count rows; no names stand for every column. A projection to the names that cover them goes on top of each, where there
    /// are such.
    #[cycle(push)]
    #[inline(never)]
    fn push_inputs(
        &mut self,
        alloc: Global,
        inputs: &[Node],
        lists: &[Names],
        covered: &Option<Names>,
        lp: &mut Arena<IR>,
        ex: &mut Arena<AExpr>,
        columns: &mut KnownColumns,
    ) -> Result<(), AllocError>
        requires inputs { AreInputs lp.old ex.old inputs.now }
        requires lists { length lists.now ≡ length inputs.now }
        requires known { KnowsAt columns.old lp.old inputs.now }
        ensures pruned { OnOk result (InputsPruned self.old.is_count_star self.new.is_count_star covered.now lists.now lp.old lp.new ex.old ex.new inputs.now) }
        ensures stays { self.old.is_count_star ≡ true → self.new.is_count_star ≡ true }
        ensures grows { length lp.old ≤ length lp.new }
        ensures longer { IsLonger ex.old ex.new }
    {
        for (input, names) in inputs.iter().zip(lists) {
            self.push_input(alloc, *input, names, covered, lp, ex, columns)?;
            columns.forget();
        }
        Ok(())
    }

    /// Prunes the plan at `input` to the asked names, by what is known of its columns, and marks whether it counts rows; no names stand
    /// for every column. Then a projection to the names that cover it goes on top, where there are such.
    #[cycle(push)]
    #[inline(never)]
    fn push_input(
        &mut self,
        alloc: Global,
        input: Node,
        asked: &Names,
        covered: &Option<Names>,
        lp: &mut Arena<IR>,
        ex: &mut Arena<AExpr>,
        columns: &mut KnownColumns,
    ) -> Result<(), AllocError>
        requires plan { IsPlan lp.old ex.old input }
        requires known { KnowsAt columns.old lp.old (input ∷ []) }
        ensures prunes { OnOk result (PrunesUnder (not self.old.is_count_star) covered.now asked.now lp.old lp.new ex.old ex.new input) }
        ensures marks { OnOk result (MarksAt self.old.is_count_star self.new.is_count_star lp.old ex.old input) }
        ensures stays { self.old.is_count_star ≡ true → self.new.is_count_star ≡ true }
        ensures grows { length lp.old ≤ length lp.new }
        ensures longer { IsLonger ex.old ex.new }
    {
        self.push_down(alloc, input, copied_names(alloc, asked)?, lp, ex, columns)?;
        match covered {
            Some(names) => cover(alloc, input, names, lp),
            None => Ok(()),
        }
    }
}
