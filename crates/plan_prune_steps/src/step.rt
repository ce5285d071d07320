//! What pruning does at a node before its input is pruned, and after: each node kind has its own rule, and these two find it.
ghost use Rattle.std.specs.Prelude.{◌≡◌, ◌<◌, ◌≤◌, ℕ, false, List, IfOk, IsTrue, OnOk, Some, length, slice_get};
ghost use Rattle.plan_core.specs.declared.arena.Node.{Node as NodeType};
ghost use Rattle.plan_tree.specs.Stands.{Trees, StandsOnce};
ghost use Rattle.plan_expr.specs.declared.aexpr.AExpr.{AExpr};
ghost use Rattle.plan_ir.specs.declared.ir.IR.{IR};
ghost use Rattle.plan_ir.specs.Parts.{IsPlan, inputs_of, is_join, is_over_one as over_one, plan_shape, roots_of};
ghost use Rattle.plan_pruned.specs.Renamed.{IsLonger};
ghost use Rattle.plan_prune_parts.specs.declared.kept.Kept.{Kept as KeptType};
ghost use Rattle.plan_prune_joins.specs.Joined.{IsKept};
ghost use Rattle.plan_prune_names.specs.Known.{KnowsAt};
ghost use Rattle.plan_prune_steps.specs.Steps.{IsPutBack, has_exprs, put_back, step_of};
ghost use Rattle.plan_prune_parts.specs.Places.{StandExprs};

use crate::{
    cache, distinct, filter, frame_scan, function, group_by, hconcat, hstack, projection, scan,
    select, sink, slice, sort, union,
};
use plan_core::{Arena, Names, Node};
use plan_expr::AExpr;
use plan_ir::IR;
use plan_prune_joins::join;
use plan_prune_names::KnownColumns;
use plan_prune_parts::{Kept, Step};
use std::alloc::{AllocError, Global};

/// Whether a node without expressions stands over one input.
fn is_over_one(entry: &IR) -> bool
    ensures { result ≡ over_one entry.now }
{
    matches!(
        entry,
        IR::Slice { .. }
            | IR::SimpleProjection { .. }
            | IR::Distinct { .. }
            | IR::MapFunction { .. }
            | IR::Sink { .. }
            | IR::Cache { .. }
    )
}

/// Whether a node has expressions, and inputs that these read.
fn reads_inputs(entry: &IR) -> bool
    ensures { result ≡ has_exprs entry.now }
{
    matches!(
        entry,
        IR::Filter { .. }
            | IR::Select { .. }
            | IR::HStack { .. }
            | IR::Sort { .. }
            | IR::GroupBy { .. }
            | IR::Join { .. }
    )
}

/// The step of a node without expressions over one input, by what is known of the columns of that.
fn prepare_over_one(
    alloc: Global,
    entry: IR,
    asked: Names,
    lp: &Arena<IR>,
    columns: &mut KnownColumns,
) -> Result<Step, AllocError>
    requires kind { IsTrue (over_one entry) }
    requires inputs { (t : Trees IR) × StandsOnce plan_shape lp.now (inputs_of entry) t }
    requires known { KnowsAt columns.old lp.now (inputs_of entry) }
    ensures known { OnOk result (KnowsAt columns.new lp.now (inputs_of entry)) }
    ensures step { IfOk result (λ step. (ex : List AExpr) → step ≡ step_of lp.now ex asked entry) }
{
    match entry {
        IR::Slice { input, offset, len } => Ok(slice::prepare(input, offset, len, asked)),
        IR::SimpleProjection {
            input,
            columns: schema,
        } => {
            let step = projection::prepare(alloc, input, schema, &asked);
            drop(asked);
            step
        }
        IR::Distinct { input, options } => {
            distinct::prepare(alloc, input, options, asked, lp, columns)
        }
        IR::MapFunction { input, function } => {
            function::prepare(alloc, input, function, asked, lp, columns)
        }
        IR::Sink { input, payload } => Ok(sink::prepare(input, payload, asked)),
        cache @ IR::Cache { .. } => {
            let step = cache::prepare(alloc, cache, &asked, lp);
            drop(asked);
            step
        }
        _ => unreachable!(),
    }
}

/// The step of a node with expressions that read its inputs.
fn prepare_exprs(
    alloc: Global,
    entry: IR,
    asked: Names,
    kept: &Option<Kept>,
    lp: &Arena<IR>,
    ex: &Arena<AExpr>,
) -> Result<Step, AllocError>
    requires kind { IsTrue (has_exprs entry) }
    requires kept { IsKept lp.now ex.now asked entry kept.now }
    requires exprs { StandExprs ex.now (roots_of entry) }
    requires inputs { (t : Trees IR) × StandsOnce plan_shape lp.now (inputs_of entry) t }
    requires plans { (j : ℕ) (i : NodeType) → slice_get (inputs_of entry) j ≡ Some i → IsPlan lp.now ex.now i }
    ensures { IfOk result (λ step. step ≡ step_of lp.now ex.now asked entry) }
{
    match entry {
        IR::Filter { input, predicate } => filter::prepare(input, predicate, asked, ex),
        selection @ IR::Select { .. } => {
            let step = select::prepare(alloc, selection, &asked, lp, ex);
            drop(asked);
            step
        }
        addition @ IR::HStack { .. } => hstack::prepare(alloc, addition, asked, lp, ex),
        sort @ IR::Sort { .. } => sort::prepare(sort, asked, ex),
        grouping @ IR::GroupBy { .. } => {
            let step = group_by::prepare(alloc, grouping, &asked, lp, ex);
            drop(asked);
            step
        }
        join @ IR::Join { .. } => {
            let step = join::prepare(alloc, join, &asked, kept, lp, ex);
            drop(asked);
            step
        }
        _ => unreachable!(),
    }
}

/// The step of a node over no inputs, or over as many as it names.
fn prepare_other(alloc: Global, entry: IR, asked: Names, lp: &Arena<IR>) -> Result<Step, AllocError>
    requires not_over_one { over_one entry ≡ false }
    requires without_exprs { has_exprs entry ≡ false }
    requires inputs { (t : Trees IR) × StandsOnce plan_shape lp.now (inputs_of entry) t }
    ensures { IfOk result (λ step. (ex : List AExpr) → step ≡ step_of lp.now ex asked entry) }
{
    match entry {
        scan @ IR::Scan { .. } => {
            let step = scan::prepare(alloc, scan, &asked);
            drop(asked);
            step
        }
        scan @ IR::DataFrameScan { .. } => {
            let step = frame_scan::prepare(alloc, scan, &asked);
            drop(asked);
            step
        }
        IR::Union { inputs, options } => union::prepare(alloc, inputs, options, asked),
        concatenation @ IR::HConcat { .. } => {
            let step = hconcat::prepare(alloc, concatenation, &asked, lp);
            drop(asked);
            step
        }
        IR::Invalid => {
            drop(asked);
            Ok(Step::Leaf {
                columns: None,
                entry: IR::Invalid,
            })
        }
        _ => unreachable!(),
    }
}

/// The step of a node that was taken and is asked these names, by what is kept of it, which the step doesn't have yet, and by what is
/// known of the columns of its first input; no names stand for every column. Refuses for want of memory alone.
pub fn prepare(
    alloc: Global,
    entry: IR,
    asked: Names,
    kept: &Option<Kept>,
    lp: &Arena<IR>,
    ex: &Arena<AExpr>,
    columns: &mut KnownColumns,
) -> Result<Step, AllocError>
    requires kept { IsKept lp.now ex.now asked entry kept.now }
    requires exprs { StandExprs ex.now (roots_of entry) }
    requires inputs { (t : Trees IR) × StandsOnce plan_shape lp.now (inputs_of entry) t }
    requires plans { (j : ℕ) (i : NodeType) → slice_get (inputs_of entry) j ≡ Some i → IsPlan lp.now ex.now i }
    requires known { KnowsAt columns.old lp.now (inputs_of entry) }
    ensures known { OnOk result (KnowsAt columns.new lp.now (inputs_of entry)) }
    ensures step { IfOk result (λ step. step ≡ step_of lp.now ex.now asked entry) }
{
    if is_over_one(&entry) {
        return prepare_over_one(alloc, entry, asked, lp, columns);
    }
    if reads_inputs(&entry) {
        return prepare_exprs(alloc, entry, asked, kept, lp, ex);
    }
    prepare_other(alloc, entry, asked, lp)
}

/// Puts a node back at its number, once its inputs are pruned. It is told whether names are asked of it. Refuses for want of memory
/// alone, and then nothing is known of what stands at the number.
pub fn put(
    alloc: Global,
    node: Node,
    entry: IR,
    is_asked: bool,
    lp: &mut Arena<IR>,
) -> Result<(), AllocError>
    requires node { node.0 < length lp.old }
    requires inputs { (t : Trees IR) × StandsOnce plan_shape lp.old (inputs_of entry) t }
    ensures placed { OnOk result ((ex : List AExpr) → lp.new ≡ put_back is_asked lp.old ex node entry) }
    ensures grows { length lp.old ≤ length lp.new }
{
    match entry {
        IR::HStack {
            input,
            exprs,
            schema,
            options,
        } => hstack::put(alloc, node, input, is_asked, exprs, schema, options, lp),
        IR::HConcat {
            inputs,
            schema,
            options,
        } => hconcat::put(alloc, node, inputs, is_asked, schema, options, lp),
        other => {
            lp.put(node, other);
            Ok(())
        }
    }
}

/// Puts a node back at its number, once each of its inputs is pruned; a join that was asked names so that it puts out these, by what
/// was kept of it. Expressions are only added. Refuses for want of memory alone, and then nothing is known of what stands at the number.
pub fn put_over(
    alloc: Global,
    node: Node,
    entry: IR,
    kept: Option<Kept>,
    is_asked: bool,
    lp: &mut Arena<IR>,
    ex: &mut Arena<AExpr>,
) -> Result<(), AllocError>
    requires kind { (k : KeptType) → kept ≡ Some k → IsTrue (is_join entry) }
    requires node { node.0 < length lp.old }
    requires exprs { StandExprs ex.old (roots_of entry) }
    requires inputs { (t : Trees IR) × StandsOnce plan_shape lp.old (inputs_of entry) t }
    ensures placed { OnOk result (IsPutBack is_asked kept lp.old lp.new ex.old ex.new node entry) }
    ensures grows { length lp.old ≤ length lp.new }
    ensures longer { IsLonger ex.old ex.new }
{
    match kept {
        Some(kept) => join::put(alloc, node, entry, kept, lp, ex),
        None => put(alloc, node, entry, is_asked, lp),
    }
}
