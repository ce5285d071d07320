//! The schema of a plan, or its first fault.
ghost use Rattle.std.specs.Prelude.{◌≡◌, ◌||◌, true, [], ◌∷◌, All, IfOk, IsTrue, None, length};
ghost use Rattle.plan_expr.specs.Operands.{IsExpr};
ghost use Rattle.plan_ir.specs.Parts.{exprs_of, inputs_of, is_group_by, is_join, is_sort, IsPlan};
ghost use Rattle.plan_ir.specs.Plans.{op_at, plans_at};
ghost use Rattle.plan_ir.specs.Reads.{is_scan};
ghost use Rattle.plan_meaning.specs.PlanAt.{plan_at};
ghost use Rattle.plan_meaning.specs.Steps.{IsValid};
ghost use Rattle.plan_meaning.specs.TreeFaults.{tree_fault};
ghost use Rattle.plan_meaning.specs.Typed.{typed, IsNodeTyped, IsPlanTyped, IsTyped};

use crate::distinct::distinct_schema;
use crate::filter::filter_schema;
use crate::frame_scan::frame_scan_schema;
use crate::group_by::group_by_schema;
use crate::hconcat::hconcat_schema;
use crate::made::{hstack_schema, select_schema};
use crate::mapped::mapped_schema;
use crate::projection::projection_schema;
use crate::scan::scan_schema;
use crate::sort::sort_schema;
use crate::tree::check_tree;
use crate::union::union_schema;
use plan_check_parts::joined_schema;
use plan_core::{Arena, Items, Node, PolarsError, PolarsResult, Schema};
use plan_expr::AExpr;
use plan_ir::IR;
use plan_schema::at;
use plan_tree::Entry;
use std::alloc::Global;

/// The columns of the one input.
fn only(mut schemas: Items<Schema>) -> Schema
    requires { length schemas ≡ 1 }
    ensures { schemas ≡ result ∷ [] }
{
    match schemas.pop() {
        Some(schema) => schema,
        None => unreachable!(),
    }
}

/// The columns of a scan, of files or of a frame, or its first fault.
fn source_schema(alloc: Global, node: Node, entry: &IR, ex: &Arena<AExpr>) -> PolarsResult<Schema>
    requires { is_scan entry.now ≡ true }
    ensures { IsNodeTyped result node (op_at ex.now entry.now) [] }
{
    match entry {
        IR::Scan {
            sources,
            file_info,
            hive_parts,
            predicate,
            output_schema,
            file_options,
            ..
        } => scan_schema(
            alloc,
            node,
            sources,
            predicate,
            output_schema,
            file_info,
            hive_parts,
            file_options,
            ex,
        ),
        IR::DataFrameScan {
            df,
            schema,
            output_schema,
        } => frame_scan_schema(alloc, node, *df, schema, output_schema),
        _ => unreachable!(),
    }
}

/// The columns of a sort or of a grouping over those of its input, or its first fault.
fn keyed_schema(
    alloc: Global,
    node: Node,
    entry: &IR,
    ex: &Arena<AExpr>,
    schema: Schema,
) -> PolarsResult<Schema>
    requires kind { IsTrue (is_sort entry.now || is_group_by entry.now) }
    requires exprs { All (λ e. IsExpr ex.now e.node) (exprs_of entry.now) }
    ensures { IsNodeTyped result node (op_at ex.now entry.now) (schema ∷ []) }
{
    match entry {
        IR::Sort {
            by_column,
            slice,
            sort_options,
            ..
        } => sort_schema(node, by_column.as_slice(), slice, sort_options, ex, schema),
        IR::GroupBy {
            keys,
            aggs,
            schema: stored,
            options,
            ..
        } => group_by_schema(
            alloc,
            node,
            keys.as_slice(),
            aggs.as_slice(),
            stored,
            options,
            ex,
            &schema,
        ),
        _ => unreachable!(),
    }
}

/// The columns of a join over those of its two inputs, or its first fault.
fn paired_schema(
    alloc: Global,
    node: Node,
    entry: &IR,
    ex: &Arena<AExpr>,
    schemas: &[Schema],
) -> PolarsResult<Schema>
    requires kind { is_join entry.now ≡ true }
    requires exprs { All (λ e. IsExpr ex.now e.node) (exprs_of entry.now) }
    requires inputs { length schemas.now ≡ 2 }
    ensures { IsNodeTyped result node (op_at ex.now entry.now) schemas.now }
{
    match (entry, schemas) {
        (
            IR::Join {
                schema,
                left_on,
                right_on,
                options,
                ..
            },
            [left, right],
        ) => joined_schema(
            alloc,
            node,
            left_on.as_slice(),
            right_on.as_slice(),
            schema,
            options,
            ex,
            left,
            right,
        ),
        _ => unreachable!(),
    }
}

/// The columns of a node over those of its inputs, in order, or its first fault.
fn node_schema(
    alloc: Global,
    node: Node,
    entry: &IR,
    ex: &Arena<AExpr>,
    schemas: Items<Schema>,
) -> PolarsResult<Schema>
    requires exprs { All (λ e. IsExpr ex.now e.node) (exprs_of entry.now) }
    requires inputs { length schemas ≡ length (inputs_of entry.now) }
    ensures { IsNodeTyped result node (op_at ex.now entry.now) schemas }
{
    match entry {
        IR::Slice { .. } | IR::Sink { .. } | IR::Cache { .. } => Ok(only(schemas)),
        IR::Filter { predicate, .. } => filter_schema(node, predicate, ex, only(schemas)),
        IR::Scan { .. } | IR::DataFrameScan { .. } => source_schema(alloc, node, entry, ex),
        IR::SimpleProjection { columns, .. } => {
            projection_schema(alloc, node, columns, &only(schemas))
        }
        IR::Select { expr, schema, .. } => {
            select_schema(alloc, node, expr.as_slice(), schema, ex, &only(schemas))
        }
        IR::HStack { exprs, schema, .. } => {
            hstack_schema(alloc, node, exprs.as_slice(), schema, ex, &only(schemas))
        }
        IR::Sort { .. } | IR::GroupBy { .. } => keyed_schema(alloc, node, entry, ex, only(schemas)),
        IR::Join { .. } => paired_schema(alloc, node, entry, ex, schemas.as_slice()),
        IR::Distinct { options, .. } => distinct_schema(node, options, only(schemas)),
        IR::MapFunction { function, .. } => mapped_schema(alloc, node, function, only(schemas)),
        IR::Union { options, .. } => union_schema(node, options, schemas),
        IR::HConcat { schema, .. } => hconcat_schema(alloc, node, schema, schemas.as_slice()),
        IR::Invalid => Err(PolarsError::ComputeError(at(node, 0))),
    }
}

/// The columns of the plan at a number, or the first fault among its nodes, inputs before the node.
fn schema_of(alloc: Global, node: Node, lp: &Arena<IR>, ex: &Arena<AExpr>) -> PolarsResult<Schema>
    requires { IsPlan lp.now ex.now node }
    ensures { IsPlanTyped result (plans_at lp.now ex.now (node ∷ [])) }
{
    let entry = lp.get(node);
    let mut inputs = Items::new(alloc);
    entry.copy_inputs(&mut inputs)?;
    let mut schemas = Items::new(alloc);
    for input in inputs.as_slice() {
        schemas.push(schema_of(alloc, *input, lp, ex)?)?;
    }
    node_schema(alloc, node, entry, ex, schemas)
}

/// The columns of the plan that stands at `root`, or the first fault of its nodes, inputs before the node.
pub fn check_nodes(
    alloc: Global,
    root: Node,
    lp: &Arena<IR>,
    ex: &Arena<AExpr>,
) -> PolarsResult<Schema>
    requires stands { IsPlan lp.now ex.now root }
    requires numbers { tree_fault lp.now ex.now root ≡ None }
    ensures typed { IsTyped result (typed lp.now ex.now root) }
    ensures valid { IfOk result (λ _. IsValid (plan_at lp.now ex.now root)) }
{
    Ok(schema_of(alloc, root, lp, ex)?)
}

/// The columns of the plan at `root`, or its first fault: bad numbers in walk order, and then the faults of its nodes,
/// inputs before the node.
pub fn check_plan(
    alloc: Global,
    root: Node,
    lp: &Arena<IR>,
    ex: &Arena<AExpr>,
) -> PolarsResult<Schema>
    ensures typed { IsTyped result (typed lp.now ex.now root) }
    ensures stands { IfOk result (λ _. IsPlan lp.now ex.now root) }
    ensures valid { IfOk result (λ _. IsValid (plan_at lp.now ex.now root)) }
{
    check_tree(alloc, root, lp, ex)?;
    check_nodes(alloc, root, lp, ex)
}
