//! The table that a plan gives over tables of its sources.
ghost use Rattle.std.specs.Prelude.{◌≡◌, List, [], ◌∷◌, All, IfOk, false, length, map, true};
ghost use Rattle.std.specs.List.{AllByRecursion};
ghost use Rattle.plan_expr.specs.declared.aexpr.AExpr.{AExpr as AExprType};
ghost use Rattle.plan_expr.specs.Operands.{IsExpr};
ghost use Rattle.plan_ir.specs.Parts.{IsPlan, exprs_of, inputs_of};
ghost use Rattle.plan_ir.specs.Plans.{bare, op_at, plans_at};
ghost use Rattle.plan_ir.specs.Reads.{is_scan};
ghost use Rattle.plan_meaning.specs.Contents.{Fits, FitsAll};
ghost use Rattle.plan_meaning.specs.PlanAt.{plan_at};
ghost use Rattle.plan_meaning.specs.Steps.{IsValid, May};
ghost use Rattle.plan_meaning.specs.Typing.{AllHold, AllValid, checks, schema};
ghost use Rattle.plan_table.specs.declared.source_key.SourceKey.{SourceKey};
ghost use Rattle.plan_table.specs.declared.table.Table.{Table as TableType};
ghost use Rattle.plan_table.specs.Tables.{HasRows};
ghost use Rattle.plan_meaning.specs.Choices.{Chooses};
ghost use Rattle.plan_function_tables.specs.Given.{GiveAll, Gives, makes_new, names_many, stands_over_sides};
ghost use Rattle.plan_value.specs.Shown.{frame_of, schema_of};
ghost use Rattle.plan_fit.specs.Sources.{contents_of};

use crate::distinct::distinct;
use crate::filter::filter;
use crate::frame_scan::frame_scan;
use crate::group_by::group_by;
use crate::hconcat::hconcat;
use crate::hstack::hstack;
use crate::join::join;
use crate::only::only;
use crate::projection::projection;
use crate::select::select;
use crate::slice::slice;
use crate::sort::sort;
use crate::unchanged::unchanged;
use crate::union::union;
use plan_core::{Arena, Node};
use plan_expr::AExpr;
use plan_fit::inputs::{input_at, input_count};
use plan_function_tables::{mapped, scan};
use plan_ir::IR;
use plan_table::{Table, Tables};
use std::alloc::{AllocError, Global};

/// The table of a node that reads its source.
fn source_table(alloc: Global, node: &IR, tables: &Tables) -> Result<Table, AllocError>
    requires scan { is_scan node.now ≡ true }
    requires valid { (ex : List AExprType) × AllHold (checks (op_at ex node.now) []) }
    ensures { (ex : List AExprType) → IfOk result (Gives tables.now (op_at ex node.now) []) }
{
    match node {
        IR::Scan {
            sources,
            file_info,
            hive_parts,
            output_schema,
            file_options,
            ..
        } => scan(
            alloc,
            sources,
            file_info,
            hive_parts,
            output_schema,
            file_options,
            tables,
        ),
        IR::DataFrameScan {
            df,
            schema,
            output_schema,
        } => frame_scan(alloc, *df, schema, output_schema, tables),
        _ => unreachable!(),
    }
}

/// The table of a node that gives other columns than its only input, over the table of that.
fn new_table(
    alloc: Global,
    node: &IR,
    table: &Table,
    ex: &Arena<AExpr>,
) -> Result<Table, AllocError>
    requires new { makes_new node.now ≡ true }
    requires stand { All (λ e. IsExpr ex.now e.node) (exprs_of node.now) }
    requires valid { AllHold (checks (op_at ex.now node.now) (schema_of table.now ∷ [])) }
    requires rows { HasRows table.now }
    ensures { (ts : List (SourceKey × TableType)) → IfOk result (Gives ts (op_at ex.now node.now) (table.now ∷ [])) }
{
    match node {
        IR::SimpleProjection { columns, .. } => projection(alloc, table, columns),
        IR::Select { expr, schema, .. } => select(alloc, table, expr.as_slice(), schema, ex),
        IR::GroupBy {
            keys,
            aggs,
            schema,
            ..
        } => group_by(alloc, table, keys.as_slice(), aggs.as_slice(), schema, ex),
        _ => unreachable!(),
    }
}

/// The table of a node over the table of its only input.
fn one_input_table(
    alloc: Global,
    node: &IR,
    table: Table,
    ex: &Arena<AExpr>,
    tables: &Tables,
) -> Result<Table, AllocError>
    requires one { length (inputs_of node.now) ≡ 1 }
    requires other { names_many node.now ≡ false }
    requires stand { All (λ e. IsExpr ex.now e.node) (exprs_of node.now) }
    requires valid { AllHold (checks (op_at ex.now node.now) (schema_of table ∷ [])) }
    requires rows { HasRows table }
    ensures { IfOk result (Gives tables.now (op_at ex.now node.now) (table ∷ [])) }
{
    match node {
        IR::Slice { offset, len, .. } => slice(alloc, table, *offset, *len),
        IR::HStack { exprs, schema, .. } => hstack(alloc, table, exprs.as_slice(), schema, ex),
        IR::Filter { predicate, .. } => filter(alloc, table, predicate, ex),
        IR::Sort {
            by_column,
            sort_options,
            ..
        } => sort(alloc, table, by_column.as_slice(), sort_options, ex),
        IR::Distinct { options, .. } => distinct(alloc, table, options),
        IR::MapFunction { function, .. } => mapped(alloc, table, function, tables),
        IR::Sink { .. } | IR::Cache { .. } => unchanged(table),
        IR::SimpleProjection { .. } | IR::Select { .. } | IR::GroupBy { .. } => {
            let made = new_table(alloc, node, &table, ex);
            drop(table);
            made
        }
        IR::Join { .. }
        | IR::Union { .. }
        | IR::HConcat { .. }
        | IR::Scan { .. }
        | IR::DataFrameScan { .. }
        | IR::Invalid => unreachable!(),
    }
}

/// The table of a node over the tables of its inputs, side by side, or over none.
fn table_over(
    alloc: Global,
    node: &IR,
    inputs: &[Table],
    ex: &Arena<AExpr>,
    tables: &Tables,
) -> Result<Table, AllocError>
    requires beside { stands_over_sides node.now ≡ true }
    requires each { length inputs.now ≡ length (inputs_of node.now) }
    requires stand { All (λ e. IsExpr ex.now e.node) (exprs_of node.now) }
    requires valid { AllHold (checks (op_at ex.now node.now) (map schema_of inputs.now)) }
    ensures { IfOk result (Gives tables.now (op_at ex.now node.now) inputs.now) }
{
    match node {
        IR::Scan { .. } | IR::DataFrameScan { .. } => source_table(alloc, node, tables),
        IR::Join {
            left_on,
            right_on,
            options,
            ..
        } => join(
            alloc,
            inputs,
            left_on.as_slice(),
            right_on.as_slice(),
            options,
            ex,
        ),
        _ => unreachable!(),
    }
}

/// The table of a node over the tables of its inputs, in order.
fn node_table(
    alloc: Global,
    node: &IR,
    inputs: Vec<Table>,
    ex: &Arena<AExpr>,
    tables: &Tables,
) -> Result<Table, AllocError>
    requires each { length inputs.items ≡ length (inputs_of node.now) }
    requires stand { All (λ e. IsExpr ex.now e.node) (exprs_of node.now) }
    requires valid { AllHold (checks (op_at ex.now node.now) (map schema_of inputs.items)) }
    requires rows { AllByRecursion HasRows inputs.items }
    ensures { IfOk result (Gives tables.now (op_at ex.now node.now) inputs.items) }
{
    match node {
        IR::Union { .. } => union(alloc, inputs),
        IR::HConcat { .. } => hconcat(alloc, inputs),
        IR::Scan { .. } | IR::DataFrameScan { .. } | IR::Join { .. } => {
            let made = table_over(alloc, node, inputs.as_slice(), ex, tables);
            drop(inputs);
            made
        }
        IR::Slice { .. }
        | IR::Filter { .. }
        | IR::SimpleProjection { .. }
        | IR::Select { .. }
        | IR::HStack { .. }
        | IR::Sort { .. }
        | IR::GroupBy { .. }
        | IR::Distinct { .. }
        | IR::MapFunction { .. }
        | IR::Sink { .. }
        | IR::Cache { .. } => one_input_table(alloc, node, only(inputs), ex, tables),
        IR::Invalid => unreachable!(),
    }
}

/// The table that the plan at a number gives.
fn plan_table(
    alloc: Global,
    node: Node,
    lp: &Arena<IR>,
    ex: &Arena<AExpr>,
    tables: &Tables,
) -> Result<Table, AllocError>
    requires stands { IsPlan lp.now ex.now node }
    requires valid { AllValid (plans_at lp.now ex.now (node ∷ [])) }
    requires fits { FitsAll (contents_of tables.now) (bare (plans_at lp.now ex.now (node ∷ []))) }
    ensures { IfOk result (λ table. GiveAll tables.now (plans_at lp.now ex.now (node ∷ [])) (table ∷ [])) }
{
    let entry = lp.get(node);
    let mut given = Vec::new(alloc);
    for place in 0..input_count(entry) {
        given.push(plan_table(alloc, input_at(entry, place), lp, ex, tables)?)?;
    }
    Ok(node_table(alloc, entry, given, ex, tables)?)
}

/// The table that the plan at `root` gives over tables that fit it, its columns of the plan's types: of the frames that it may
/// give one, which is that of each plan equal to it but for rechunk marks. Rows that stand equal in a sort stand as they do in
/// its input; groups stand by their first rows, and distinct rows whose order is free by those of their groups; of rows that are
/// the same the first is kept where any may be. A union gives the rows of its inputs in turn, and a join its pairs by the left
/// rows first, or by the right ones where those are asked first. Refuses for want of memory alone.
pub fn evaluate(
    alloc: Global,
    root: Node,
    lp: &Arena<IR>,
    ex: &Arena<AExpr>,
    tables: &Tables,
) -> Result<Table, AllocError>
    requires stands { IsPlan lp.now ex.now root }
    requires valid { IsValid (plan_at lp.now ex.now root) }
    requires fits { Fits (contents_of tables.now) (plan_at lp.now ex.now root) }
    ensures may { IfOk result (λ table. May (contents_of tables.now) (plan_at lp.now ex.now root) (frame_of table)) }
    ensures choice { IfOk result (λ table. Chooses (contents_of tables.now) (plan_at lp.now ex.now root) (frame_of table)) }
    ensures types { IfOk result (λ table. schema_of table ≡ schema (plan_at lp.now ex.now root)) }
    ensures rows { IfOk result (λ table. HasRows table) }
{
    Ok(plan_table(alloc, root, lp, ex, tables)?)
}
