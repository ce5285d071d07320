//! A grouping gives a row for each group of rows that have the same keys, in the order of their first rows: the keys, and what
//! each aggregate is over the rows of the group.
ghost use Rattle.std.specs.Prelude.{◌≡◌, Bool, List, [], ◌∷◌, All, IfOk, is_some, length, map, true};
ghost use Rattle.plan_core.specs.Columns.{type_of, with_types};
ghost use Rattle.plan_expr.specs.Exprs.{all_named_at};
ghost use Rattle.plan_expr.specs.Naming.{name_of};
ghost use Rattle.plan_expr.specs.Operands.{IsExpr};
ghost use Rattle.plan_ir.specs.Plans.{group_by as group_by_op};
ghost use Rattle.plan_frame.specs.Frames.{with_columns};
ghost use Rattle.plan_frame.specs.Grouping.{group_exprs};
ghost use Rattle.plan_frame.specs.Meaning.{value_at as value_of_row};
ghost use Rattle.plan_meaning.specs.Typing.{AllHold, made_checks};
ghost use Rattle.plan_options.specs.declared.group.GroupbyOptions.{GroupbyOptions};
ghost use Rattle.plan_table.specs.declared.source_key.SourceKey.{SourceKey};
ghost use Rattle.plan_table.specs.declared.table.Table.{Table as TableType};
ghost use Rattle.plan_table.specs.Tables.{types_of};
ghost use Rattle.plan_function_tables.specs.Given.{Gives, stored_column};
ghost use Rattle.plan_eval.specs.Groups.{columns_in, group_column};
ghost use Rattle.plan_value.specs.Cells.{cell_of, cells_of};
ghost use Rattle.plan_value.specs.Shown.{columns_shown, frame_of, schema_of, values_of};

use crate::distinct::kept_rows;
use crate::made::named_column;
use plan_core::{Arena, Items, Schema};
use plan_expr::{AExpr, ExprIR};
use plan_options::UniqueKeepStrategy;
use plan_table::{AnyValue, Columns, Table};
use plan_value::{Values, evaluate_groups, grouped, key_values, rows_of_groups, value_at};
use std::alloc::{AllocError, Global};

/// The values in these rows, in this order.
fn values_in(alloc: Global, values: &Values, rows: &[usize]) -> Result<Items<AnyValue>, AllocError>
    ensures { IfOk result (λ vs. values_of vs ≡ map (value_of_row (cell_of values.now)) rows.now) }
{
    let mut own = Items::new(alloc);
    for row in rows {
        own.push(value_at(alloc, values, *row)?)?;
    }
    Ok(own)
}

/// The columns of keys in these rows, from the values of each key.
fn key_columns(
    alloc: Global,
    keys: &[ExprIR],
    values: &[Values],
    rows: &[usize],
    schema: &Schema,
) -> Result<Columns, AllocError>
    requires each { length values.now ≡ length keys.now }
    requires named { All (λ e. is_some (type_of schema.now (name_of e.output_name)) ≡ true) keys.now }
    ensures shown { IfOk result (λ made. columns_shown made ≡ with_columns [] (columns_in rows.now keys.now (cells_of values.now))) }
    ensures types { IfOk result (λ made. types_of made ≡ with_types [] (map (stored_column schema.now) keys.now)) }
{
    let mut columns = Columns::new(alloc);
    for (key, own) in keys.iter().zip(values) {
        let own = values_in(alloc, own, rows)?;
        columns.with_column(named_column(alloc, key, own, schema)?)?;
    }
    Ok(columns)
}

/// The columns, and those of aggregates over each of several parts of a table: each in the place of the one of its name, or last.
fn with_aggregates(
    alloc: Global,
    base: Columns,
    aggs: &[ExprIR],
    parts: &[Items<usize>],
    schema: &Schema,
    ex: &Arena<AExpr>,
    table: &Table,
) -> Result<Columns, AllocError>
    requires stand { All (λ e. IsExpr ex.now e.node) aggs.now }
    requires named { All (λ e. is_some (type_of schema.now (name_of e.output_name)) ≡ true) aggs.now }
    ensures shown { IfOk result (λ made. columns_shown made ≡ with_columns (columns_shown base) (map (group_column parts.now (frame_of table.now)) (all_named_at ex.now aggs.now))) }
    ensures types { IfOk result (λ made. types_of made ≡ with_types (types_of base) (map (stored_column schema.now) aggs.now)) }
{
    let mut columns = base;
    for agg in aggs {
        let values = evaluate_groups(alloc, agg.node, ex, table, parts)?;
        columns.with_column(named_column(alloc, agg, values, schema)?)?;
    }
    Ok(columns)
}

/// The table of the grouping.
pub fn group_by(
    alloc: Global,
    table: &Table,
    keys: &[ExprIR],
    aggs: &[ExprIR],
    schema: &Schema,
    ex: &Arena<AExpr>,
) -> Result<Table, AllocError>
    requires keys { All (λ e. IsExpr ex.now e.node) keys.now }
    requires aggs { All (λ e. IsExpr ex.now e.node) aggs.now }
    requires valid { AllHold (made_checks [] (group_exprs (all_named_at ex.now keys.now) (all_named_at ex.now aggs.now)) schema.now (schema_of table.now)) }
    ensures { (ts : List (SourceKey × TableType)) (ordered : Bool) (options : GroupbyOptions) → IfOk result (Gives ts (group_by_op (all_named_at ex.now keys.now) (all_named_at ex.now aggs.now) schema.now ordered options) (table.now ∷ [])) }
{
    let values = key_values(alloc, keys, ex, table)?;
    let groups = grouped(alloc, values.as_slice(), table.height)?;
    let parts = rows_of_groups(alloc, &groups)?;
    let parts = parts.as_slice();
    let firsts = kept_rows(alloc, UniqueKeepStrategy::First, parts)?;
    let firsts = firsts.as_slice();
    let columns = key_columns(alloc, keys, values.as_slice(), firsts, schema)?;
    Ok(Table {
        height: firsts.len(),
        columns: with_aggregates(alloc, columns, aggs, parts, schema, ex, table)?,
    })
}
