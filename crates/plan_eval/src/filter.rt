//! A filter gives the rows for which its predicate is true.
ghost use Rattle.std.specs.Prelude.{◌≡◌, List, [], ◌∷◌, IfOk, unwrap_or};
ghost use Rattle.std.specs.List.{range_with_len};
ghost use Rattle.plan_expr.specs.Operands.{IsExpr};
ghost use Rattle.plan_expr.specs.Exprs.{named_at};
ghost use Rattle.plan_ir.specs.Plans.{filter as filter_op};
ghost use Rattle.plan_frame.specs.Frames.{rows_at as rows_of};
ghost use Rattle.plan_frame.specs.Rows.{true_rows as true_rows_of};
ghost use Rattle.plan_table.specs.declared.source_key.SourceKey.{SourceKey};
ghost use Rattle.plan_table.specs.declared.table.Table.{Table as TableType};
ghost use Rattle.plan_table.specs.Tables.{HasRows};
ghost use Rattle.plan_function_tables.specs.Given.{Gives};
ghost use Rattle.plan_value.specs.Cells.{cell_of};
ghost use Rattle.plan_value.specs.Shown.{frame_of, schema_of};

use crate::picked::picked;
use plan_core::{Arena, Items};
use plan_expr::{AExpr, ExprIR};
use plan_table::Table;
use plan_value::{Values, evaluate_expr, is_true_at};
use std::alloc::{AllocError, Global};

/// The numbers of the rows in which a value is true, of so many rows.
fn true_rows(alloc: Global, values: &Values, height: usize) -> Result<Items<usize>, AllocError>
    ensures { IfOk result (λ rows. rows ≡ true_rows_of (cell_of values.now) height) }
{
    let mut rows = Items::new(alloc);
    for row in 0..height {
        if is_true_at(values, row) {
            rows.push(row)?;
        }
    }
    Ok(rows)
}

/// The numbers of the rows in which a value is true, of so many rows; None where one value is true in all.
fn rows_where(
    alloc: Global,
    values: &Values,
    height: usize,
) -> Result<Option<Items<usize>>, AllocError>
    ensures { IfOk result (λ rows. unwrap_or rows (range_with_len 0 height) ≡ true_rows_of (cell_of values.now) height) }
{
    match values {
        Values::One(_) => {
            if is_true_at(values, 0) {
                Ok(None)
            } else {
                Ok(Some(Items::new(alloc)))
            }
        }
        Values::Many(_) => Ok(Some(true_rows(alloc, values, height)?)),
    }
}

/// These rows of a table; all where none are told.
fn rows_or_all(alloc: Global, table: Table, rows: Option<Items<usize>>) -> Result<Table, AllocError>
    requires { HasRows table }
    ensures frame { IfOk result (λ t. frame_of t ≡ rows_of (unwrap_or rows (range_with_len 0 table.height)) (frame_of table)) }
    ensures types { IfOk result (λ t. schema_of t ≡ schema_of table) }
{
    match rows {
        None => Ok(table),
        Some(rows) => Ok(picked(alloc, table, rows.as_slice())?),
    }
}

/// The table of the filter: its input where that are all rows.
pub fn filter(
    alloc: Global,
    table: Table,
    predicate: &ExprIR,
    ex: &Arena<AExpr>,
) -> Result<Table, AllocError>
    requires stands { IsExpr ex.now predicate.now.node }
    requires rows { HasRows table }
    ensures { (ts : List (SourceKey × TableType)) → IfOk result (Gives ts (filter_op (named_at ex.now predicate.now)) (table ∷ [])) }
{
    let values = evaluate_expr(alloc, predicate.node, ex, &table)?;
    let rows = rows_where(alloc, &values, table.height)?;
    drop(values);
    Ok(rows_or_all(alloc, table, rows)?)
}
