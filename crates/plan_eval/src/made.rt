//! The columns that expressions make.
ghost use Rattle.std.specs.Prelude.{◌≡◌, All, IfOk, is_some, map, true};
ghost use Rattle.plan_core.specs.Columns.{type_of, with_types};
ghost use Rattle.plan_expr.specs.Operands.{IsExpr};
ghost use Rattle.plan_expr.specs.Exprs.{all_named_at, expr_at};
ghost use Rattle.plan_expr.specs.Naming.{name_of};
ghost use Rattle.plan_frame.specs.Meaning.{filled as filled_with, val};
ghost use Rattle.plan_frame.specs.Made.{made as made_of, made_columns as columns_made};
ghost use Rattle.plan_table.specs.Tables.{types_of};
ghost use Rattle.plan_function_tables.specs.Given.{stored_column};
ghost use Rattle.plan_value.specs.Shown.{column_shown, columns_shown, frame_of, schema_of, values_of};

use plan_core::{Arena, DataType, Items, PlSmallStr, Schema};
use plan_expr::{AExpr, ExprIR, output_name};
use plan_table::{AnyValue, Column, Columns, Table};
use plan_value::{evaluate_expr, filled};
use std::alloc::{AllocError, Global};

/// The type that a schema has for a column, which it holds.
fn stored_type(schema: &Schema, name: &str) -> DataType
    requires { is_some (type_of schema.now name.now) ≡ true }
    ensures { type_of schema.now name.now ≡ Some result }
{
    match schema.get(name) {
        Some(dtype) => *dtype,
        None => unreachable!(),
    }
}

/// The column of these values under the name of an expression, with its type in the schema.
pub fn named_column(
    alloc: Global,
    expr: &ExprIR,
    values: Items<AnyValue>,
    schema: &Schema,
) -> Result<Column, AllocError>
    requires { is_some (type_of schema.now (name_of expr.now.output_name)) ≡ true }
    ensures shown { IfOk result (λ c. column_shown c ≡ record { name = name_of expr.now.output_name; values = values_of values }) }
    ensures typed { IfOk result (λ c. (c.name, c.dtype) ≡ stored_column schema.now expr.now) }
{
    let name = output_name(&expr.output_name);
    Ok(Column {
        name: PlSmallStr::new(alloc, name)?,
        dtype: stored_type(schema, name),
        values,
    })
}

/// The column that an expression makes over the rows of a table, of so many rows.
fn made_column(
    alloc: Global,
    height: usize,
    expr: &ExprIR,
    schema: &Schema,
    ex: &Arena<AExpr>,
    table: &Table,
) -> Result<Column, AllocError>
    requires stands { IsExpr ex.now expr.now.node }
    requires named { is_some (type_of schema.now (name_of expr.now.output_name)) ≡ true }
    ensures shown { IfOk result (λ c. column_shown c ≡ record { name = name_of expr.now.output_name; values = filled_with height (val (expr_at ex.now expr.now.node) (frame_of table.now)) }) }
    ensures typed { IfOk result (λ c. (c.name, c.dtype) ≡ stored_column schema.now expr.now) }
{
    let values = evaluate_expr(alloc, expr.node, ex, table)?;
    let values = filled(alloc, values, height)?;
    Ok(named_column(alloc, expr, values, schema)?)
}

/// The columns that expressions make over the rows of a table, of so many rows, with their types in the schema.
pub fn made_list(
    alloc: Global,
    height: usize,
    exprs: &[ExprIR],
    schema: &Schema,
    ex: &Arena<AExpr>,
    table: &Table,
) -> Result<Vec<Column>, AllocError>
    requires stand { All (λ e. IsExpr ex.now e.node) exprs.now }
    requires named { All (λ e. is_some (type_of schema.now (name_of e.output_name)) ≡ true) exprs.now }
    ensures shown { IfOk result (λ cs. columns_shown cs.items ≡ columns_made height (frame_of table.now) (all_named_at ex.now exprs.now)) }
    ensures types { IfOk result (λ cs. types_of cs.items ≡ map (stored_column schema.now) exprs.now) }
{
    let mut made = Vec::new(alloc);
    for expr in exprs {
        made.push(made_column(alloc, height, expr, schema, ex, table)?)?;
    }
    Ok(made)
}

/// The columns, of so many rows, and those that the expressions make over a table: each in the place of the one of its
/// name, or last, with its type in the schema.
pub fn made(
    alloc: Global,
    height: usize,
    base: Columns,
    exprs: &[ExprIR],
    schema: &Schema,
    ex: &Arena<AExpr>,
    table: &Table,
) -> Result<Table, AllocError>
    requires stand { All (λ e. IsExpr ex.now e.node) exprs.now }
    requires named { All (λ e. is_some (type_of schema.now (name_of e.output_name)) ≡ true) exprs.now }
    ensures frame { IfOk result (λ t. frame_of t ≡ made_of height (columns_shown base) (all_named_at ex.now exprs.now) (frame_of table.now)) }
    ensures types { IfOk result (λ t. schema_of t ≡ with_types (types_of base) (map (stored_column schema.now) exprs.now)) }
{
    let mut columns = base;
    for expr in exprs {
        columns.with_column(made_column(alloc, height, expr, schema, ex, table)?)?;
    }
    Ok(Table { height, columns })
}
