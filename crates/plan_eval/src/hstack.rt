//! An addition gives the columns of its input, and one for each of its expressions: in the place of the one of its name, or
//! last.
ghost use Rattle.std.specs.Prelude.{◌≡◌, List, [], ◌∷◌, All, IfOk};
ghost use Rattle.plan_core.specs.Columns.{with_types};
ghost use Rattle.plan_core.specs.declared.options.ProjectionOptions.{ProjectionOptions};
ghost use Rattle.plan_expr.specs.Operands.{IsExpr};
ghost use Rattle.plan_expr.specs.Exprs.{all_named_at};
ghost use Rattle.plan_frame.specs.Frames.{with_columns};
ghost use Rattle.plan_ir.specs.Plans.{hstack as hstack_op};
ghost use Rattle.plan_meaning.specs.Typing.{AllHold, checks};
ghost use Rattle.plan_table.specs.declared.source_key.SourceKey.{SourceKey};
ghost use Rattle.plan_table.specs.declared.table.Table.{Table as TableType};
ghost use Rattle.plan_function_tables.specs.Given.{Gives};
ghost use Rattle.plan_table.specs.Tables.{types_of};
ghost use Rattle.plan_value.specs.Shown.{columns_shown, frame_of, schema_of};

use crate::made::made_list;
use plan_core::{Arena, Schema};
use plan_expr::{AExpr, ExprIR};
use plan_table::{Column, Table};
use std::alloc::{AllocError, Global};

/// A table and columns more: each in the place of the one of its name, or last.
fn with_all(table: Table, made: Vec<Column>) -> Result<Table, AllocError>
    ensures frame { IfOk result (λ t. frame_of t ≡ record { height = table.height; columns = with_columns (columns_shown table.columns) (columns_shown made.items) }) }
    ensures types { IfOk result (λ t. schema_of t ≡ with_types (schema_of table) (types_of made.items)) }
{
    let mut table = table;
    for column in made {
        table.columns.with_column(column)?;
    }
    Ok(table)
}

/// The table of the addition.
pub fn hstack(
    alloc: Global,
    table: Table,
    exprs: &[ExprIR],
    schema: &Schema,
    ex: &Arena<AExpr>,
) -> Result<Table, AllocError>
    requires stand { All (λ e. IsExpr ex.now e.node) exprs.now }
    requires valid { (options : ProjectionOptions) → AllHold (checks (hstack_op (all_named_at ex.now exprs.now) schema.now options) (schema_of table ∷ [])) }
    ensures { (ts : List (SourceKey × TableType)) (options : ProjectionOptions) → IfOk result (Gives ts (hstack_op (all_named_at ex.now exprs.now) schema.now options) (table ∷ [])) }
{
    let made = made_list(alloc, table.height, exprs, schema, ex, &table)?;
    Ok(with_all(table, made)?)
}
