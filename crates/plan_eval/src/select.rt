//! A selection gives a column for each of its expressions, and no others: one row where all are scalar.
ghost use Rattle.std.specs.Prelude.{◌≡◌, List, [], ◌∷◌, All, IfOk, if◌then◌else◌};
ghost use Rattle.plan_core.specs.declared.options.ProjectionOptions.{ProjectionOptions};
ghost use Rattle.plan_expr.specs.Operands.{IsExpr};
ghost use Rattle.plan_expr.specs.Exprs.{all_named_at};
ghost use Rattle.plan_ir.specs.Plans.{select as select_op};
ghost use Rattle.plan_frame.specs.ExprLists.{all_scalar as are_scalar};
ghost use Rattle.plan_meaning.specs.Typing.{AllHold, checks};
ghost use Rattle.plan_table.specs.declared.source_key.SourceKey.{SourceKey};
ghost use Rattle.plan_table.specs.declared.table.Table.{Table as TableType};
ghost use Rattle.plan_function_tables.specs.Given.{Gives};
ghost use Rattle.plan_value.specs.Shown.{schema_of};

use crate::made::made;
use plan_core::{Arena, Schema};
use plan_expr::{AExpr, ExprIR};
use plan_frame::all_scalar;
use plan_table::{Columns, Table};
use std::alloc::{AllocError, Global};

/// How many rows a selection has, over so many: one where all expressions are scalar.
fn selected_height(height: usize, exprs: &[ExprIR], ex: &Arena<AExpr>) -> usize
    requires { All (λ e. IsExpr ex.now e.node) exprs.now }
    ensures { result ≡ (if are_scalar (all_named_at ex.now exprs.now) then 1 else height) }
{
    if all_scalar(exprs, ex) { 1 } else { height }
}

/// The table of the selection.
pub fn select(
    alloc: Global,
    table: &Table,
    exprs: &[ExprIR],
    schema: &Schema,
    ex: &Arena<AExpr>,
) -> Result<Table, AllocError>
    requires stand { All (λ e. IsExpr ex.now e.node) exprs.now }
    requires valid { (options : ProjectionOptions) → AllHold (checks (select_op (all_named_at ex.now exprs.now) schema.now options) (schema_of table.now ∷ [])) }
    ensures { (ts : List (SourceKey × TableType)) (options : ProjectionOptions) → IfOk result (Gives ts (select_op (all_named_at ex.now exprs.now) schema.now options) (table.now ∷ [])) }
{
    let height = selected_height(table.height, exprs, ex);
    Ok(made(alloc, height, Columns::new(alloc), exprs, schema, ex, table)?)
}
