//! The values of keys, and the types of the columns, of a table.
ghost use Rattle.std.specs.Prelude.{◌≡◌, All, IfOk};
ghost use Rattle.plan_core.specs.Columns.{HasDistinctNames};
ghost use Rattle.plan_expr.specs.Exprs.{all_named_at};
ghost use Rattle.plan_expr.specs.Operands.{IsExpr};
ghost use Rattle.plan_frame.specs.Orders.{key_cells};
ghost use Rattle.plan_table.specs.Tables.{types_of};
ghost use Rattle.plan_value.specs.Cells.{cells_of};
ghost use Rattle.plan_value.specs.Shown.{frame_of};

use crate::exprs::{Values, evaluate_expr};
use plan_core::{Arena, Items, Schema, TryClone};
use plan_expr::{AExpr, ExprIR};
use plan_table::{Columns, Table};
use std::alloc::{AllocError, Global};

/// The values of each of several keys over the rows of a table, in order. Refuses for want of memory alone.
pub fn key_values(
    alloc: Global,
    keys: &[ExprIR],
    ex: &Arena<AExpr>,
    table: &Table,
) -> Result<Items<Values>, AllocError>
    requires { All (λ e. IsExpr ex.now e.node) keys.now }
    ensures { IfOk result (λ values. cells_of values ≡ key_cells (all_named_at ex.now keys.now) (frame_of table.now)) }
{
    let mut values = Items::new(alloc);
    for key in keys {
        values.push(evaluate_expr(alloc, key.node, ex, table)?)?;
    }
    Ok(values)
}

/// The names of columns with their types, in order. Refuses for want of memory alone.
pub fn typed(alloc: Global, columns: &Columns) -> Result<Schema, AllocError>
    ensures types { IfOk result (λ schema. schema ≡ types_of columns.now) }
    ensures distinct { IfOk result (λ _. HasDistinctNames (types_of columns.now)) }
{
    let mut schema = Schema::new(alloc);
    for column in columns.iter() {
        let _ = schema.with_column(column.name.try_clone(alloc)?, column.dtype)?;
    }
    Ok(schema)
}
