//! A simple projection gives some columns of its input, in its order.
ghost use Rattle.std.specs.Prelude.{List, [], ◌∷◌, IfOk};
ghost use Rattle.plan_ir.specs.Plans.{simple_projection};
ghost use Rattle.plan_table.specs.declared.source_key.SourceKey.{SourceKey};
ghost use Rattle.plan_table.specs.declared.table.Table.{Table as TableType};
ghost use Rattle.plan_function_tables.specs.Given.{Gives};

use crate::stack::stack;
use plan_core::Schema;
use plan_table::Table;
use std::alloc::{AllocError, Global};

/// The table of the projection.
pub fn projection(alloc: Global, table: &Table, columns: &Schema) -> Result<Table, AllocError>
    ensures { (ts : List (SourceKey × TableType)) → IfOk result (Gives ts (simple_projection columns.now) (table.now ∷ [])) }
{
    Ok(stack(alloc, &[table], columns)?)
}
