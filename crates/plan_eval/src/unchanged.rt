//! A sink gives the rows of its input, and so does a cache.
ghost use Rattle.std.specs.Prelude.{List, [], ◌∷◌, IfOk, ℕ};
ghost use Rattle.plan_ir.specs.Plans.{cache as cache_op, sink as sink_op};
ghost use Rattle.plan_options.specs.declared.sink.SinkType.{SinkType};
ghost use Rattle.plan_table.specs.declared.source_key.SourceKey.{SourceKey};
ghost use Rattle.plan_table.specs.declared.table.Table.{Table as TableType};
ghost use Rattle.plan_function_tables.specs.Given.{Gives};

use plan_table::Table;
use std::alloc::AllocError;

/// The table of the input.
pub fn unchanged(table: Table) -> Result<Table, AllocError>
    ensures sink { (ts : List (SourceKey × TableType)) (payload : SinkType) → IfOk result (Gives ts (sink_op payload) (table ∷ [])) }
    ensures cache { (ts : List (SourceKey × TableType)) (id hits : ℕ) → IfOk result (Gives ts (cache_op id hits) (table ∷ [])) }
{
    Ok(table)
}
