//! A simple projection: it has columns, and each is the input's.
ghost use Rattle.std.specs.Prelude.{[], ◌∷◌};
ghost use Rattle.plan_ir.specs.Plans.{simple_projection};
ghost use Rattle.plan_meaning.specs.Typing.{projection_checks, first_fault, Says};
ghost use Rattle.plan_meaning.specs.Typed.{IsNodeTyped};

use plan_check_parts::{check_columns_known, check_columns_typed, columns_differ};
use plan_core::{Node, PolarsError, PolarsResult, Schema, TryClone};
use plan_schema::at;
use std::alloc::Global;

/// Checks a simple projection over the columns of its input. Refuses with `InvalidOperation` at place 0 where it has no
/// columns, with `SchemaFieldNotFound` at the first column that isn't there, and then with `SchemaMismatch` at the
/// first of another type. No two have one name, since they are a schema.
#[tactic(auto, using(plan_schema::proofs::CheckLemmas::fault_append))]
pub fn check_projection(node: Node, columns: &Schema, schema: &Schema) -> PolarsResult<()>
    ensures { Says result (first_fault node (projection_checks columns.now schema.now)) }
{
    if columns.len() == 0 {
        return Err(PolarsError::InvalidOperation(at(node, 0)));
    }
    check_columns_known(node, columns, schema)?;
    check_columns_typed(node, columns, schema)?;
    columns_differ(node, columns);
    Ok(())
}

/// The columns of a simple projection over those of its input, or its first fault.
pub fn projection_schema(
    alloc: Global,
    node: Node,
    columns: &Schema,
    schema: &Schema,
) -> PolarsResult<Schema>
    ensures { IsNodeTyped result node (simple_projection columns.now) (schema.now ∷ []) }
{
    check_projection(node, columns, schema)?;
    Ok(columns.try_clone(alloc)?)
}
