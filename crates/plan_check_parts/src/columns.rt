//! Checks that go over columns in order.
ghost use Rattle.std.specs.Prelude.{◌≡◌, None};
ghost use Rattle.plan_core.specs.declared.error.PolarsError.TheVariants.{SchemaFieldNotFound, SchemaMismatch};
ghost use Rattle.plan_meaning.specs.Checks.{each, is_column as is_one, is_known, stored_checks};
ghost use Rattle.plan_meaning.specs.Typing.{differ_checks, first_fault, Says};

use plan_core::{Node, PolarsError, PolarsResult, Schema};
use plan_schema::{at, is_column};

/// No name comes twice among the columns of a schema, by the law of schemas, so that the check on it tells no fault. There is
/// nothing to compute.
pub fn columns_differ(node: Node, columns: &Schema)
    ensures { first_fault node (differ_checks columns.now) ≡ None }
{
    let _ = node;
    let _count = columns.len();
}

/// Each column's name is one of the schema's, else refuses with `SchemaFieldNotFound` at the column; the first one is
/// at place 1.
pub fn check_columns_known(node: Node, columns: &Schema, schema: &Schema) -> PolarsResult<()>
    ensures { Says result (first_fault node (each SchemaFieldNotFound 1 (λ c. is_known schema.now c.0) columns.now)) }
{
    for i in 0..columns.len() {
        if let Some((name, _)) = columns.get_at_index(i) {
            if schema.get(name).is_none() {
                return Err(PolarsError::SchemaFieldNotFound(at(node, 1 + i)));
            }
        }
    }
    Ok(())
}

/// Each column is one of the schema's, with its type, else refuses with `SchemaMismatch` at the column; the first one
/// is at place 1.
pub fn check_columns_typed(node: Node, columns: &Schema, schema: &Schema) -> PolarsResult<()>
    ensures { Says result (first_fault node (each SchemaMismatch 1 (is_one schema.now) columns.now)) }
{
    for i in 0..columns.len() {
        if let Some((name, dtype)) = columns.get_at_index(i) {
            if !is_column(schema, name, *dtype) {
                return Err(PolarsError::SchemaMismatch(at(node, 1 + i)));
            }
        }
    }
    Ok(())
}

/// The stored columns are those that are computed, else refuses with `SchemaMismatch` at place 0.
#[tactic(auto, unfolding(plan_meaning::specs::Checks::stored_checks))]
pub fn check_stored(node: Node, stored: &Schema, computed: &Schema) -> PolarsResult<()>
    ensures { Says result (first_fault node (stored_checks stored.now computed.now)) }
{
    if *stored == *computed {
        Ok(())
    } else {
        Err(PolarsError::SchemaMismatch(at(node, 0)))
    }
}
