//! A union: it has inputs, and each has the columns of the first.
ghost use Rattle.std.specs.Prelude.{◌≡◌};
ghost use Rattle.plan_ir.specs.Plans.{union};
ghost use Rattle.plan_meaning.specs.Typing.{is_built_union, same_checks, first_fault, Says};
ghost use Rattle.plan_meaning.specs.Typed.{IsNodeTyped};

use plan_core::{Items, Node, PolarsError, PolarsResult, Schema};
use plan_options::UnionOptions;
use plan_schema::at;

/// Whether a union has a form that is built: some inputs, and no slice.
#[tactic(auto, unfolding(plan_meaning::specs::Typing::is_built_union))]
fn is_built(options: &UnionOptions, schemas: &[Schema]) -> bool
    ensures { result ≡ is_built_union options.now schemas.now }
{
    !schemas.is_empty() && options.slice.is_none()
}

/// Each input has the columns of the first, else `SchemaMismatch` at the input; the first one is at place 1.
#[tactic(auto, unfolding(plan_meaning::specs::Typing::same_checks))]
fn check_same(node: Node, schemas: &[Schema]) -> PolarsResult<()>
    ensures { Says result (first_fault node (same_checks schemas.now)) }
{
    if schemas.is_empty() {
        return Ok(());
    }
    for (i, schema) in schemas.iter().enumerate() {
        if schemas[0] != *schema {
            return Err(PolarsError::SchemaMismatch(at(node, 1 + i)));
        }
    }
    Ok(())
}

/// The columns of a union, those of each of its inputs, or its first fault: `InvalidOperation` at place 0 where it has no
/// inputs or a slice, and then `SchemaMismatch` at the first input that has other columns than the first.
pub fn union_schema(
    node: Node,
    options: &UnionOptions,
    schemas: Items<Schema>,
) -> PolarsResult<Schema>
    ensures { IsNodeTyped result node (union options.now) schemas }
{
    let mut schemas = schemas;
    if !is_built(options, schemas.as_slice()) {
        return Err(PolarsError::InvalidOperation(at(node, 0)));
    }
    check_same(node, schemas.as_slice())?;
    match schemas.pop() {
        Some(schema) => Ok(schema),
        None => unreachable!(),
    }
}
