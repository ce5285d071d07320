//! Checks that go over names in order.
ghost use Rattle.std.specs.Prelude.{◌≡◌, ◌+◌, ◌<◌, ◌^◌, length, [], IfOk};
ghost use Rattle.plan_core.specs.declared.error.PolarsError.TheVariants.{SchemaFieldNotFound, SchemaMismatch};
ghost use Rattle.plan_core.specs.Names.{with_names};
ghost use Rattle.plan_meaning.specs.Checks.{each, each_new, is_column as is_one, is_known};
ghost use Rattle.plan_meaning.specs.Typing.{first_fault, Says};

use crate::place::at;
use plan_core::{DataType, Names, Node, PlSmallStr, PolarsError, PolarsResult, Schema};
use std::alloc::{AllocError, Global};

/// Whether the schema has the column, with that type.
pub fn is_column(schema: &Schema, name: &str, dtype: DataType) -> bool
    ensures { result ≡ is_one schema.now (name.now, dtype) }
{
    schema.get(name).copied() == Some(dtype)
}

/// Each name is one of the schema's, else refuses with `SchemaFieldNotFound` at the name; the first one is at `place`.
pub fn check_names_known(
    node: Node,
    place: usize,
    names: &[PlSmallStr],
    schema: &Schema,
) -> PolarsResult<()>
    ensures { Says result (first_fault node (each SchemaFieldNotFound place (is_known schema.now) names.now)) }
{
    for (i, name) in names.iter().enumerate() {
        if schema.get(name.as_str()).is_none() {
            return Err(PolarsError::SchemaFieldNotFound(at(node, place.saturating_add(i))));
        }
    }
    Ok(())
}

/// Each name is a column of the schema, with that type, else `SchemaMismatch` at the name; the first one is at place 1.
pub fn check_names_typed(
    node: Node,
    names: &[PlSmallStr],
    dtype: DataType,
    schema: &Schema,
) -> PolarsResult<()>
    ensures { Says result (first_fault node (each SchemaMismatch 1 (λ a. is_one schema.now (a, dtype)) names.now)) }
{
    for (i, name) in names.iter().enumerate() {
        if !is_column(schema, name.as_str(), dtype) {
            return Err(PolarsError::SchemaMismatch(at(node, 1 + i)));
        }
    }
    Ok(())
}

/// No name is one before it, else refuses with `Duplicate` at the name; the first one is at `place`. Refuses where
/// memory is short, too.
pub fn check_names_new(
    alloc: Global,
    node: Node,
    place: usize,
    names: &[PlSmallStr],
) -> PolarsResult<()>
    ensures { Says result (first_fault node (each_new place [] names.now)) }
{
    let mut before = Names::new(alloc);
    for (i, name) in names.iter().enumerate() {
        if !before.add(name.as_str())? {
            return Err(PolarsError::Duplicate(at(node, place.saturating_add(i))));
        }
    }
    Ok(())
}

/// The names of a list, each once, in the order in which they first come. Refuses for want of memory alone.
pub fn set_of(alloc: Global, names: &[PlSmallStr]) -> Result<Names, AllocError>
    ensures { IfOk result (λ set. set ≡ with_names [] names.now) }
{
    let mut set = Names::new(alloc);
    for name in names {
        let _ = set.add(name.as_str())?;
    }
    Ok(set)
}
