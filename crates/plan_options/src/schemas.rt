//! Schemas that are put together.
ghost use Rattle.std.specs.Prelude.{◌≡◌, ◌++◌, min, IfOk, IfErr, OnOk};
ghost use Rattle.std.specs.Bool.{OnTrue, OnFalse};
ghost use Rattle.plan_core.specs.Columns.{HasDistinctNames};
ghost use Rattle.plan_core.specs.Errors.{item_at};
ghost use Rattle.plan_options.specs.Schemas.{all_columns, SharesName, Refuses};

use plan_core::{At, PlSmallStr, PolarsError, PolarsResult, Schema};
use std::alloc::{AllocError, Global};

/// The columns of the schemas, one schema after another. It refuses with `Duplicate`, memory aside,
/// exactly where a name comes twice, at the place of the first schema that has a name of one before it.
pub fn merge_schemas(alloc: Global, schemas: &[Schema]) -> PolarsResult<Schema>
    ensures columns { IfOk result (λ schema. schema ≡ all_columns schemas.now) }
    ensures distinct { OnOk result (HasDistinctNames (all_columns schemas.now)) }
    ensures refused { IfErr result (Refuses schemas.now) }
    ensures memory_aside { HasDistinctNames (all_columns schemas.now) → IfErr result (λ error. error ≡ PolarsError.OutOfMemory) }
{
    let mut merged = Schema::new(alloc);
    for (place, schema) in schemas.iter().enumerate() {
        if !append_all(alloc, &mut merged, schema)? {
            return Err(PolarsError::Duplicate(item(place)));
        }
    }
    Ok(merged)
}

/// Adds the columns of a schema, last, up to the first whose name is there already, and says whether
/// all were added.
fn append_all(alloc: Global, merged: &mut Schema, schema: &Schema) -> Result<bool, AllocError>
    requires { HasDistinctNames merged.old }
    ensures appended { IfOk result (λ all. OnTrue all (merged.new ≡ merged.old ++ schema.now)) }
    ensures distinct { IfOk result (λ all. OnTrue all (HasDistinctNames merged.new)) }
    ensures shares { IfOk result (λ all. OnFalse all (SharesName schema.now merged.old)) }
{
    for (name, dtype) in schema.iter() {
        let old = merged.with_column(PlSmallStr::new(alloc, name)?, *dtype)?;
        if old.is_some() {
            return Ok(false);
        }
    }
    Ok(true)
}

/// The item at a place, for a fault. A place above 4294967295 is given as 4294967295.
pub fn item(place: usize) -> At
    ensures { result ≡ item_at (min place 4294967295) }
{
    let place = if place >= 4294967295 {
        4294967295
    } else {
        place as u32
    };
    At { node: None, place }
}
