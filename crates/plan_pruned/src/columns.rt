//! Columns that are asked by their names; no names stand for every column.
ghost use Rattle.std.specs.Prelude.{◌≡◌, IfOk};
ghost use Rattle.plan_pruned.specs.Pruned.{asked_columns as asked_of, kept as kept_of, pruned_output as output_of, typed_names};

use plan_core::{Names, PlSmallStr, Schema};
use std::alloc::{AllocError, Global};

/// The names with their types in a schema; those that it lacks are left out. Refuses for want of memory alone.
pub fn typed_columns(alloc: Global, names: &Names, schema: &Schema) -> Result<Schema, AllocError>
    ensures { IfOk result (λ columns. columns ≡ typed_names schema.now names.now) }
{
    let mut columns = Schema::new(alloc);
    for i in 0..names.len() {
        if let Some(name) = names.get_at_index(i) {
            if let Some(dtype) = schema.get(name) {
                let _ = columns.with_column(PlSmallStr::new(alloc, name)?, *dtype)?;
            }
        }
    }
    Ok(columns)
}

/// The asked names with their types among columns; none where nothing is asked. Refuses for want of memory alone.
pub fn asked_columns(
    alloc: Global,
    asked: &Names,
    columns: &Schema,
) -> Result<Option<Schema>, AllocError>
    ensures { IfOk result (λ kept. kept ≡ asked_of asked.now columns.now) }
{
    if asked.len() == 0 {
        return Ok(None);
    }
    Ok(Some(typed_columns(alloc, asked, columns)?))
}

/// The columns that a projection keeps: those that are asked, in its own order; asked no names, all. Refuses for want
/// of memory alone.
pub fn kept_columns(alloc: Global, columns: Schema, asked: &Names) -> Result<Schema, AllocError>
    ensures { IfOk result (λ kept. kept ≡ kept_of asked.now columns) }
{
    if asked.len() == 0 {
        return Ok(columns);
    }
    let mut kept = Schema::new(alloc);
    for i in 0..columns.len() {
        if let Some((name, dtype)) = columns.get_at_index(i) {
            if asked.contains(name) {
                let _ = kept.with_column(PlSmallStr::new(alloc, name)?, *dtype)?;
            }
        }
    }
    Ok(kept)
}

/// What a scan of a frame puts out: asked no names, what it put out, else the asked names with their types in the
/// schema. Refuses for want of memory alone.
pub fn pruned_output(
    alloc: Global,
    output: Option<Schema>,
    schema: &Schema,
    asked: &Names,
) -> Result<Option<Schema>, AllocError>
    ensures { IfOk result (λ kept. kept ≡ output_of asked.now schema.now output) }
{
    if asked.len() == 0 {
        return Ok(output);
    }
    Ok(Some(typed_columns(alloc, asked, schema)?))
}
