//! Parts that are projected and made.
use plan_core::{DataType, Items, PlSmallStr, PolarsResult, Schema, TryClone};
use plan_hive::hive_partitions_from_paths;
use plan_samples::{names, schema};
use plan_scan::{ColumnStats, HivePartitions};
use plan_table::{AnyValue, Column};
use std::alloc::{AllocError, Global};

/// The parts of paths whose folders start at 3.
fn parts(alloc: Global, paths: &[PlSmallStr]) -> PolarsResult<Option<Items<HivePartitions>>> {
    let reader = Schema::new(alloc);
    hive_partitions_from_paths(alloc, paths, 3, None, &reader, true)
}

/// The columns y and m of a path, if it is read.
fn part(alloc: Global) -> PolarsResult<Option<HivePartitions>> {
    let paths = names(alloc, &["/d/y=2020/m=a%20b/f0"])?;
    match parts(alloc, paths.as_slice())? {
        Some(mut parts) => Ok(parts.pop()),
        None => Ok(None),
    }
}

/// Whether a part is its copy.
fn is_copied(alloc: Global, part: &HivePartitions) -> Result<bool, AllocError> {
    Ok(*part == part.try_clone(alloc)?)
}

/// Projects a part to names, and tells whether the first stood at 1.
fn projected(
    alloc: Global,
    part: &mut HivePartitions,
    wanted: &[PlSmallStr],
) -> Result<bool, AllocError> {
    let (left, places) = part.get_projection_schema_and_indices(alloc, wanted)?;
    let is_there = places.as_slice() == [1].as_slice();
    part.apply_projection(alloc, left, places.as_slice())?;
    Ok(is_there)
}

/// Projects a part to the column m, and tells whether it stood at 1.
fn is_projected(alloc: Global, part: &mut HivePartitions) -> Result<bool, AllocError> {
    let wanted = names(alloc, &["m"])?;
    projected(alloc, part, wanted.as_slice())
}

/// Whether a part has the column m alone.
fn has_text(alloc: Global, part: &HivePartitions) -> Result<bool, AllocError> {
    let left = schema(alloc, &[("m", DataType::String)])?;
    Ok(*part.get_statistics().schema() == left)
}

/// The text `a b` alone.
fn text(alloc: Global) -> Result<Items<AnyValue>, AllocError> {
    let mut values = Items::new(alloc);
    values.push(AnyValue::String(PlSmallStr::new(alloc, "a b")?))?;
    Ok(values)
}

/// The column m with this text.
fn column(alloc: Global) -> Result<Column, AllocError> {
    let values = text(alloc)?;
    let name = PlSmallStr::new(alloc, "m")?;
    let dtype = DataType::String;
    Ok(Column {
        name,
        dtype,
        values,
    })
}

/// Whether the columns of a part are made as this one alone.
fn is_made(alloc: Global, part: &HivePartitions) -> Result<bool, AllocError> {
    let made = part.materialize_partition_columns(alloc)?;
    Ok(made.as_slice() == [column(alloc)?].as_slice())
}

/// Whether a part is its copy, is projected, has then the column m alone, and makes it.
fn is_right(alloc: Global, part: &mut HivePartitions) -> Result<bool, AllocError> {
    Ok(
        is_copied(alloc, part)?
            && is_projected(alloc, part)?
            && has_text(alloc, part)?
            && is_made(alloc, part)?,
    )
}

/// The same of the part of a path, if it is read.
fn part_is_right(alloc: Global) -> PolarsResult<bool> {
    match part(alloc)? {
        Some(mut part) => Ok(is_right(alloc, &mut part)?),
        None => Ok(false),
    }
}

/// The column y with the value 2020.
fn year(alloc: Global) -> Result<HivePartitions, AllocError> {
    let mut values = Items::new(alloc);
    values.push(AnyValue::Int64(2020))?;
    HivePartitions::new(alloc, schema(alloc, &[("y", DataType::Int64)])?, values)
}

/// Whether this is the column y with the value 2020.
fn is_year(stat: &ColumnStats) -> bool {
    let is_named = stat.field.name.as_str() == "y" && stat.field.dtype == DataType::Int64;
    is_named && matches!(&stat.value, AnyValue::Int64(2020))
}

/// Whether a part has this column alone.
fn has_year(part: &HivePartitions) -> bool {
    match part.get_statistics().column_stats() {
        [stat] => is_year(stat),
        _ => false,
    }
}

/// Whether the part of this column has it alone.
fn year_is_made(alloc: Global) -> Result<bool, AllocError> {
    let year = year(alloc)?;
    Ok(has_year(&year))
}

/// Whether a part without columns has none.
fn none_is_made(alloc: Global) -> Result<bool, AllocError> {
    let none = HivePartitions::new(alloc, Schema::new(alloc), Items::new(alloc))?;
    Ok(none.get_statistics().column_stats().is_empty())
}

#[test]
fn partitions_are_projected_and_made(rt: HostRuntime) {
    assert!(rt; part_is_right(rt.alloc()) == Ok(true));
    assert!(rt; year_is_made(rt.alloc()) == Ok(true));
    assert!(rt; none_is_made(rt.alloc()) == Ok(true));
}
