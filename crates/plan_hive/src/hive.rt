//! The hive columns that the paths of a scan name, with their values.
ghost use Rattle.std.specs.Prelude.{◌≡◌, ◌≢◌, [], Err, IfErr, IfOk, None, Ok, Some, map, if◌then◌else◌, option_copied};
ghost use Rattle.std.specs.List.{list_all};
ghost use Rattle.plan_core.specs.Names.{has, with_names};
ghost use Rattle.plan_hive.specs.Parts.{hive_parts as parts_spelled, part_names};
ghost use Rattle.plan_hive.specs.Hive.{first_fault, hive_columns as columns_told, hive_of, Says, is_known as is_known_of, is_read, partition_of, partitions, parts_fault, path_fault, place as place_of, read_paths as paths_read, values_fault, with_first as read_with_first};

use crate::hive_columns::hive_columns;
use crate::hive_parts::{HivePart, hive_parts};
use crate::hive_values::read_value;
use crate::path_values::PathValues;
use plan_core::{At, Items, Names, PlSmallStr, PolarsError, PolarsResult, Schema, TryClone};
use plan_scan::{ColumnStats, Field, HivePartitions};
use std::alloc::{AllocError, Global};

/// The item of this number, for a fault. A number above 4294967295 is given as 4294967295.
fn place(i: usize) -> At
    ensures { result ≡ place_of i }
{
    let place = if i >= 4294967295 {
        4294967295
    } else {
        i as u32
    };
    At { node: None, place }
}

/// The names of hive columns, each once.
fn names_of(alloc: Global, parts: &[HivePart]) -> Result<Names, AllocError>
    ensures { IfOk result (λ names. names ≡ with_names [] (part_names parts.now)) }
{
    let mut names = Names::new(alloc);
    for (name, _) in parts {
        names.add(name.as_str())?;
    }
    Ok(names)
}

/// Whether a name is one of the first path's, and of the schema's, where one is given.
fn is_known(schema: Option<&Schema>, firsts: &Names, name: &str) -> bool
    ensures { result ≡ is_known_of (option_copied schema.entry) firsts.now name.now }
{
    if !firsts.contains(name) {
        return false;
    }
    match schema {
        None => true,
        Some(given) => given.get(name).is_some(),
    }
}

/// Whether a path has each column of the first.
fn has_all(firsts: &Names, values: &PathValues) -> bool
    ensures { result ≡ list_all (has (part_names values.now)) firsts.now }
{
    for i in 0..firsts.len() {
        if let Some(name) = firsts.get_at_index(i) {
            if values.get(name).is_none() {
                return false;
            }
        }
    }
    true
}

/// The hive columns of a path by name: `SchemaFieldNotFound` at the first that isn't known, or `Duplicate` at the first
/// whose name comes before it, whichever comes first, and then `ComputeError` where the path lacks one of the first path's.
fn values_of(
    alloc: Global,
    at: usize,
    parts: &[HivePart],
    schema: Option<&Schema>,
    firsts: &Names,
) -> PolarsResult<PathValues>
    ensures values { IfOk result (λ values. values ≡ parts.now) }
    ensures fault { Says result (parts_fault (option_copied schema.entry) firsts.now at parts.now) }
{
    let mut values = PathValues::new(alloc);
    for (name, value) in parts {
        if !is_known(schema, firsts, name.as_str()) {
            return Err(PolarsError::SchemaFieldNotFound(place(at)));
        }
        if !values.add(alloc, name.as_str(), value.try_clone(alloc)?)? {
            return Err(PolarsError::Duplicate(place(at)));
        }
    }
    if !has_all(firsts, &values) {
        return Err(PolarsError::ComputeError(place(at)));
    }
    Ok(values)
}

/// The hive columns of each path; the first fault of a path's start or of a name.
fn read_names(
    alloc: Global,
    paths: &[PlSmallStr],
    start: usize,
    schema: Option<&Schema>,
    firsts: &Names,
) -> PolarsResult<Items<PathValues>>
    ensures values { IfOk result (λ all. all ≡ map (parts_spelled start) paths.now) }
    ensures fault { Says result (first_fault (path_fault start (option_copied schema.entry) firsts.now) 0 paths.now) }
{
    let mut all = Items::new(alloc);
    for (i, path) in paths.iter().enumerate() {
        let Some(parts) = hive_parts(alloc, path.as_str(), start)? else {
            return Err(PolarsError::ComputeError(place(i)));
        };
        match values_of(alloc, i, parts.as_slice(), schema, firsts) {
            Ok(values) => all.push(values)?,
            Err(fault) => return Err(fault),
        }
    }
    Ok(all)
}

/// The columns with their values in a path; None where the path spells no value of its type for one.
fn partition(
    alloc: Global,
    columns: &Schema,
    values: &PathValues,
) -> Result<Option<HivePartitions>, AllocError>
    ensures { IfOk result (λ r. r ≡ (if is_read columns.now values.now then Some (partition_of columns.now values.now) else None)) }
{
    let mut column_stats = Items::new(alloc);
    for (name, dtype) in columns.iter() {
        let Some(text) = values.get(name) else {
            return Ok(None);
        };
        let Some(value) = read_value(alloc, *dtype, text)? else {
            return Ok(None);
        };
        let field = Field {
            name: PlSmallStr::new(alloc, name)?,
            dtype: *dtype,
        };
        column_stats.push(ColumnStats { field, value })?;
    }
    Ok(Some(HivePartitions::of(columns.try_clone(alloc)?, column_stats)))
}

/// The partitions of paths with such columns; the first fault of a value.
fn read_partitions(
    alloc: Global,
    columns: &Schema,
    all: &[PathValues],
) -> PolarsResult<Items<HivePartitions>>
    ensures values { IfOk result (λ parts. parts ≡ map (partition_of columns.now) all.now) }
    ensures fault { Says result (first_fault (values_fault columns.now) 0 all.now) }
{
    let mut parts = Items::new(alloc);
    for (i, values) in all.iter().enumerate() {
        let Some(part) = partition(alloc, columns, values)? else {
            return Err(PolarsError::ComputeError(place(i)));
        };
        parts.push(part)?;
    }
    Ok(parts)
}

/// The partitions of paths with these hive columns, once their types are found; the first fault of a value.
fn typed_partitions(
    alloc: Global,
    schema: Option<&Schema>,
    reader: &Schema,
    all: &[PathValues],
    firsts: &Names,
) -> PolarsResult<Option<Items<HivePartitions>>>
    ensures answer { IfOk result (λ parts. partitions (columns_told (option_copied schema.entry) reader.now all.now firsts.now) all.now ≡ Ok parts) }
    ensures refusal { IfErr result (λ fault. fault ≢ PolarsError.OutOfMemory → partitions (columns_told (option_copied schema.entry) reader.now all.now firsts.now) all.now ≡ Err fault) }
{
    let columns = hive_columns(alloc, schema, reader, all, firsts)?;
    match read_partitions(alloc, &columns, all) {
        Ok(parts) => Ok(Some(parts)),
        Err(fault) => Err(fault),
    }
}

/// The partitions of paths of which the first has columns of these names; the first fault of a name, and then of a value.
fn read_paths(
    alloc: Global,
    paths: &[PlSmallStr],
    start: usize,
    schema: Option<&Schema>,
    reader: &Schema,
    firsts: &Names,
) -> PolarsResult<Option<Items<HivePartitions>>>
    ensures answer { IfOk result (λ parts. paths_read start (option_copied schema.entry) reader.now firsts.now paths.now ≡ Ok parts) }
    ensures refusal { IfErr result (λ fault. fault ≢ PolarsError.OutOfMemory → paths_read start (option_copied schema.entry) reader.now firsts.now paths.now ≡ Err fault) }
{
    match read_names(alloc, paths, start, schema, firsts) {
        Ok(all) => typed_partitions(alloc, schema, reader, all.as_slice(), firsts),
        Err(fault) => Err(fault),
    }
}

/// The partitions of paths of which the first has these hive columns, or none.
fn with_first(
    alloc: Global,
    paths: &[PlSmallStr],
    start: usize,
    schema: Option<&Schema>,
    reader: &Schema,
    parts: &[HivePart],
) -> PolarsResult<Option<Items<HivePartitions>>>
    ensures answer { IfOk result (λ read. read_with_first start (option_copied schema.entry) reader.now parts.now paths.now ≡ Ok read) }
    ensures refusal { IfErr result (λ fault. fault ≢ PolarsError.OutOfMemory → read_with_first start (option_copied schema.entry) reader.now parts.now paths.now ≡ Err fault) }
{
    if parts.is_empty() {
        return match schema {
            None => Ok(None),
            Some(_) => Err(PolarsError::ComputeError(place(0))),
        };
    }
    let firsts = names_of(alloc, parts)?;
    read_paths(alloc, paths, start, schema, reader, &firsts)
}

/// The hive columns of paths, with the values of each path.
///
/// A part of a path, from `hive_start_idx` on (in bytes) and between slashes, is a hive column where it isn't the last, has
/// one `=` with no `*` behind it, and its value, behind the `=`, is UTF-8 once its percent escapes are read. The value is
/// null where it is empty or `__HIVE_DEFAULT_PARTITION__`.
///
/// The columns are those of the first path. A column has the type that the schema says, where one is given, else the one
/// that the reader's has, else Boolean where each value in all paths but null is `true` or `false`, Int64 where each is an
/// optional `-` and digits and fits, and String otherwise. Columns stand as in the reader's schema, and those that it lacks
/// behind them, as in the first path. `try_parse_dates` has no effect.
///
/// The answer is None where there are no paths, and where no schema is given and the first path, which can be cut at
/// `hive_start_idx`, has no hive column. The place of a refusal is the path's, counted from 0. One round over the paths tests
/// each in this order: `ComputeError` where the path can't be cut at `hive_start_idx`; for each hive column
/// `SchemaFieldNotFound` where a given schema or the first path lacks it, and `Duplicate` where it comes twice;
/// `ComputeError` where a column of the first path is absent, and where a schema is given and the first path has no hive
/// column. A second round gives `ComputeError` where a value isn't one of its column's type. Beside that it refuses only
/// where memory is short.
pub fn hive_partitions_from_paths(
    alloc: Global,
    paths: &[PlSmallStr],
    hive_start_idx: usize,
    schema: Option<&Schema>,
    reader_schema: &Schema,
    try_parse_dates: bool,
) -> PolarsResult<Option<Items<HivePartitions>>>
    ensures answer { IfOk result (λ parts. hive_of hive_start_idx (option_copied schema.entry) reader_schema.now paths.now ≡ Ok parts) }
    ensures refusal { IfErr result (λ fault. fault ≢ PolarsError.OutOfMemory → hive_of hive_start_idx (option_copied schema.entry) reader_schema.now paths.now ≡ Err fault) }
{
    let _ = try_parse_dates;
    let Some(first) = paths.first() else {
        return Ok(None);
    };
    let Some(parts) = hive_parts(alloc, first.as_str(), hive_start_idx)? else {
        return Err(PolarsError::ComputeError(place(0)));
    };
    with_first(
        alloc,
        paths,
        hive_start_idx,
        schema,
        reader_schema,
        parts.as_slice(),
    )
}
