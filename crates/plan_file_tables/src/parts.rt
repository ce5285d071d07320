//! The sources of a scan, each with its hive columns and its table.
ghost use Rattle.std.specs.Prelude.{◌≡◌, ◌++◌, ◌∷◌, [], IfOk, IsTrue, OnOk, option_copied, option_map, replicate, unwrap_or};
ghost use Rattle.plan_file_scan.specs.FileFrames.{hive_value as value_of_hive, own_values, part_values, parts_of, rows_in_turn};
ghost use Rattle.plan_frame.specs.Values.{text};
ghost use Rattle.plan_scan.specs.Sources.{path_name, sources_of};
ghost use Rattle.plan_value.specs.Shown.{frame_of, value_of, values_of};
ghost use Rattle.plan_file_tables.specs.Parts.{AreEmpty, GiveSame, IsBare, frames_found, hive_at, part_shown, parts_shown};

use crate::appended::{append_column, append_times};
use plan_core::{Items, PlSmallStr};
use plan_scan::{HivePartitions, ScanSourceRef, ScanSources};
use plan_table::{AnyValue, Column, Columns, Table};
use std::alloc::{AllocError, Global};

/// A source of a scan, with its hive columns, where a part is given for it, and its table, if it has one.
#[derive(Clone, Copy)]
pub struct Part<'a> {
    source: ScanSourceRef<'a>,
    hive: Option<&'a HivePartitions>,
    table: Option<&'a Table>,
}

/// The hive columns of the source at a place, where a part is given for it.
fn hive_part(hive: &Option<Items<HivePartitions>>, place: usize) -> Option<&HivePartitions>
    ensures { unwrap_or (option_copied result) [] ≡ hive_at hive.now place }
{
    match hive {
        None => None,
        Some(parts) => parts.as_slice().get(place),
    }
}

/// The sources in order, one for one, each with its hive columns and its table.
pub fn parts<'a>(
    alloc: Global,
    sources: &'a ScanSources,
    hive: &'a Option<Items<HivePartitions>>,
    tables: &[Option<&'a Table>],
) -> Result<Items<Part<'a>>, AllocError>
    ensures { IfOk result (λ parts. parts_shown parts ≡ parts_of hive.now (sources_of sources.now) (frames_found tables.now)) }
{
    let mut parts = Items::new(alloc);
    for source in sources.iter() {
        let place = parts.len();
        let Some(table) = tables.get(place) else {
            break;
        };
        parts.push(Part {
            source,
            hive: hive_part(hive, place),
            table: *table,
        })?;
    }
    Ok(parts)
}

/// How many rows a source has: none without a table.
fn height(part: &Part<'_>) -> usize
    ensures { result ≡ (part_shown part.now).rows.height }
{
    match part.table {
        Some(table) => table.height,
        None => 0,
    }
}

/// Whether a column has no values.
fn is_empty(column: &Column) -> bool
    ensures { IsTrue result → values_of column.now.values ≡ [] }
{
    match column.values.as_slice() {
        [] => true,
        _ => false,
    }
}

/// Whether no column has values.
fn are_empty(columns: &Columns) -> bool
    ensures { IsTrue result → AreEmpty columns.now }
{
    for column in columns.iter() {
        if !is_empty(column) {
            return false;
        }
    }
    true
}

/// Whether a table has neither rows nor values.
fn is_bare(table: &Table) -> bool
    ensures { IsTrue result → IsBare (frame_of table.now) }
{
    if table.height > 0 {
        return false;
    }
    are_empty(&table.columns)
}

/// Whether a source has neither rows nor values.
fn gives_nothing(part: &Part<'_>) -> bool
    ensures { IsTrue result → IsBare (part_shown part.now).rows }
{
    match part.table {
        Some(table) => is_bare(table),
        None => true,
    }
}

/// Puts a source behind others, unless it has neither rows nor values.
fn add_part<'a>(parts: &mut Items<Part<'a>>, part: &Part<'a>) -> Result<(), AllocError>
    ensures { OnOk result (GiveSame (parts_shown parts.new) (parts_shown parts.old ++ part_shown part.now ∷ [])) }
{
    if gives_nothing(part) {
        return Ok(());
    }
    Ok(parts.push(*part)?)
}

/// The sources that have rows or values.
pub fn full_parts<'a>(alloc: Global, parts: &[Part<'a>]) -> Result<Items<Part<'a>>, AllocError>
    ensures { IfOk result (λ full. GiveSame (parts_shown full) (parts_shown parts.now)) }
{
    let mut full = Items::new(alloc);
    for part in parts {
        add_part(&mut full, part)?;
    }
    Ok(full)
}

/// How many rows sources have together. A sum beyond a `usize` is refused.
pub fn all_rows(parts: &[Part<'_>]) -> Result<usize, AllocError>
    ensures { IfOk result (λ rows. rows ≡ rows_in_turn (parts_shown parts.now)) }
{
    let mut rows: usize = 0;
    for part in parts {
        rows = rows.checked_add(height(part)).ok_or(AllocError)?;
    }
    Ok(rows)
}

/// The value of the hive column of a name, if there is one.
fn hive_value<'a>(part: &Part<'a>, name: &str) -> Option<&'a AnyValue>
    ensures { option_map value_of (option_copied result) ≡ value_of_hive (part_shown part.now).hive name.now }
{
    let stats = part.hive?.get_statistics();
    let place = stats.schema().index_of(name)?;
    match stats.column_stats().get(place) {
        None => None,
        Some(stat) => Some(&stat.value),
    }
}

/// Appends the values of a column in the rows of a source: its hive value in each, or else those of its table.
fn append_own(
    alloc: Global,
    values: &mut Items<AnyValue>,
    part: &Part<'_>,
    name: &str,
) -> Result<(), AllocError>
    ensures { OnOk result (values_of values.new ≡ values_of values.old ++ own_values (part_shown part.now) name.now) }
{
    if let Some(value) = hive_value(part, name) {
        return Ok(append_times(alloc, values, value, height(part))?);
    }
    match part.table {
        Some(table) => Ok(append_column(alloc, values, table, name)?),
        None => Ok(()),
    }
}

/// Appends the path of a source, so many times.
fn append_path(
    alloc: Global,
    values: &mut Items<AnyValue>,
    part: &Part<'_>,
) -> Result<(), AllocError>
    ensures { OnOk result (values_of values.new ≡ values_of values.old ++ replicate (part_shown part.now).rows.height (text (path_name (part_shown part.now).source))) }
{
    let path = PlSmallStr::new(alloc, part.source.to_include_path_name())?;
    Ok(append_times(alloc, values, &AnyValue::String(path), height(part))?)
}

/// Appends the values of a column in the rows of a source: its path in each where that is the column with the paths.
pub fn append_values(
    alloc: Global,
    values: &mut Items<AnyValue>,
    part: &Part<'_>,
    path: &Option<PlSmallStr>,
    name: &str,
) -> Result<(), AllocError>
    ensures { OnOk result (values_of values.new ≡ values_of values.old ++ part_values path.now (part_shown part.now) name.now) }
{
    if let Some(own) = path {
        if name == own.as_str() {
            return Ok(append_path(alloc, values, part)?);
        }
    }
    append_own(alloc, values, part, name)
}
