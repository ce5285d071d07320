//! A scan gives the tables of its sources one after another, beside the numbers of its rows, its hive values and its paths.
ghost use Rattle.std.specs.Prelude.{◌≡◌, IfOk};
ghost use Rattle.plan_core.specs.Columns.{names_of};
ghost use Rattle.plan_file_scan.specs.FileFrames.{parts_of, rows_in_turn, scan_frame, scan_values, values_in_turn as values_of_parts};
ghost use Rattle.plan_scan.specs.Sources.{sources_of};
ghost use Rattle.plan_value.specs.Shown.{column_shown, frame_of, schema_of, values_of};
ghost use Rattle.plan_file_tables.specs.Parts.{frames_found, parts_shown};

use crate::numbers::row_numbers;
use crate::parts::{Part, all_rows, append_values, full_parts, parts};
use plan_core::{DataType, FileScanOptions, Items, PlSmallStr, Schema};
use plan_scan::{HivePartitions, ScanSources};
use plan_table::{AnyValue, Column, Columns, Table};
use std::alloc::{AllocError, Global};

/// The values of a column in the rows of one source after another.
fn values_in_turn(
    alloc: Global,
    parts: &[Part<'_>],
    path: &Option<PlSmallStr>,
    name: &str,
) -> Result<Items<AnyValue>, AllocError>
    ensures { IfOk result (λ vs. values_of vs ≡ values_of_parts path.now (parts_shown parts.now) name.now) }
{
    let mut values = Items::new(alloc);
    for part in parts {
        append_values(alloc, &mut values, part, path, name)?;
    }
    Ok(values)
}

/// The values of a column: the numbers of the rows, counted over all sources, or what the sources have in turn.
fn column_values(
    alloc: Global,
    parts: &[Part<'_>],
    options: &FileScanOptions,
    rows: usize,
    name: &str,
) -> Result<Items<AnyValue>, AllocError>
    requires { rows ≡ rows_in_turn (parts_shown parts.now) }
    ensures { IfOk result (λ vs. values_of vs ≡ scan_values options.now (parts_shown parts.now) name.now) }
{
    if let Some(row) = &options.row_index {
        if name == row.name.as_str() {
            return row_numbers(alloc, row.offset, rows);
        }
    }
    values_in_turn(alloc, parts, &options.include_file_paths, name)
}

/// The column of a name, of this type.
fn scan_column(
    alloc: Global,
    parts: &[Part<'_>],
    options: &FileScanOptions,
    rows: usize,
    name: &str,
    dtype: DataType,
) -> Result<Column, AllocError>
    requires { rows ≡ rows_in_turn (parts_shown parts.now) }
    ensures shown { IfOk result (λ c. column_shown c ≡ record { name = name.now; values = scan_values options.now (parts_shown parts.now) name.now }) }
    ensures name { IfOk result (λ c. c.name ≡ name.now) }
    ensures dtype { IfOk result (λ c. c.dtype ≡ dtype) }
{
    Ok(Column {
        name: PlSmallStr::new(alloc, name)?,
        dtype,
        values: column_values(alloc, parts, options, rows, name)?,
    })
}

/// The table of sources, of which these columns are put out.
fn put_out(
    alloc: Global,
    parts: &[Part<'_>],
    options: &FileScanOptions,
    schema: &Schema,
) -> Result<Table, AllocError>
    ensures frame { IfOk result (λ t. frame_of t ≡ scan_frame (names_of schema.now) options.now (parts_shown parts.now)) }
    ensures types { IfOk result (λ t. schema_of t ≡ schema.now) }
{
    let height = all_rows(parts)?;
    let mut columns = Columns::new(alloc);
    for (name, dtype) in schema.iter() {
        columns.with_column(scan_column(alloc, parts, options, height, name, *dtype)?)?;
    }
    Ok(Table { height, columns })
}

/// The table of a scan of files, which puts out these columns in order: the rows of its sources one after another. Each
/// source has its hive columns, where parts are given, and its table, where it has one; without a table it has no rows.
/// The tables stand in the order of the sources; of more tables than sources, or more sources than tables, only the first
/// are taken. A column that numbers the rows counts them over all sources; a column that nothing gives is null. The types
/// are put out as they are told. It refuses where memory is short, and where the rows together are more than a `usize`
/// counts.
pub fn scan_table(
    alloc: Global,
    sources: &ScanSources,
    hive: &Option<Items<HivePartitions>>,
    options: &FileScanOptions,
    tables: &[Option<&Table>],
    columns: &Schema,
) -> Result<Table, AllocError>
    ensures frame { IfOk result (λ t. frame_of t ≡ scan_frame (names_of columns.now) options.now (parts_of hive.now (sources_of sources.now) (frames_found tables.now))) }
    ensures types { IfOk result (λ t. schema_of t ≡ columns.now) }
{
    let parts = parts(alloc, sources, hive, tables)?;
    let full = full_parts(alloc, parts.as_slice())?;
    Ok(put_out(alloc, full.as_slice(), options, columns)?)
}
