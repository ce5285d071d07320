//! What is left of a scan of files that is asked some names.
ghost use Rattle.std.specs.Prelude.{◌≡◌, [], ◌∷◌, IfOk, OnOk};
ghost use Rattle.plan_core.specs.Names.{AreDistinct};
ghost use Rattle.plan_file_scan.specs.Left.{columns_left, in_file_order as is_in_file_order, left_options as options_left, left_output as output_left, left_parts as parts_left, left_path as path_left, left_row as row_left};
ghost use Rattle.plan_files.specs.FileColumns.{file_columns as file_columns_of, hive_columns, read_names};
ghost use Rattle.plan_files.specs.FileReads.{left_names as names_left};
ghost use Rattle.plan_frame.specs.Beside.{side_by_side};

use crate::hive::left_parts;
use crate::names::listed;
use crate::output::left_output;
use crate::reads::left_names;
use plan_core::{FileScanOptions, Items, Names, PlSmallStr, RowIndex, Schema, TryClone};
use plan_files::file_columns;
use plan_scan::{FileScan, HivePartitions};
use std::alloc::{AllocError, Global};

/// What is left of a scan of files that is asked some names.
#[derive(Drop)]
pub struct LeftScan {
    /// The columns that it can put out, in order: the one that numbers the rows, those that its reader finds with their hive types,
    /// the asked hive columns that it doesn't find, and the one with the paths. The first and the last are there where they are asked.
    pub columns: Schema,
    /// The asked hive columns of each source, where parts are given.
    pub hive_parts: Option<Items<HivePartitions>>,
    /// The asked columns that it puts out: in the order of `columns`, or as they are asked, but the paths last.
    pub output: Schema,
    /// The options: which columns are read from the files, and the columns that number the rows and have their paths where they are asked.
    pub options: FileScanOptions,
}

/// The column that numbers the rows where it is asked.
fn left_row(asked: &Names, row: Option<RowIndex>) -> Option<RowIndex>
    ensures { result ≡ row_left asked.now row }
{
    let row = row?;
    if asked.contains(row.name.as_str()) {
        Some(row)
    } else {
        None
    }
}

/// The column with the paths where it is asked.
fn left_path(asked: &Names, path: Option<PlSmallStr>) -> Option<PlSmallStr>
    ensures { result ≡ path_left asked.now path }
{
    let name = path?;
    if asked.contains(name.as_str()) {
        Some(name)
    } else {
        None
    }
}

/// Leaves of the options of a scan what it needs that is asked these names and reads those.
fn leave_options(asked: &Names, reads: Items<PlSmallStr>, options: &mut FileScanOptions)
    ensures { options.new ≡ options_left asked.now reads options.old }
{
    options.with_columns = Some(reads);
    options.row_index = left_row(asked, options.row_index.take());
    options.include_file_paths = left_path(asked, options.include_file_paths.take());
}

/// Finds what a scan reads for these names, and leaves of its options what it needs then.
fn narrow_options(
    alloc: Global,
    kind: FileScan,
    asked: &Names,
    names: &[PlSmallStr],
    reader: &Schema,
    hive: &Option<Items<HivePartitions>>,
    options: &mut FileScanOptions,
) -> Result<(), AllocError>
    requires { names.now ≡ asked.now }
    ensures { OnOk result (options.new ≡ options_left asked.now (names_left kind asked.now (read_names options.old.with_columns reader.now (hive_columns hive.now)) (hive_columns hive.now) options.old) options.old) }
{
    let reads = left_names(alloc, kind, names, reader, hive, options)?;
    leave_options(asked, reads, options);
    Ok(())
}

/// Whether a scan puts out its columns in the order of its files: of Csv, of Ipc whose rows are numbered, and with hive parts.
fn in_file_order(
    kind: FileScan,
    hive: &Option<Items<HivePartitions>>,
    options: &FileScanOptions,
) -> bool
    ensures { result ≡ is_in_file_order kind hive.now options.now }
{
    kind.sort_projection(options) || hive.is_some()
}

/// What is left of a scan of files but for its options.
#[derive(Drop)]
struct LeftColumns {
    columns: Schema,
    hive_parts: Option<Items<HivePartitions>>,
    output: Schema,
}

/// The columns of what is left of a scan with these options that is asked some names, and what it puts out of them. `path` is the
/// column with the paths that the scan had.
fn left_columns(
    alloc: Global,
    in_order: bool,
    asked: &Names,
    names: &[PlSmallStr],
    reader: &Schema,
    hive: &Option<Items<HivePartitions>>,
    path: &Option<PlSmallStr>,
    options: &FileScanOptions,
) -> Result<LeftColumns, AllocError>
    requires names { names.now ≡ asked.now }
    requires once { AreDistinct names.now }
    ensures hive_parts { IfOk result (λ left. left.hive_parts ≡ parts_left asked.now hive.now) }
    ensures columns { IfOk result (λ left. left.columns ≡ side_by_side (file_columns_of reader.now (hive_columns (parts_left asked.now hive.now)) options.now ∷ [])) }
    ensures output { IfOk result (λ left. left.output ≡ output_left in_order path.now asked.now left.columns) }
{
    let hive_parts = left_parts(alloc, asked, hive)?;
    let columns = file_columns(alloc, reader, &hive_parts, options)?.schema;
    let output = left_output(alloc, in_order, path, asked, names, &columns)?;
    Ok(LeftColumns {
        columns,
        hive_parts,
        output,
    })
}

/// Leaves of the options of a scan what it needs that is asked some names, and gives what else is left of it.
fn leave(
    alloc: Global,
    kind: FileScan,
    asked: &Names,
    reader: &Schema,
    hive: &Option<Items<HivePartitions>>,
    options: &mut FileScanOptions,
) -> Result<LeftColumns, AllocError>
    ensures hive_parts { IfOk result (λ left. left.hive_parts ≡ parts_left asked.now hive.now) }
    ensures options { OnOk result (options.new ≡ options_left asked.now (names_left kind asked.now (read_names options.old.with_columns reader.now (hive_columns hive.now)) (hive_columns hive.now) options.old) options.old) }
    ensures columns { IfOk result (λ left. left.columns ≡ side_by_side (columns_left asked.now (names_left kind asked.now (read_names options.old.with_columns reader.now (hive_columns hive.now)) (hive_columns hive.now) options.old) reader.now hive.now options.old ∷ [])) }
    ensures output { IfOk result (λ left. left.output ≡ output_left (is_in_file_order kind hive.now options.old) options.old.include_file_paths asked.now left.columns) }
{
    let in_order = in_file_order(kind, hive, options);
    let path = options.include_file_paths.try_clone(alloc)?;
    let names = listed(alloc, asked)?;
    narrow_options(alloc, kind, asked, names.as_slice(), reader, hive, options)?;
    left_columns(
        alloc,
        in_order,
        asked,
        names.as_slice(),
        reader,
        hive,
        &path,
        options,
    )
}

/// What is left of a scan of files of this kind, with these hive parts and options, that is asked some names: `reader` are the columns
/// that a reader finds in the files. It refuses only where memory is short.
pub fn left_scan(
    alloc: Global,
    kind: FileScan,
    asked: &Names,
    reader: &Schema,
    hive_parts: Option<Items<HivePartitions>>,
    options: FileScanOptions,
) -> Result<LeftScan, AllocError>
    ensures hive_parts { IfOk result (λ left. left.hive_parts ≡ parts_left asked.now hive_parts) }
    ensures options { IfOk result (λ left. left.options ≡ options_left asked.now (names_left kind asked.now (read_names options.with_columns reader.now (hive_columns hive_parts)) (hive_columns hive_parts) options) options) }
    ensures columns { IfOk result (λ left. left.columns ≡ side_by_side (columns_left asked.now (names_left kind asked.now (read_names options.with_columns reader.now (hive_columns hive_parts)) (hive_columns hive_parts) options) reader.now hive_parts options ∷ [])) }
    ensures output { IfOk result (λ left. left.output ≡ output_left (is_in_file_order kind hive_parts options) options.include_file_paths asked.now left.columns) }
{
    let mut options = options;
    let left = leave(alloc, kind, asked, reader, &hive_parts, &mut options);
    drop(hive_parts);
    let left = left?;
    Ok(LeftScan {
        columns: left.columns,
        hive_parts: left.hive_parts,
        output: left.output,
        options,
    })
}
