//! The columns of files, in order.
ghost use Rattle.std.specs.Prelude.{◌≡◌, ◌↔◌, ◌∷◌, [], map, IfOk, IsTrue, OnOk};
ghost use Rattle.plan_core.specs.Columns.{HasDistinctNames};
ghost use Rattle.plan_frame.specs.Beside.{side_by_side};
ghost use Rattle.plan_files.specs.FileColumns.{file_columns as columns_of_files, found_column, hive_columns, lacking, path_columns, row_columns, with_all, with_next};

use crate::hive::hive_schema;
use plan_core::{DataType, FileScanOptions, Items, PlSmallStr, RowIndex, Schema};
use plan_scan::HivePartitions;
use std::alloc::{AllocError, Global};

/// The columns of files.
#[derive(Drop)]
pub struct FileColumns {
    /// The columns in order, of each name the first.
    pub schema: Schema,
    /// Whether no name comes twice.
    pub differ: bool,
}

/// Adds a column, unless there is one of its name.
#[tactic(auto, using(crate::proofs::AddedLemmas::next_there, crate::proofs::AddedLemmas::next_new))]
fn add(
    alloc: Global,
    columns: &mut FileColumns,
    name: &str,
    dtype: DataType,
) -> Result<(), AllocError>
    ensures { OnOk result (columns.new ≡ with_next columns.old (name.now, dtype)) }
{
    match columns.schema.get(name) {
        Some(_) => columns.differ = false,
        None => {
            let name = PlSmallStr::new(alloc, name)?;
            columns.schema.with_column(name, dtype)?;
        }
    }
    Ok(())
}

/// Adds the column that numbers the rows, where there is one.
fn add_row(
    alloc: Global,
    columns: &mut FileColumns,
    row_index: &Option<RowIndex>,
) -> Result<(), AllocError>
    ensures { OnOk result (columns.new ≡ with_all columns.old (row_columns row_index.now)) }
{
    match row_index {
        None => Ok(()),
        Some(row) => add(alloc, columns, row.name.as_str(), DataType::Int64),
    }
}

/// The type of a column that a reader finds: its hive type where it is a hive column.
fn found_type(hive: &Option<Items<HivePartitions>>, name: &str, dtype: DataType) -> DataType
    ensures { (name.now, result) ≡ found_column (hive_columns hive.now) (name.now, dtype) }
{
    match hive_schema(hive) {
        None => dtype,
        Some(columns) => match columns.get(name) {
            None => dtype,
            Some(own) => *own,
        },
    }
}

/// Adds the columns that a reader finds, with their hive types.
fn add_found(
    alloc: Global,
    columns: &mut FileColumns,
    reader: &Schema,
    hive: &Option<Items<HivePartitions>>,
) -> Result<(), AllocError>
    ensures { OnOk result (columns.new ≡ with_all columns.old (map (found_column (hive_columns hive.now)) reader.now)) }
{
    for (name, dtype) in reader.iter() {
        add(alloc, columns, name, found_type(hive, name, *dtype))?;
    }
    Ok(())
}

/// Adds the columns that a reader doesn't find.
#[tactic(auto, using(crate::proofs::FileLemmas::known_there, crate::proofs::FileLemmas::known_none))]
fn add_others(
    alloc: Global,
    columns: &mut FileColumns,
    reader: &Schema,
    hive: &Schema,
) -> Result<(), AllocError>
    ensures { OnOk result (columns.new ≡ with_all columns.old (lacking reader.now hive.now)) }
{
    for (name, dtype) in hive.iter() {
        match reader.get(name) {
            Some(_) => {}
            None => add(alloc, columns, name, *dtype)?,
        }
    }
    Ok(())
}

/// Adds the hive columns that a reader doesn't find.
fn add_lacking(
    alloc: Global,
    columns: &mut FileColumns,
    reader: &Schema,
    hive: &Option<Items<HivePartitions>>,
) -> Result<(), AllocError>
    ensures { OnOk result (columns.new ≡ with_all columns.old (lacking reader.now (hive_columns hive.now))) }
{
    match hive_schema(hive) {
        None => Ok(()),
        Some(hive) => add_others(alloc, columns, reader, hive),
    }
}

/// Adds the column with the path of each row, where there is one.
fn add_path(
    alloc: Global,
    columns: &mut FileColumns,
    path: &Option<PlSmallStr>,
) -> Result<(), AllocError>
    ensures { OnOk result (columns.new ≡ with_all columns.old (path_columns path.now)) }
{
    match path {
        None => Ok(()),
        Some(name) => add(alloc, columns, name.as_str(), DataType::String),
    }
}

/// Adds the columns of files, in order.
#[tactic(auto, using(crate::proofs::AddedLemmas::added_append))]
fn add_all(
    alloc: Global,
    columns: &mut FileColumns,
    reader: &Schema,
    hive: &Option<Items<HivePartitions>>,
    options: &FileScanOptions,
) -> Result<(), AllocError>
    ensures { OnOk result (columns.new ≡ with_all columns.old (columns_of_files reader.now (hive_columns hive.now) options.now)) }
{
    add_row(alloc, columns, &options.row_index)?;
    add_found(alloc, columns, reader, hive)?;
    add_lacking(alloc, columns, reader, hive)?;
    add_path(alloc, columns, &options.include_file_paths)
}

/// The columns of files in order, of each name the first, and whether no name comes twice: the one that numbers the rows, those that
/// a reader finds with their hive types, the hive columns that it doesn't find, and the one with the path of each row. It refuses
/// only where memory is short.
#[tactic(auto, using(crate::proofs::AddedLemmas::added_firsts, crate::proofs::AddedLemmas::added_differ))]
pub fn file_columns(
    alloc: Global,
    reader: &Schema,
    hive: &Option<Items<HivePartitions>>,
    options: &FileScanOptions,
) -> Result<FileColumns, AllocError>
    ensures columns { IfOk result (λ f. f.schema ≡ side_by_side (columns_of_files reader.now (hive_columns hive.now) options.now ∷ [])) }
    ensures differ { IfOk result (λ f. IsTrue f.differ ↔ HasDistinctNames (columns_of_files reader.now (hive_columns hive.now) options.now)) }
{
    let mut columns = FileColumns {
        schema: Schema::new(alloc),
        differ: true,
    };
    add_all(alloc, &mut columns, reader, hive, options)?;
    Ok(columns)
}
