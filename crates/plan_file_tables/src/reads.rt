//! Which columns a scan reads from its files for what it is asked: of these the asked ones. Where only the numbers and the paths of
//! its rows are asked, a scan of a text format reads the first of the columns that it read, so that it sees the rows.
ghost use Rattle.std.specs.Prelude.{◌≡◌, IfOk};
ghost use Rattle.plan_files.specs.FileColumns.{hive_columns, read_names};
ghost use Rattle.plan_files.specs.FileReads.{first_alone as first_of, left_names as left_names_of, own_names as own_names_of, stand_in as stand_in_of};

use crate::names::{all_counted, is_counted};
use plan_core::{FileScanOptions, Items, PlSmallStr, Schema, TryClone};
use plan_files::{is_hive, plain_names};
use plan_scan::{FileScan, HivePartitions};
use std::alloc::{AllocError, Global};

/// The asked names that are read from the files.
fn own_names(
    alloc: Global,
    asked: &[PlSmallStr],
    hive: &Option<Items<HivePartitions>>,
    options: &FileScanOptions,
) -> Result<Items<PlSmallStr>, AllocError>
    ensures { IfOk result (λ names. names ≡ own_names_of asked.now (hive_columns hive.now) options.now) }
{
    let mut names = Items::new(alloc);
    for name in asked {
        if !is_counted(options, name.as_str()) && !is_hive(hive, name.as_str()) {
            names.push(name.try_clone(alloc)?)?;
        }
    }
    Ok(names)
}

/// The first of some names, alone; none where there is none.
fn first_alone(alloc: Global, names: &[PlSmallStr]) -> Result<Items<PlSmallStr>, AllocError>
    ensures { IfOk result (λ first. first ≡ first_of names.now) }
{
    let mut first = Items::new(alloc);
    if let Some(name) = names.first() {
        first.push(name.try_clone(alloc)?)?;
    }
    Ok(first)
}

/// The first of the columns that a scan reads from its files, alone: of those that it is told, else of those that its reader finds and
/// that are no hive columns; none where there is none.
fn first_read(
    alloc: Global,
    reader: &Schema,
    hive: &Option<Items<HivePartitions>>,
    told: &Option<Items<PlSmallStr>>,
) -> Result<Items<PlSmallStr>, AllocError>
    ensures { IfOk result (λ names. names ≡ first_of (read_names told.now reader.now (hive_columns hive.now))) }
{
    match told {
        Some(names) => first_alone(alloc, names.as_slice()),
        None => first_alone(alloc, plain_names(alloc, reader, hive)?.as_slice()),
    }
}

/// What a scan reads so that it sees its rows: of a text format the first column that it read.
fn stand_in(
    alloc: Global,
    kind: FileScan,
    reader: &Schema,
    hive: &Option<Items<HivePartitions>>,
    told: &Option<Items<PlSmallStr>>,
) -> Result<Items<PlSmallStr>, AllocError>
    ensures { IfOk result (λ names. names ≡ stand_in_of kind (read_names told.now reader.now (hive_columns hive.now))) }
{
    match kind {
        FileScan::Csv | FileScan::NDJson => first_read(alloc, reader, hive, told),
        FileScan::Parquet | FileScan::Ipc => Ok(Items::new(alloc)),
    }
}

/// The names that a scan reads from its files which is asked some.
pub(crate) fn left_names(
    alloc: Global,
    kind: FileScan,
    asked: &[PlSmallStr],
    reader: &Schema,
    hive: &Option<Items<HivePartitions>>,
    options: &FileScanOptions,
) -> Result<Items<PlSmallStr>, AllocError>
    ensures { IfOk result (λ names. names ≡ left_names_of kind asked.now (read_names options.now.with_columns reader.now (hive_columns hive.now)) (hive_columns hive.now) options.now) }
{
    if all_counted(options, asked) {
        return stand_in(alloc, kind, reader, hive, &options.with_columns);
    }
    own_names(alloc, asked, hive, options)
}
