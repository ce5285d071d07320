//! A scan gives the tables of its sources one after another, beside the numbers of its rows, its hive values and its paths.
ghost use Rattle.std.specs.Prelude.{◌≡◌, [], IfOk, true};
ghost use Rattle.std.specs.declared.option.Option.{Option as OptionType};
ghost use Rattle.plan_core.specs.Columns.{names_of};
ghost use Rattle.plan_expr.specs.Exprs.{Named};
ghost use Rattle.plan_file_tables.specs.Parts.{frames_found};
ghost use Rattle.plan_fit.specs.Sources.{contents_of};
ghost use Rattle.plan_ir.specs.Plans.{scan as scan_op};
ghost use Rattle.plan_meaning.specs.Contents.{frames_of};
ghost use Rattle.plan_meaning.specs.Functions.{all_differ};
ghost use Rattle.plan_meaning.specs.Typing.{columns_or, scan_columns};
ghost use Rattle.plan_scan.specs.declared.file_scan.FileScan.{FileScan};
ghost use Rattle.plan_function_tables.specs.Given.{Gives};

use plan_core::{FileScanOptions, Items, Schema};
use plan_file_tables::scan_table;
use plan_files::file_columns;
use plan_fit::table_of;
use plan_ir::FileInfo;
use plan_scan::{HivePartitions, ScanSources};
use plan_table::{Table, Tables};
use std::alloc::{AllocError, Global};

/// The tables of the sources in order, where they have one.
pub fn own_tables<'a>(
    alloc: Global,
    sources: &ScanSources,
    tables: &'a Tables,
) -> Result<Items<Option<&'a Table>>, AllocError>
    ensures { IfOk result (λ found. frames_found found ≡ frames_of (contents_of tables.now) sources.now) }
{
    let mut found = Items::new(alloc);
    for source in sources.iter() {
        found.push(table_of(source, tables))?;
    }
    Ok(found)
}

/// The columns of the files of a scan, which all differ.
fn all_columns(
    alloc: Global,
    info: &FileInfo,
    hive: &Option<Items<HivePartitions>>,
    options: &FileScanOptions,
) -> Result<Schema, AllocError>
    requires { all_differ (names_of (scan_columns info.now hive.now options.now)) ≡ true }
    ensures { IfOk result (λ columns. columns ≡ scan_columns info.now hive.now options.now) }
{
    match &info.reader_schema {
        Some(reader) => Ok(file_columns(alloc, reader, hive, options)?.schema),
        None => Ok(file_columns(alloc, &Schema::new(alloc), hive, options)?.schema),
    }
}

/// The table of the scan, which puts out no two columns of one name.
pub fn scan(
    alloc: Global,
    sources: &ScanSources,
    info: &FileInfo,
    hive: &Option<Items<HivePartitions>>,
    output: &Option<Schema>,
    options: &FileScanOptions,
    tables: &Tables,
) -> Result<Table, AllocError>
    requires { all_differ (names_of (columns_or output.now (scan_columns info.now hive.now options.now))) ≡ true }
    ensures { (predicate : OptionType Named) (kind : FileScan) → IfOk result (Gives tables.now (scan_op sources.now info.now hive.now predicate output.now kind options.now) []) }
{
    let found = own_tables(alloc, sources, tables)?;
    match output {
        Some(columns) => scan_table(alloc, sources, hive, options, found.as_slice(), columns),
        None => {
            let columns = all_columns(alloc, info, hive, options)?;
            scan_table(alloc, sources, hive, options, found.as_slice(), &columns)
        }
    }
}
