//! The columns of a scan: what it puts out are columns of its files, each put out once, and what it is told to read are columns that
//! a reader finds, each once; its stored columns are those of the files.
ghost use Rattle.std.specs.Prelude.{◌≡◌, ◌↔◌, [], ◌∷◌, length, suc, IsTrue};
ghost use Rattle.plan_core.specs.Columns.{Columns, HasDistinctNames};
ghost use Rattle.plan_files.specs.FileColumns.{file_columns as columns_of_files, hive_columns, row_columns};
ghost use Rattle.plan_frame.specs.Beside.{side_by_side};
ghost use Rattle.plan_frame.specs.Frames.{names_or};
ghost use Rattle.plan_meaning.specs.Typing.{columns_or, differ_checks, first_fault, scan_column_checks, scan_name_checks, scan_type_checks, schema_checks, Says};

use crate::scan_types::{check_own, check_put_out};
use plan_check_parts::{check_columns_known, columns_differ};
use plan_core::{FileScanOptions, Items, Node, PlSmallStr, PolarsError, PolarsResult, Schema};
use plan_files::{FileColumns, file_columns, parts_alike};
use plan_scan::HivePartitions;
use plan_schema::{at, check_names_known, check_names_new};
use std::alloc::Global;

/// The names that a scan is told to read; none where it is told none.
fn names_of(told: &Option<Items<PlSmallStr>>) -> &[PlSmallStr]
    ensures { result.now ≡ names_or told.now [] }
{
    match told {
        None => &[],
        Some(names) => names.as_slice(),
    }
}

/// The place of the first name that a scan is told to read, behind those of what it puts out.
fn told_place(output: &Option<Schema>) -> usize
    ensures { result ≡ suc (length (columns_or output.now [])) }
{
    match output {
        None => 1,
        Some(output) => 1 + output.len(),
    }
}

/// What the scan puts out are columns of the files, and then what it is told to read are columns that a reader finds, else
/// `SchemaFieldNotFound` at the name.
#[tactic(auto, using(plan_schema::proofs::CheckLemmas::fault_append), unfolding(plan_meaning::specs::Typing::scan_name_checks))]
fn check_names(
    node: Node,
    output: &Option<Schema>,
    told: &[PlSmallStr],
    file: &Schema,
    reader: &Schema,
) -> PolarsResult<()>
    ensures { Says result (first_fault node (scan_name_checks (columns_or output.now []) told.now file.now reader.now)) }
{
    match output {
        None => check_names_known(node, 1, told, reader),
        Some(output) => {
            check_columns_known(node, output, file)?;
            check_names_known(node, 1 + output.len(), told, reader)
        }
    }
}

/// The hive parts are alike, else `SchemaMismatch` at place 0; then what the scan puts out has the files' types and is read, and what
/// it is told to read are no hive columns.
#[tactic(auto, using(plan_schema::proofs::CheckLemmas::fault_append), unfolding(plan_meaning::specs::Typing::scan_type_checks))]
fn check_types(
    alloc: Global,
    node: Node,
    output: &Option<Schema>,
    options: &FileScanOptions,
    hive: &Option<Items<HivePartitions>>,
    reader: &Schema,
    file: &Schema,
) -> PolarsResult<()>
    ensures { Says result (first_fault node (scan_type_checks output.now options.now.with_columns hive.now (row_columns options.now.row_index) reader.now file.now)) }
{
    if !parts_alike(hive) {
        return Err(PolarsError::SchemaMismatch(at(node, 0)));
    }
    check_put_out(alloc, node, output, options, hive, reader, file)?;
    check_own(
        node,
        told_place(output),
        names_of(&options.with_columns),
        hive,
    )
}

/// No name comes twice among what is put out: by the law of schemas where the scan says what that is, else where no name comes twice
/// among the columns of the files; else `Duplicate` at place 0.
#[tactic(auto, using(crate::proofs::ScanLemmas::files_differ, crate::proofs::ScanLemmas::files_repeat))]
fn check_differ(node: Node, output: &Option<Schema>, differ: bool) -> PolarsResult<()>
    ensures { (files : Columns) → (IsTrue differ ↔ HasDistinctNames files) → Says result (first_fault node (differ_checks (columns_or output.now files))) }
{
    match output {
        None => {
            if differ {
                Ok(())
            } else {
                Err(PolarsError::Duplicate(at(node, 0)))
            }
        }
        Some(output) => {
            columns_differ(node, output);
            Ok(())
        }
    }
}

/// The stored columns are those of the files, and no two of these have one name; else `SchemaMismatch` at place 0.
#[tactic(auto, using(crate::proofs::ScanLemmas::files_stored, crate::proofs::ScanLemmas::files_apart, crate::proofs::ScanLemmas::files_twice))]
fn check_files(node: Node, stored: &Schema, file: &FileColumns) -> PolarsResult<()>
    ensures { (files : Columns) → file.now.schema ≡ side_by_side (files ∷ []) → (IsTrue file.now.differ ↔ HasDistinctNames files) → Says result (first_fault node (schema_checks stored.now files)) }
{
    if file.differ && *stored == file.schema {
        Ok(())
    } else {
        Err(PolarsError::SchemaMismatch(at(node, 0)))
    }
}

/// Checks the columns of a scan, in this order: `SchemaFieldNotFound` at what it puts out and is told to read where that isn't there;
/// `SchemaMismatch` at place 0 where its hive parts aren't alike, and at what it puts out and is told to read where that has another
/// type or isn't read from the files; `Duplicate` where a name comes twice; and `SchemaMismatch` at place 0 where its stored columns
/// aren't those of the files.
pub fn check_scan_columns(
    alloc: Global,
    node: Node,
    output: &Option<Schema>,
    stored: &Schema,
    reader: &Schema,
    hive: &Option<Items<HivePartitions>>,
    options: &FileScanOptions,
) -> PolarsResult<()>
    ensures { Says result (first_fault node (scan_column_checks output.now options.now.with_columns hive.now stored.now (row_columns options.now.row_index) reader.now (columns_of_files reader.now (hive_columns hive.now) options.now))) }
{
    let file = file_columns(alloc, reader, hive, options)?;
    let told = names_of(&options.with_columns);
    check_names(node, output, told, &file.schema, reader)?;
    check_types(alloc, node, output, options, hive, reader, &file.schema)?;
    check_differ(node, output, file.differ)?;
    check_names_new(alloc, node, told_place(output), told)?;
    check_files(node, stored, &file)
}
