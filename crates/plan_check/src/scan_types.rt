//! What a scan puts out has the files' types and is read where the first column of its name is read from the files, and what it is
//! told to read are no hive columns.
ghost use Rattle.std.specs.Prelude.{◌≡◌, ◌&&◌, [], not, option_map, IfOk};
ghost use Rattle.plan_core.specs.declared.error.PolarsError.TheVariants.{SchemaMismatch};
ghost use Rattle.plan_core.specs.Columns.{names_of};
ghost use Rattle.plan_core.specs.Names.{has, with_names};
ghost use Rattle.plan_files.specs.FileColumns.{hive_columns, plain_columns, row_columns};
ghost use Rattle.plan_files.specs.FileReads.{is_read as is_one_read, is_told as is_told_by};
ghost use Rattle.plan_meaning.specs.Checks.{each, is_column as is_one};
ghost use Rattle.plan_meaning.specs.Typing.{all_read as are_all_read, first_fault, is_number_or_read as is_one_shown, put_out_checks, Says};

use plan_core::{
    DataType, FileScanOptions, Items, Names, Node, PlSmallStr, PolarsError, PolarsResult, RowIndex,
    Schema,
};
use plan_files::is_hive;
use plan_scan::HivePartitions;
use plan_schema::{at, is_column, set_of};
use std::alloc::{AllocError, Global};

/// The names that a scan is told to read, as a set, where it is told some.
fn told_set(alloc: Global, told: &Option<Items<PlSmallStr>>) -> Result<Option<Names>, AllocError>
    ensures { IfOk result (λ set. set ≡ option_map (with_names []) told.now) }
{
    match told {
        None => Ok(None),
        Some(names) => Ok(Some(set_of(alloc, names.as_slice())?)),
    }
}

/// Whether the name is among those that are told; where none are told, each is.
fn is_told(told: &Option<Names>, name: &str) -> bool
    ensures { result ≡ is_told_by told.now name.now }
{
    match told {
        None => true,
        Some(names) => names.contains(name),
    }
}

/// Whether the name is read, where it is one of the columns that are read from the files: those that a reader finds but for hive
/// columns.
#[tactic(auto, using(crate::proofs::ReadLemmas::lacking_read))]
fn is_read(
    told: &Option<Names>,
    hive: &Option<Items<HivePartitions>>,
    reader: &Schema,
    name: &str,
) -> bool
    ensures { result ≡ is_one_read told.now (plain_columns reader.now (hive_columns hive.now)) name.now }
{
    match reader.get(name) {
        None => true,
        Some(_) => is_hive(hive, name) || is_told(told, name),
    }
}

/// Whether each column is read that a reader finds but for hive columns.
fn all_read(told: &Option<Names>, hive: &Option<Items<HivePartitions>>, reader: &Schema) -> bool
    ensures { result ≡ are_all_read told.now (plain_columns reader.now (hive_columns hive.now)) }
{
    for (name, _) in reader.iter() {
        if !is_hive(hive, name) && !is_told(told, name) {
            return false;
        }
    }
    true
}

/// Whether the name is that of the column that numbers the rows.
#[tactic(auto, using(crate::proofs::ReadLemmas::or_false))]
fn is_number(row: &Option<RowIndex>, name: &str) -> bool
    ensures { result ≡ has (names_of (row_columns row.now)) name.now }
{
    match row {
        None => false,
        Some(row) => name == row.name.as_str(),
    }
}

/// Whether the name is that of the column that numbers the rows, or is read, where it is one of the columns that are read from the
/// files.
fn is_number_or_read(
    row: &Option<RowIndex>,
    told: &Option<Names>,
    hive: &Option<Items<HivePartitions>>,
    reader: &Schema,
    name: &str,
) -> bool
    ensures { result ≡ is_one_shown (row_columns row.now) told.now (plain_columns reader.now (hive_columns hive.now)) name.now }
{
    is_number(row, name) || is_read(told, hive, reader, name)
}

/// Whether a scan can put out the column: it is one of the files', with that type, and is read where the first column of its name is
/// read from the files.
fn is_put_out(
    row: &Option<RowIndex>,
    told: &Option<Names>,
    hive: &Option<Items<HivePartitions>>,
    reader: &Schema,
    file: &Schema,
    name: &str,
    dtype: DataType,
) -> bool
    ensures { result ≡ (is_one file.now (name.now, dtype) && is_one_shown (row_columns row.now) told.now (plain_columns reader.now (hive_columns hive.now)) name.now) }
{
    is_column(file, name, dtype) && is_number_or_read(row, told, hive, reader, name)
}

/// Each column is one that a scan can put out, else `SchemaMismatch` at the column; the first one is at place 1.
fn check_outputs(
    node: Node,
    output: &Schema,
    row: &Option<RowIndex>,
    told: &Option<Names>,
    hive: &Option<Items<HivePartitions>>,
    reader: &Schema,
    file: &Schema,
) -> PolarsResult<()>
    ensures { Says result (first_fault node (each SchemaMismatch 1 (λ c. is_one file.now c && is_one_shown (row_columns row.now) told.now (plain_columns reader.now (hive_columns hive.now)) c.0) output.now)) }
{
    for i in 0..output.len() {
        if let Some((name, dtype)) = output.get_at_index(i) {
            if !is_put_out(row, told, hive, reader, file, name, *dtype) {
                return Err(PolarsError::SchemaMismatch(at(node, 1 + i)));
            }
        }
    }
    Ok(())
}

/// What is put out can be put out, where the set of the names that are told is this.
#[tactic(auto, unfolding(plan_meaning::specs::Typing::put_out_checks))]
fn check_put_out_of(
    node: Node,
    output: &Option<Schema>,
    row: &Option<RowIndex>,
    told: &Option<Names>,
    hive: &Option<Items<HivePartitions>>,
    reader: &Schema,
    file: &Schema,
) -> PolarsResult<()>
    ensures { Says result (first_fault node (put_out_checks output.now told.now (row_columns row.now) (plain_columns reader.now (hive_columns hive.now)) file.now)) }
{
    match output {
        None => {
            if all_read(told, hive, reader) {
                Ok(())
            } else {
                Err(PolarsError::SchemaMismatch(at(node, 0)))
            }
        }
        Some(output) => check_outputs(node, output, row, told, hive, reader, file),
    }
}

/// What the scan puts out has the files' types and is read where the first column of its name is read from the files, else
/// `SchemaMismatch` at the column; a scan that puts out everything reads all that is read from the files, else `SchemaMismatch` at
/// place 0.
#[tactic(auto, using(crate::proofs::ReadLemmas::put_out_same))]
pub fn check_put_out(
    alloc: Global,
    node: Node,
    output: &Option<Schema>,
    options: &FileScanOptions,
    hive: &Option<Items<HivePartitions>>,
    reader: &Schema,
    file: &Schema,
) -> PolarsResult<()>
    ensures { Says result (first_fault node (put_out_checks output.now options.now.with_columns (row_columns options.now.row_index) (plain_columns reader.now (hive_columns hive.now)) file.now)) }
{
    let told = told_set(alloc, &options.with_columns)?;
    check_put_out_of(node, output, &options.row_index, &told, hive, reader, file)
}

/// No name is that of a hive column, else `SchemaMismatch` at the name; the first one is at `place`.
pub fn check_own(
    node: Node,
    place: usize,
    told: &[PlSmallStr],
    hive: &Option<Items<HivePartitions>>,
) -> PolarsResult<()>
    ensures { Says result (first_fault node (each SchemaMismatch place (λ a. not (has (names_of (hive_columns hive.now)) a)) told.now)) }
{
    for (i, name) in told.iter().enumerate() {
        if is_hive(hive, name.as_str()) {
            return Err(PolarsError::SchemaMismatch(at(node, place.saturating_add(i))));
        }
    }
    Ok(())
}
