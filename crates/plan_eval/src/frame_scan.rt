//! A scan of a frame gives the columns of the table that is handed in under its number; without a number it has no rows.
ghost use Rattle.std.specs.Prelude.{◌≡◌, [], IfOk};
ghost use Rattle.plan_file_tables.specs.Parts.{frame_found};
ghost use Rattle.plan_ir.specs.Plans.{frame_scan as frame_scan_op};
ghost use Rattle.plan_meaning.specs.Contents.{handed_in as handed_frame};
ghost use Rattle.plan_meaning.specs.Typing.{columns_or as columns_told};
ghost use Rattle.plan_function_tables.specs.Given.{Gives};
ghost use Rattle.plan_fit.specs.Sources.{contents_of};

use crate::stack::stack;
use plan_core::Schema;
use plan_table::{SourceKey, Table, Tables};
use std::alloc::{AllocError, Global};

/// The table that is handed in under a number, if there is one.
fn handed_in(df: Option<u32>, tables: &Tables) -> Option<&Table>
    ensures { frame_found result ≡ handed_frame (contents_of tables.now) df }
{
    match df {
        Some(number) => tables.get(&SourceKey::Frame(number)),
        None => None,
    }
}

/// The columns that are told, else the others.
fn columns_or<'a>(output: &'a Option<Schema>, schema: &'a Schema) -> &'a Schema
    ensures { result.now ≡ columns_told output.now schema.now }
{
    match output {
        Some(columns) => columns,
        None => schema,
    }
}

/// The table of the scan.
pub fn frame_scan(
    alloc: Global,
    df: Option<u32>,
    schema: &Schema,
    output: &Option<Schema>,
    tables: &Tables,
) -> Result<Table, AllocError>
    ensures { IfOk result (Gives tables.now (frame_scan_op df schema.now output.now) []) }
{
    let columns = columns_or(output, schema);
    match handed_in(df, tables) {
        Some(table) => Ok(stack(alloc, &[table], columns)?),
        None => Ok(stack(alloc, &[], columns)?),
    }
}
