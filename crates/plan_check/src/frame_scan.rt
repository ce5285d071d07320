//! A scan of a frame that is handed in: what it puts out are columns of the frame, with their types; without a number
//! there are none.
ghost use Rattle.std.specs.Prelude.{[], Some, None};
ghost use Rattle.plan_ir.specs.Plans.{frame_scan};
ghost use Rattle.plan_meaning.specs.Typing.{number_checks, frame_checks, first_fault, Says};
ghost use Rattle.plan_meaning.specs.Typed.{IsNodeTyped};

use plan_check_parts::{check_columns_known, check_columns_typed, columns_differ};
use plan_core::{Node, PolarsError, PolarsResult, Schema, TryClone};
use plan_schema::at;
use std::alloc::Global;

/// Without a number the frame has no columns.
#[tactic(auto, unfolding(plan_meaning::specs::Typing::number_checks))]
fn check_number(node: Node, df: Option<u32>, schema: &Schema) -> PolarsResult<()>
    ensures { Says result (first_fault node (number_checks df schema.now)) }
{
    if df.is_some() || schema.len() == 0 {
        Ok(())
    } else {
        Err(PolarsError::SchemaMismatch(at(node, 0)))
    }
}

/// What is put out are columns of the frame, with their types.
#[tactic(auto, using(plan_schema::proofs::CheckLemmas::fault_append), unfolding(plan_meaning::specs::Typing::frame_checks))]
fn check_put_out(node: Node, df: Option<u32>, schema: &Schema, output: &Schema) -> PolarsResult<()>
    ensures { Says result (first_fault node (frame_checks df schema.now (Some output.now))) }
{
    check_columns_known(node, output, schema)?;
    check_number(node, df, schema)?;
    check_columns_typed(node, output, schema)?;
    columns_differ(node, output);
    Ok(())
}

/// A scan of a frame that puts out all its columns: without a number there are none.
#[tactic(auto, using(plan_schema::proofs::CheckLemmas::fault_append), unfolding(plan_meaning::specs::Typing::frame_checks))]
fn check_all(node: Node, df: Option<u32>, schema: &Schema) -> PolarsResult<()>
    ensures { Says result (first_fault node (frame_checks df schema.now None)) }
{
    check_number(node, df, schema)?;
    columns_differ(node, schema);
    Ok(())
}

/// Checks a scan of the frame under a number. Refuses with `SchemaFieldNotFound` at the first column of `output` that
/// the frame lacks, the first one being at place 1; then with `SchemaMismatch` at place 0 where there are columns
/// without a number, or else at the first column of `output` that has another type in the frame.
pub fn check_frame_scan(
    node: Node,
    df: Option<u32>,
    schema: &Schema,
    output: &Option<Schema>,
) -> PolarsResult<()>
    ensures { Says result (first_fault node (frame_checks df schema.now output.now)) }
{
    match output {
        None => check_all(node, df, schema),
        Some(output) => check_put_out(node, df, schema, output),
    }
}

/// The columns of a scan of a frame, or its first fault.
pub fn frame_scan_schema(
    alloc: Global,
    node: Node,
    df: Option<u32>,
    schema: &Schema,
    output: &Option<Schema>,
) -> PolarsResult<Schema>
    ensures { IsNodeTyped result node (frame_scan df schema.now output.now) [] }
{
    check_frame_scan(node, df, schema, output)?;
    match output {
        Some(output) => Ok(output.try_clone(alloc)?),
        None => Ok(schema.try_clone(alloc)?),
    }
}
