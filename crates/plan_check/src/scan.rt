//! A scan: it has a form that is built, and its columns are as they must be.
ghost use Rattle.std.specs.Prelude.{◌≡◌, ◌&&◌, [], length, option_map, IfOk};
ghost use Rattle.plan_expr.specs.Exprs.{named_at};
ghost use Rattle.plan_files.specs.HiveParts.{are_one_each};
ghost use Rattle.plan_ir.specs.Plans.{scan};
ghost use Rattle.plan_meaning.specs.Checks.{is_none};
ghost use Rattle.plan_meaning.specs.Typing.{columns_or, first_fault, scan_checks, Says};
ghost use Rattle.plan_meaning.specs.Typed.{IsNodeTyped};
ghost use Rattle.plan_scan.specs.declared.file_scan.FileScan.{FileScan};
ghost use Rattle.plan_scan.specs.Sources.{sources_of};

use crate::scan_columns::check_scan_columns;
use plan_core::{Arena, FileScanOptions, Items, Node, PolarsError, PolarsResult, Schema, TryClone};
use plan_expr::{AExpr, ExprIR};
use plan_ir::FileInfo;
use plan_scan::{HivePartitions, ScanSources};
use plan_schema::at;
use std::alloc::{AllocError, Global};

/// Whether there is a hive part for each of so many sources, and at least one, where parts are given.
fn is_one_each(hive: &Option<Items<HivePartitions>>, sources: usize) -> bool
    ensures { result ≡ are_one_each hive.now sources }
{
    match hive {
        None => true,
        Some(parts) => parts.len() != 0 && parts.len() == sources,
    }
}

/// Whether nothing is asked of a scan of so many sources that isn't built, neither a predicate nor a slice, and there is a hive part
/// for each source where parts are given.
fn is_plain(
    sources: usize,
    predicate: &Option<ExprIR>,
    hive: &Option<Items<HivePartitions>>,
    options: &FileScanOptions,
) -> bool
    ensures { result ≡ (is_none predicate.now && is_none options.now.slice && are_one_each hive.now sources) }
{
    predicate.is_none() && options.slice.is_none() && is_one_each(hive, sources)
}

/// Checks a scan, and refuses with its first fault: `InvalidOperation` at place 0 where it has a form that isn't built;
/// then those of its columns, of its `output` from place 1 on, and after them of the names that it is told to read.
/// Refuses where memory is short, too.
#[tactic(auto, unfolding(plan_meaning::specs::Typing::is_built_scan))]
pub fn check_scan(
    alloc: Global,
    node: Node,
    sources: &ScanSources,
    predicate: &Option<ExprIR>,
    output: &Option<Schema>,
    info: &FileInfo,
    hive_parts: &Option<Items<HivePartitions>>,
    options: &FileScanOptions,
    ex: &Arena<AExpr>,
) -> PolarsResult<()>
    ensures { Says result (first_fault node (scan_checks (length (sources_of sources.now)) (option_map (named_at ex.now) predicate.now) output.now info.now hive_parts.now options.now)) }
{
    let _ = ex;
    match &info.reader_schema {
        Some(reader) if is_plain(sources.len(), predicate, hive_parts, options) => {
            check_scan_columns(
                alloc,
                node,
                output,
                &info.schema,
                reader,
                hive_parts,
                options,
            )
        }
        _ => Err(PolarsError::InvalidOperation(at(node, 0))),
    }
}

/// The columns of a scan: what it puts out, where it says so, else those that are stored.
fn output_columns(
    alloc: Global,
    output: &Option<Schema>,
    stored: &Schema,
) -> Result<Schema, AllocError>
    ensures { IfOk result (λ s. s ≡ columns_or output.now stored.now) }
{
    match output {
        Some(output) => output.try_clone(alloc),
        None => stored.try_clone(alloc),
    }
}

/// The columns of a scan, or its first fault.
pub fn scan_schema(
    alloc: Global,
    node: Node,
    sources: &ScanSources,
    predicate: &Option<ExprIR>,
    output: &Option<Schema>,
    info: &FileInfo,
    hive_parts: &Option<Items<HivePartitions>>,
    options: &FileScanOptions,
    ex: &Arena<AExpr>,
) -> PolarsResult<Schema>
    ensures { (kind : FileScan) → IsNodeTyped result node (scan sources.now info.now hive_parts.now (option_map (named_at ex.now) predicate.now) output.now kind options.now) [] }
{
    check_scan(
        alloc, node, sources, predicate, output, info, hive_parts, options, ex,
    )?;
    Ok(output_columns(alloc, output, &info.schema)?)
}
