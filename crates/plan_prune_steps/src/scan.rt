//! A scan of files that is asked something reads what the asked names need, and puts these out alone. A projection to the asked names
//! goes on top where projections go on top. Asked nothing, a scan is unchanged.
ghost use Rattle.std.specs.Prelude.{◌≡◌, ◌<◌, IfOk, IsTrue, List, Some, length};
ghost use Rattle.plan_core.specs.Columns.{Columns};
ghost use Rattle.plan_expr.specs.declared.aexpr.AExpr.{AExpr};
ghost use Rattle.plan_file_tables.specs.declared.left.LeftScan.{LeftScan as LeftScanType};
ghost use Rattle.plan_file_scan.specs.Left.{in_file_order, left_options, left_output, left_parts};
ghost use Rattle.plan_ir.specs.declared.ir.IR.{IR};
ghost use Rattle.plan_ir.specs.declared.ir.IR.TheVariants.{Scan};
ghost use Rattle.plan_ir.specs.Parts.{is_file_scan};
ghost use Rattle.plan_pruned.specs.Pruned.{reads_left, scan_columns_left, typed_names};
ghost use Rattle.plan_prune_parts.specs.declared.step.Step.TheVariants.{Leaf};
ghost use Rattle.plan_prune_steps.specs.Steps.{step_of};

use plan_core::{FileScanOptions, Items, Names, Schema};
use plan_expr::ExprIR;
use plan_file_tables::{LeftScan, left_scan};
use plan_ir::{FileInfo, IR};
use plan_prune_parts::Step;
use plan_pruned::typed_columns;
use plan_scan::{FileScan, HivePartitions, ScanSources};
use std::alloc::{AllocError, Global};

/// What is left of a scan; where no reader has looked at its files, it finds no columns in them.
fn left(
    alloc: Global,
    kind: FileScan,
    asked: &Names,
    info: &FileInfo,
    hive_parts: Option<Items<HivePartitions>>,
    options: FileScanOptions,
) -> Result<LeftScan, AllocError>
    ensures hive_parts { IfOk result (λ l. l.hive_parts ≡ left_parts asked.now hive_parts) }
    ensures options { IfOk result (λ l. l.options ≡ left_options asked.now (reads_left asked.now info.now hive_parts kind options) options) }
    ensures columns { IfOk result (λ l. l.columns ≡ scan_columns_left asked.now info.now hive_parts kind options) }
    ensures output { IfOk result (λ l. l.output ≡ left_output (in_file_order kind hive_parts options) options.include_file_paths asked.now (scan_columns_left asked.now info.now hive_parts kind options)) }
{
    match &info.reader_schema {
        Some(reader) => left_scan(alloc, kind, asked, reader, hive_parts, options),
        None => left_scan(alloc, kind, asked, &Schema::new(alloc), hive_parts, options),
    }
}

/// The step of a scan that is asked something, by what is left of it and the asked columns. Refuses where there was no memory for these.
fn step_left(
    sources: ScanSources,
    reader_schema: Option<Schema>,
    predicate: Option<ExprIR>,
    scan_type: FileScan,
    left: Result<(LeftScan, Schema), AllocError>,
) -> Result<Step, AllocError>
    ensures { IfOk result (λ step. (l : LeftScanType × Columns) × (left ≡ Ok l) × (step ≡ Leaf (Some l.1) (Scan sources (record { schema = l.0.columns; reader_schema = reader_schema }) l.0.hive_parts predicate (Some l.0.output) scan_type l.0.options))) }
{
    match left {
        Ok((left, columns)) => Ok(Step::Leaf {
            columns: Some(columns),
            entry: IR::Scan {
                sources,
                file_info: FileInfo {
                    schema: left.columns,
                    reader_schema,
                },
                hive_parts: left.hive_parts,
                predicate,
                output_schema: Some(left.output),
                scan_type,
                file_options: left.options,
            },
        }),
        Err(error) => {
            drop(sources);
            drop(reader_schema);
            drop(predicate);
            Err(error)
        }
    }
}

/// What is left of a scan, and the asked columns with the types that they have there.
fn left_and_asked(
    alloc: Global,
    kind: FileScan,
    asked: &Names,
    info: &FileInfo,
    hive_parts: Option<Items<HivePartitions>>,
    options: FileScanOptions,
) -> Result<(LeftScan, Schema), AllocError>
    ensures hive_parts { IfOk result (λ l. l.0.hive_parts ≡ left_parts asked.now hive_parts) }
    ensures options { IfOk result (λ l. l.0.options ≡ left_options asked.now (reads_left asked.now info.now hive_parts kind options) options) }
    ensures columns { IfOk result (λ l. l.0.columns ≡ scan_columns_left asked.now info.now hive_parts kind options) }
    ensures output { IfOk result (λ l. l.0.output ≡ left_output (in_file_order kind hive_parts options) options.include_file_paths asked.now (scan_columns_left asked.now info.now hive_parts kind options)) }
    ensures asked { IfOk result (λ l. l.1 ≡ typed_names l.0.columns asked.now) }
{
    let left = left(alloc, kind, asked, info, hive_parts, options)?;
    match typed_columns(alloc, asked, &left.columns) {
        Ok(columns) => Ok((left, columns)),
        Err(error) => {
            drop(left);
            Err(error)
        }
    }
}

/// The step of a scan of files that is asked something.
fn prune(alloc: Global, scan: IR, asked: &Names) -> Result<Step, AllocError>
    requires kind { IsTrue (is_file_scan scan) }
    requires asked { 0 < length asked.now }
    ensures { IfOk result (λ step. (lp : List IR) (ex : List AExpr) → step ≡ step_of lp ex asked.now scan) }
{
    match scan {
        IR::Scan {
            sources,
            file_info,
            hive_parts,
            predicate,
            output_schema,
            scan_type,
            file_options,
        } => {
            drop(output_schema);
            let left = left_and_asked(
                alloc,
                scan_type,
                asked,
                &file_info,
                hive_parts,
                file_options,
            );
            drop(file_info.schema);
            step_left(sources, file_info.reader_schema, predicate, scan_type, left)
        }
        _ => unreachable!(),
    }
}

/// The step of a scan of files.
pub fn prepare(alloc: Global, scan: IR, asked: &Names) -> Result<Step, AllocError>
    requires { IsTrue (is_file_scan scan) }
    ensures { IfOk result (λ step. (lp : List IR) (ex : List AExpr) → step ≡ step_of lp ex asked.now scan) }
{
    if asked.len() == 0 {
        return Ok(Step::Leaf {
            columns: None,
            entry: scan,
        });
    }
    prune(alloc, scan, asked)
}
