//! What scans read from their files.
ghost use Rattle.std.specs.Prelude.{◌≡◌, [], IfOk, IsTrue, OnOk};
ghost use Rattle.plan_core.specs.Columns.{names_of};
ghost use Rattle.plan_ir.specs.Reads.{is_scan, once, names_read, reads_of, scan_reads_of};

use plan_core::{FileScanOptions, Items, Names, Node, PlSmallStr, Schema};
use plan_files::plain_names;
use plan_ir::{FileInfo, HivePartitions, IR, PlanCopy};
use std::alloc::{AllocError, Global};

/// The names, each once, in the order in which they first come.
fn each_once(alloc: Global, names: &[PlSmallStr]) -> Result<Items<PlSmallStr>, AllocError>
    ensures { IfOk result (λ kept. kept ≡ once names.now) }
{
    let mut met = Names::new(alloc);
    let mut kept = Items::new(alloc);
    add_new(alloc, names, &mut met, &mut kept)?;
    Ok(kept)
}

/// Adds the names that were not met before, each once, in the order in which they first come.
fn add_new(
    alloc: Global,
    names: &[PlSmallStr],
    met: &mut Names,
    kept: &mut Items<PlSmallStr>,
) -> Result<(), AllocError>
    requires met { met.old ≡ [] }
    requires kept { kept.old ≡ [] }
    ensures { OnOk result (kept.new ≡ once names.now) }
{
    for name in names {
        if met.add(name.as_str())? {
            kept.push(PlSmallStr::new(alloc, name.as_str())?)?;
        }
    }
    Ok(())
}

/// The names of the columns, in order.
fn column_names(alloc: Global, schema: &Schema) -> Result<Items<PlSmallStr>, AllocError>
    ensures { IfOk result (λ names. names ≡ names_of schema.now) }
{
    let mut names = Items::new(alloc);
    for (name, _) in schema.iter() {
        names.push(PlSmallStr::new(alloc, name)?)?;
    }
    Ok(names)
}

/// The names of the columns that a scan reads from its files.
fn file_reads(
    alloc: Global,
    info: &FileInfo,
    hive: &Option<Items<HivePartitions>>,
    options: &FileScanOptions,
) -> Result<Items<PlSmallStr>, AllocError>
    ensures { IfOk result (λ names. names ≡ names_read info.now hive.now options.now) }
{
    match (&options.with_columns, &info.reader_schema) {
        (Some(names), _) => each_once(alloc, names.as_slice()),
        (None, Some(schema)) => plain_names(alloc, schema, hive),
        (None, None) => Ok(Items::new(alloc)),
    }
}

/// The names of the columns that a scan reads, each once. From files those that `with_columns` asks for, in its order,
/// or else all that a reader finds but for hive columns; from a frame those that it puts out. Refuses for want of memory alone.
pub fn reads(alloc: Global, ir: &IR) -> Result<Items<PlSmallStr>, AllocError>
    requires { IsTrue (is_scan ir.now) }
    ensures { IfOk result (λ names. names ≡ reads_of ir.now) }
{
    match ir {
        IR::Scan {
            file_info,
            hive_parts,
            file_options,
            ..
        } => file_reads(alloc, file_info, hive_parts, file_options),
        IR::DataFrameScan {
            schema,
            output_schema,
            ..
        } => match output_schema {
            Some(output) => column_names(alloc, output),
            None => column_names(alloc, schema),
        },
        _ => unreachable!(),
    }
}

/// What each scan of a plan reads, in the order of its nodes. In a plan that is numbered in walk order that is from
/// left to right. Refuses for want of memory alone.
pub fn scan_reads(alloc: Global, plan: &PlanCopy) -> Result<Items<Items<PlSmallStr>>, AllocError>
    ensures { IfOk result (λ lists. lists ≡ scan_reads_of plan.now.lp) }
{
    let mut lists = Items::new(alloc);
    for i in 0..plan.lp.len() {
        let node = plan.lp.get(Node(i));
        if node.is_scan() {
            lists.push(reads(alloc, node)?)?;
        }
    }
    Ok(lists)
}
