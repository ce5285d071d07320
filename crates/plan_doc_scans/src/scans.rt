//! The readers of scans.
ghost use Rattle.serde_json.specs.View.{view};
ghost use Rattle.plan_doc_parts.specs.Gives.{Gives, Shows};
ghost use Rattle.plan_doc_parts.specs.Members.{at, object_of};
ghost use Rattle.plan_doc_parts.specs.Parts.{nullable};
ghost use Rattle.plan_doc_scans.specs.Scans.{kind_of, paths_of, buffers_of, sources_of, files_of, file_info_of, row_index_of, beside_of, file_options_of, read_of, given_of, held_of, scan_keys, scan_of, frame_scan_of};

use crate::hive::optional_hive_parts_at;
use plan_core::{FileScanOptions, Items, PlSmallStr, RowIndex, Schema};
use plan_doc_parts::{
    Fault, columns_at, field, name, names_at, number, numbers_at, object, optional_columns_at,
    optional_name_at, optional_names_at, optional_number_at, optional_output_at, optional_slice_at,
    read, text, truth_at, two,
};
use plan_expr::ExprIR;
use plan_ir::{FileInfo, FileScan, IR, ScanSources};
use plan_scan::HivePartitions;
use serde_json::Value;
use std::alloc::Global;

/// The file format of a name.
#[tactic(auto, unfolding(crate::specs::Scans::kind_of))]
fn kind(value: &Value) -> Result<FileScan, Fault>
    ensures { Gives result (kind_of (view value.now)) }
{
    match read!(text(value)) {
        "Csv" => Ok(FileScan::Csv),
        "NDJson" => Ok(FileScan::NDJson),
        "Parquet" => Ok(FileScan::Parquet),
        "Ipc" => Ok(FileScan::Ipc),
        _ => Err(Fault::Form),
    }
}

/// The paths of an object.
#[tactic(auto, unfolding(crate::specs::Scans::paths_of))]
fn paths(alloc: Global, value: &Value) -> Result<ScanSources, Fault>
    ensures { Gives result (paths_of (view value.now)) }
{
    let object = read!(object(value, &["paths"]));
    let paths = read!(names_at(alloc, object, "paths"));
    Ok(ScanSources::Paths(paths))
}

/// The numbers of buffers of an object.
#[tactic(auto, unfolding(crate::specs::Scans::buffers_of))]
fn buffers(alloc: Global, value: &Value) -> Result<ScanSources, Fault>
    ensures { Gives result (buffers_of (view value.now)) }
{
    let object = read!(object(value, &["buffers"]));
    let numbers = read!(numbers_at(alloc, object, "buffers"));
    Ok(ScanSources::Buffers(numbers))
}

/// The sources of a scan: the paths or the buffers of an object of one key.
fn sources(alloc: Global, value: &Value) -> Result<ScanSources, Fault>
    ensures { Gives result (sources_of (view value.now)) }
{
    if value.get("buffers").is_some() {
        return buffers(alloc, value);
    }
    paths(alloc, value)
}

/// Where the rows are, and the format of the files.
#[tactic(auto, unfolding(crate::specs::Scans::files_of))]
pub fn files(alloc: Global, object: &Value) -> Result<(ScanSources, FileScan), Fault>
    ensures { Gives result (files_of (view object.now)) }
{
    let kind = read!(kind(read!(field(object, "kind"))));
    let sources = read!(sources(alloc, read!(field(object, "sources"))));
    Ok((sources, kind))
}

/// The columns of a scan's files, from the object of the scan.
#[tactic(auto, unfolding(crate::specs::Scans::file_info_of))]
fn file_info(alloc: Global, object: &Value) -> Result<FileInfo, Fault>
    ensures { Gives result (file_info_of (view object.now)) }
{
    let schema = read!(columns_at(alloc, object, "schema"));
    let reader_schema = read!(optional_columns_at(alloc, object, "reader"));
    Ok(FileInfo {
        schema,
        reader_schema,
    })
}

/// The name of the column that numbers the rows, and the number of the first row.
#[tactic(auto, using(plan_doc_parts::proofs::NoneLemmas::bind_none), unfolding(crate::specs::Scans::row_index_of))]
fn row_index(alloc: Global, value: &Value) -> Result<RowIndex, Fault>
    ensures { Gives result (row_index_of (view value.now)) }
{
    let (name_value, offset_value) = read!(two(value));
    let offset = read!(number(offset_value));
    let name = read!(name(alloc, name_value));
    Ok(RowIndex { name, offset })
}

/// Under a key null, or the column that numbers the rows.
#[tactic(auto, using(plan_doc_parts::proofs::NullLemmas::nullable_null, plan_doc_parts::proofs::NullLemmas::nullable_other), unfolding(plan_doc_parts::specs::Members::at))]
fn optional_row_index_at(
    alloc: Global,
    object: &Value,
    key: &str,
) -> Result<Option<RowIndex>, Fault>
    ensures { Gives result (at key.now (nullable row_index_of) (view object.now)) }
{
    let value = read!(field(object, key));
    if value.is_null() {
        return Ok(None);
    }
    Ok(Some(read!(row_index(alloc, value))))
}

/// What a scan puts beside the columns of its files: the column that numbers the rows, and the name of one with the path of
/// each row.
#[tactic(auto, unfolding(crate::specs::Scans::beside_of, plan_doc_parts::specs::Members::at))]
fn beside(alloc: Global, object: &Value) -> Result<(Option<RowIndex>, Option<PlSmallStr>), Fault>
    ensures { Gives result (beside_of (view object.now)) }
{
    let row_index = read!(optional_row_index_at(alloc, object, "row_index"));
    let path_column = read!(optional_name_at(alloc, object, "path_column"));
    Ok((row_index, path_column))
}

/// The options of a scan, from the object of the scan; those that a document can't say are the default ones.
#[tactic(auto, using(plan_doc_parts::proofs::NoneLemmas::bind_none), unfolding(crate::specs::Scans::file_options_of))]
fn file_options(alloc: Global, object: &Value) -> Result<FileScanOptions, Fault>
    ensures { Gives result (file_options_of (view object.now)) }
{
    let rechunk = read!(truth_at(object, "rechunk"));
    let slice = read!(optional_slice_at(object, "slice"));
    let with_columns = read!(optional_names_at(alloc, object, "columns"));
    let (row_index, include_file_paths) = read!(beside(alloc, object));
    Ok(FileScanOptions {
        slice,
        with_columns,
        row_index,
        rechunk,
        include_file_paths,
        ..FileScanOptions::default()
    })
}

/// An object with the keys of a scan and no other.
#[tactic(auto, unfolding(crate::specs::Scans::scan_keys))]
fn scan_object(value: &Value) -> Result<&Value, Fault>
    ensures { Shows (λ v. view v.now) result (object_of scan_keys (view value.now)) }
{
    object(
        value,
        &[
            "columns",
            "hive",
            "kind",
            "op",
            "output",
            "path_column",
            "predicate",
            "reader",
            "rechunk",
            "row_index",
            "schema",
            "slice",
            "sources",
        ],
    )
}

/// What a scan reads: where the rows are, the format of the files, and the hive columns of each source.
#[tactic(auto, unfolding(crate::specs::Scans::read_of))]
fn read_from(
    alloc: Global,
    object: &Value,
) -> Result<((ScanSources, FileScan), Option<Items<HivePartitions>>), Fault>
    ensures { Gives result (read_of (view object.now)) }
{
    let files = read!(files(alloc, object));
    let hive_parts = read!(optional_hive_parts_at(alloc, object, "hive"));
    Ok((files, hive_parts))
}

/// What a scan gives: its columns where they are named, and which rows.
#[tactic(auto, unfolding(crate::specs::Scans::given_of))]
fn given(alloc: Global, object: &Value) -> Result<(Option<Schema>, Option<ExprIR>), Fault>
    ensures { Gives result (given_of (view object.now)) }
{
    let output_schema = read!(optional_columns_at(alloc, object, "output"));
    let predicate = read!(optional_output_at(alloc, object, "predicate"));
    Ok((output_schema, predicate))
}

/// What the files hold, and what is read of them.
#[tactic(auto, unfolding(crate::specs::Scans::held_of))]
fn held(alloc: Global, object: &Value) -> Result<(FileInfo, FileScanOptions), Fault>
    ensures { Gives result (held_of (view object.now)) }
{
    let file_info = read!(file_info(alloc, object));
    let file_options = read!(file_options(alloc, object));
    Ok((file_info, file_options))
}

/// The scan of an entry.
#[tactic(auto, using(crate::proofs::ScanLemmas::scan_by))]
pub fn scan(alloc: Global, value: &Value) -> Result<IR, Fault>
    ensures { Gives result (scan_of (view value.now)) }
{
    let object = read!(scan_object(value));
    let read_from = read!(read_from(alloc, object));
    let given = read!(given(alloc, object));
    let (file_info, file_options) = read!(held(alloc, object));
    let ((sources, scan_type), hive_parts) = read_from;
    let (output_schema, predicate) = given;
    Ok(IR::Scan {
        sources,
        file_info,
        hive_parts,
        predicate,
        output_schema,
        scan_type,
        file_options,
    })
}

/// The scan of a frame of an entry.
#[tactic(auto, unfolding(crate::specs::Scans::frame_scan_of))]
pub fn frame_scan(alloc: Global, value: &Value) -> Result<IR, Fault>
    ensures { Gives result (frame_scan_of (view value.now)) }
{
    let object = read!(object(value, &["frame", "op", "output", "schema"]));
    let df = read!(optional_number_at(object, "frame"));
    let schema = read!(columns_at(alloc, object, "schema"));
    let output_schema = read!(optional_columns_at(alloc, object, "output"));
    Ok(IR::DataFrameScan {
        df,
        schema,
        output_schema,
    })
}
