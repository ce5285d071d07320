//! The entries of the objects of nodes, each kind's in a function of its own: keys in byte order, with what stands there.
ghost use Rattle.std.specs.Prelude.{IfOk};
ghost use Rattle.plan_ir.specs.declared.ir.IR.TheVariants.{Filter, SimpleProjection};
ghost use Rattle.plan_text_pieces.specs.Pieces.{Tells};
ghost use Rattle.plan_text.specs.Nodes.{cache_data, distinct_data, frame_scan_data, group_by_data, hconcat_data, made_data, map_function_data, node_data, scan_data, slice_node_data, sort_data, union_data};

use crate::joins::join;
use plan_core::{FileScanOptions, Items, Node, ProjectionOptions, Schema};
use plan_expr::ExprIR;
use plan_ir::{FileInfo, FunctionIR, IR};
use plan_options::{
    DistinctOptionsIR, GroupbyOptions, HConcatOptions, SortMultipleOptions, UnionOptions,
};
use plan_scan::{FileScan, HivePartitions, ScanSources};
use plan_text_pieces::{
    Entries, Piece, keep_name, optional_columns, optional_hive_parts, optional_name,
    optional_names, optional_number, optional_output, optional_row_index, optional_slice, sources,
};
use std::alloc::{AllocError, Global};

/// The entries of a scan.
#[tactic(auto, unfolding(crate::specs::Nodes::scan_data))]
fn scan<'a>(
    alloc: Global,
    from: &'a ScanSources,
    info: &'a FileInfo,
    hive: &'a Option<Items<HivePartitions>>,
    predicate: &'a Option<ExprIR>,
    output_schema: &'a Option<Schema>,
    format: &'a FileScan,
    options: &'a FileScanOptions,
) -> Result<Entries<'a>, AllocError>
    ensures { IfOk result (λ es. Tells es.items
        (scan_data from.now info.now hive.now predicate.now output_schema.now format.now options.now)) }
{
    Vec::from_slice(
        alloc,
        &[
            ("columns", optional_names(&options.with_columns)),
            ("hive", optional_hive_parts(hive)),
            ("kind", Piece::Text(format.name())),
            ("op", Piece::Text("Scan")),
            ("output", optional_columns(output_schema)),
            ("path_column", optional_name(&options.include_file_paths)),
            ("predicate", optional_output(predicate)),
            ("reader", optional_columns(&info.reader_schema)),
            ("rechunk", Piece::Boolean(options.rechunk)),
            ("row_index", optional_row_index(&options.row_index)),
            ("schema", Piece::Columns(&info.schema)),
            ("slice", optional_slice(options.slice)),
            ("sources", sources(from)),
        ],
    )
}

/// The entries of a slice.
#[tactic(auto, unfolding(crate::specs::Nodes::slice_node_data))]
fn slice<'a>(alloc: Global, input: Node, offset: i64, len: u32) -> Result<Entries<'a>, AllocError>
    ensures { IfOk result (λ es. Tells es.items (slice_node_data input offset len)) }
{
    Ok(vec![in alloc;
        ("input", Piece::Number(input.0)),
        ("len", Piece::Number(len as usize)),
        ("offset", Piece::Integer(offset)),
        ("op", Piece::Text("Slice")),
    ]?)
}

/// The entries of a filter.
#[tactic(auto, unfolding(crate::specs::Nodes::node_data))]
fn filter<'a>(alloc: Global, input: Node, predicate: &'a ExprIR) -> Result<Entries<'a>, AllocError>
    ensures { IfOk result (λ es. Tells es.items (node_data (Filter input predicate.now))) }
{
    Vec::from_slice(
        alloc,
        &[
            ("input", Piece::Number(input.0)),
            ("op", Piece::Text("Filter")),
            ("predicate", Piece::Output(predicate)),
        ],
    )
}

/// The entries of a scan of a frame.
#[tactic(auto, unfolding(crate::specs::Nodes::frame_scan_data))]
fn frame_scan<'a>(
    alloc: Global,
    df: Option<u32>,
    schema: &'a Schema,
    output_schema: &'a Option<Schema>,
) -> Result<Entries<'a>, AllocError>
    ensures { IfOk result (λ es. Tells es.items (frame_scan_data df schema.now output_schema.now)) }
{
    Vec::from_slice(
        alloc,
        &[
            ("frame", optional_number(df)),
            ("op", Piece::Text("DataFrameScan")),
            ("output", optional_columns(output_schema)),
            ("schema", Piece::Columns(schema)),
        ],
    )
}

/// The entries of a simple projection.
#[tactic(auto, unfolding(crate::specs::Nodes::node_data))]
fn simple_projection<'a>(
    alloc: Global,
    input: Node,
    columns: &'a Schema,
) -> Result<Entries<'a>, AllocError>
    ensures { IfOk result (λ es. Tells es.items (node_data (SimpleProjection input columns.now))) }
{
    Vec::from_slice(
        alloc,
        &[
            ("columns", Piece::Columns(columns)),
            ("input", Piece::Number(input.0)),
            ("op", Piece::Text("SimpleProjection")),
        ],
    )
}

/// The entries of a node of this name that makes a column for each expression.
#[tactic(auto, unfolding(crate::specs::Nodes::made_data))]
fn made<'a>(
    alloc: Global,
    op: &'a str,
    input: Node,
    exprs: &'a Items<ExprIR>,
    schema: &'a Schema,
    options: ProjectionOptions,
) -> Result<Entries<'a>, AllocError>
    ensures { IfOk result (λ es. Tells es.items
        (made_data op.now input exprs.now schema.now options)) }
{
    Vec::from_slice(
        alloc,
        &[
            ("exprs", Piece::Outputs(exprs.as_slice())),
            ("input", Piece::Number(input.0)),
            ("op", Piece::Text(op)),
            ("options", Piece::Options(options)),
            ("schema", Piece::Columns(schema)),
        ],
    )
}

/// The entries of a sort.
#[tactic(auto, unfolding(crate::specs::Nodes::sort_data))]
fn sort<'a>(
    alloc: Global,
    input: Node,
    keys: &'a Items<ExprIR>,
    slice: Option<(i64, usize)>,
    options: &'a SortMultipleOptions,
) -> Result<Entries<'a>, AllocError>
    ensures { IfOk result (λ es. Tells es.items (sort_data input keys.now slice options.now)) }
{
    Vec::from_slice(
        alloc,
        &[
            ("by", Piece::Outputs(keys.as_slice())),
            ("descending", Piece::Booleans(options.descending.as_slice())),
            ("input", Piece::Number(input.0)),
            ("maintain_order", Piece::Boolean(options.maintain_order)),
            ("nulls_last", Piece::Booleans(options.nulls_last.as_slice())),
            ("op", Piece::Text("Sort")),
            ("slice", optional_slice(slice)),
        ],
    )
}

/// The entries of a grouping.
#[tactic(auto, unfolding(crate::specs::Nodes::group_by_data))]
fn group_by<'a>(
    alloc: Global,
    input: Node,
    keys: &'a Items<ExprIR>,
    aggs: &'a Items<ExprIR>,
    schema: &'a Schema,
    maintain_order: bool,
    options: GroupbyOptions,
) -> Result<Entries<'a>, AllocError>
    ensures { IfOk result (λ es. Tells es.items
        (group_by_data input keys.now aggs.now schema.now maintain_order options)) }
{
    Vec::from_slice(
        alloc,
        &[
            ("aggs", Piece::Outputs(aggs.as_slice())),
            ("input", Piece::Number(input.0)),
            ("keys", Piece::Outputs(keys.as_slice())),
            ("maintain_order", Piece::Boolean(maintain_order)),
            ("op", Piece::Text("GroupBy")),
            ("schema", Piece::Columns(schema)),
            ("slice", optional_slice(options.slice)),
        ],
    )
}

/// The entries of distinct rows.
#[tactic(auto, unfolding(crate::specs::Nodes::distinct_data))]
fn distinct<'a>(
    alloc: Global,
    input: Node,
    options: &'a DistinctOptionsIR,
) -> Result<Entries<'a>, AllocError>
    ensures { IfOk result (λ es. Tells es.items (distinct_data input options.now)) }
{
    Vec::from_slice(
        alloc,
        &[
            ("input", Piece::Number(input.0)),
            ("keep", Piece::Text(keep_name(options.keep_strategy))),
            ("maintain_order", Piece::Boolean(options.maintain_order)),
            ("op", Piece::Text("Distinct")),
            ("slice", optional_slice(options.slice)),
            ("subset", optional_names(&options.subset)),
        ],
    )
}

/// The entries of what a function makes of the whole input.
#[tactic(auto, unfolding(crate::specs::Nodes::map_function_data))]
fn map_function<'a>(
    alloc: Global,
    input: Node,
    function: &'a FunctionIR,
) -> Result<Entries<'a>, AllocError>
    ensures { IfOk result (λ es. Tells es.items (map_function_data input function.now)) }
{
    Vec::from_slice(
        alloc,
        &[
            ("function", Piece::Function(function)),
            ("input", Piece::Number(input.0)),
            ("op", Piece::Text("MapFunction")),
        ],
    )
}

/// The entries of a union.
#[tactic(auto, unfolding(crate::specs::Nodes::union_data))]
fn union<'a>(
    alloc: Global,
    inputs: &'a Items<Node>,
    options: UnionOptions,
) -> Result<Entries<'a>, AllocError>
    ensures { IfOk result (λ es. Tells es.items (union_data inputs.now options)) }
{
    Vec::from_slice(
        alloc,
        &[
            ("flattened", Piece::Boolean(options.flattened_by_opt)),
            ("inputs", Piece::Links(inputs.as_slice())),
            ("maintain_order", Piece::Boolean(options.maintain_order)),
            ("op", Piece::Text("Union")),
            ("parallel", Piece::Boolean(options.parallel)),
            ("rechunk", Piece::Boolean(options.rechunk)),
            ("slice", optional_slice(options.slice)),
        ],
    )
}

/// The entries of a concatenation side by side.
#[tactic(auto, unfolding(crate::specs::Nodes::hconcat_data))]
fn hconcat<'a>(
    alloc: Global,
    inputs: &'a Items<Node>,
    schema: &'a Schema,
    options: HConcatOptions,
) -> Result<Entries<'a>, AllocError>
    ensures { IfOk result (λ es. Tells es.items (hconcat_data inputs.now schema.now options)) }
{
    Vec::from_slice(
        alloc,
        &[
            ("inputs", Piece::Links(inputs.as_slice())),
            ("op", Piece::Text("HConcat")),
            ("parallel", Piece::Boolean(options.parallel)),
            ("schema", Piece::Columns(schema)),
        ],
    )
}

/// The entries of a cache.
#[tactic(auto, unfolding(crate::specs::Nodes::cache_data))]
fn cache<'a>(alloc: Global, input: Node, id: u32, hits: u32) -> Result<Entries<'a>, AllocError>
    ensures { IfOk result (λ es. Tells es.items (cache_data input id hits)) }
{
    Ok(vec![in alloc;
        ("hits", Piece::Number(hits as usize)),
        ("id", Piece::Number(id as usize)),
        ("input", Piece::Number(input.0)),
        ("op", Piece::Text("Cache")),
    ]?)
}

/// The entries of a node: of each kind a row or two.
#[rattlefmt::skip]
#[tactic(auto, unfolding(crate::specs::Nodes::node_data))]
pub fn node_entries(alloc: Global, node: &IR) -> Result<Entries<'_>, AllocError>
    ensures { IfOk result (λ es. Tells es.items (node_data node.now)) }
{
    match node {
        IR::Slice { input, offset, len } => slice(alloc, *input, *offset, *len),
        IR::Filter { input, predicate } => filter(alloc, *input, predicate),
        IR::Scan { sources, file_info, hive_parts, predicate, output_schema, scan_type, file_options } =>
            scan(alloc, sources, file_info, hive_parts, predicate, output_schema, scan_type, file_options),
        IR::DataFrameScan { df, schema, output_schema } =>
            frame_scan(alloc, *df, schema, output_schema),
        IR::SimpleProjection { input, columns } => simple_projection(alloc, *input, columns),
        IR::Select { input, expr, schema, options } =>
            made(alloc, "Select", *input, expr, schema, *options),
        IR::HStack { input, exprs, schema, options } =>
            made(alloc, "HStack", *input, exprs, schema, *options),
        IR::Sort { input, by_column, slice, sort_options } =>
            sort(alloc, *input, by_column, *slice, sort_options),
        IR::GroupBy { input, keys, aggs, schema, maintain_order, options } =>
            group_by(alloc, *input, keys, aggs, schema, *maintain_order, *options),
        IR::Join { input_left, input_right, schema, left_on, right_on, options } =>
            join(alloc, *input_left, *input_right, schema, left_on, right_on, options),
        IR::Distinct { input, options } => distinct(alloc, *input, options),
        IR::MapFunction { input, function } => map_function(alloc, *input, function),
        IR::Sink { input, .. } =>
            Ok(vec![in alloc; ("input", Piece::Number(input.0)), ("op", Piece::Text("Sink"))]?),
        IR::Union { inputs, options } => union(alloc, inputs, *options),
        IR::HConcat { inputs, schema, options } => hconcat(alloc, inputs, schema, *options),
        IR::Cache { input, id, cache_hits } => cache(alloc, *input, *id, *cache_hits),
        IR::Invalid => Ok(vec![in alloc; ("op", Piece::Text("Invalid"))]?),
    }
}
