//! The reader of nodes, and the readers of those that have no file of their own.
ghost use Rattle.serde_json.specs.View.{view};
ghost use Rattle.plan_doc_parts.specs.Gives.{Gives};
ghost use Rattle.plan_doc_nodes.specs.Nodes.{map_function_of, sink_of, cache_of, invalid_of, other_node_of, node_of};

use crate::columns::{group_by, hstack, select, simple_projection};
use crate::joins::join;
use crate::rows::{distinct, filter, slice_node, sort};
use crate::several::{hconcat, union};
use plan_doc_parts::{Fault, field, link_at, number_at, object, read, text};
use plan_doc_scans::{frame_function, frame_scan, scan};
use plan_ir::IR;
use plan_options::SinkType;
use serde_json::Value;
use std::alloc::Global;

/// The function of the whole input of an entry.
#[tactic(auto, unfolding(crate::specs::Nodes::map_function_of))]
fn map_function(alloc: Global, value: &Value) -> Result<IR, Fault>
    ensures { Gives result (map_function_of (view value.now)) }
{
    let object = read!(object(value, &["function", "input", "op"]));
    let input = read!(link_at(object, "input"));
    let function = read!(frame_function(alloc, read!(field(object, "function"))));
    Ok(IR::MapFunction { input, function })
}

/// The sink of an entry; its rows are kept in memory.
#[tactic(auto, unfolding(crate::specs::Nodes::sink_of))]
fn sink(value: &Value) -> Result<IR, Fault>
    ensures { Gives result (sink_of (view value.now)) }
{
    let object = read!(object(value, &["input", "op"]));
    let input = read!(link_at(object, "input"));
    Ok(IR::Sink {
        input,
        payload: SinkType::Memory,
    })
}

/// The cache of an entry.
#[tactic(auto, unfolding(crate::specs::Nodes::cache_of))]
fn cache(value: &Value) -> Result<IR, Fault>
    ensures { Gives result (cache_of (view value.now)) }
{
    let object = read!(object(value, &["hits", "id", "input", "op"]));
    let input = read!(link_at(object, "input"));
    let id = read!(number_at(object, "id"));
    let cache_hits = read!(number_at(object, "hits"));
    Ok(IR::Cache {
        input,
        id,
        cache_hits,
    })
}

/// The entry that stands for no node.
#[tactic(auto, unfolding(crate::specs::Nodes::invalid_of))]
fn invalid(value: &Value) -> Result<IR, Fault>
    ensures { Gives result (invalid_of (view value.now)) }
{
    let _ = read!(object(value, &["op"]));
    Ok(IR::Invalid)
}

/// The node of an entry over any number of inputs, or of one that has no file of its own, by its `op`.
#[tactic(auto, unfolding(crate::specs::Nodes::other_node_of))]
fn other_node(alloc: Global, op: &str, value: &Value) -> Result<IR, Fault>
    ensures { Gives result (other_node_of op.now (view value.now)) }
{
    match op {
        "Join" => join(alloc, value),
        "Distinct" => distinct(alloc, value),
        "MapFunction" => map_function(alloc, value),
        "Sink" => sink(value),
        "Union" => union(alloc, value),
        "HConcat" => hconcat(alloc, value),
        "Cache" => cache(value),
        "Invalid" => invalid(value),
        _ => Err(Fault::Form),
    }
}

/// The node of an entry, by its `op`. `Form` where the entry is no node, and `Memory` where memory is short.
#[tactic(auto, unfolding(crate::specs::Nodes::node_of, crate::specs::Nodes::other_node_of))]
pub fn node(alloc: Global, value: &Value) -> Result<IR, Fault>
    ensures { Gives result (node_of (view value.now)) }
{
    match read!(text(read!(field(value, "op")))) {
        "Slice" => slice_node(value),
        "Filter" => filter(alloc, value),
        "Scan" => scan(alloc, value),
        "DataFrameScan" => frame_scan(alloc, value),
        "SimpleProjection" => simple_projection(alloc, value),
        "Select" => select(alloc, value),
        "HStack" => hstack(alloc, value),
        "Sort" => sort(alloc, value),
        "GroupBy" => group_by(alloc, value),
        op => other_node(alloc, op, value),
    }
}
