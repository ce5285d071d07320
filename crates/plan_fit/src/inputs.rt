//! The inputs of a node.
ghost use Rattle.std.specs.Prelude.{◌≡◌, ◌<◌, Some, length, slice_get};
ghost use Rattle.plan_ir.specs.Parts.{inputs_of};

use plan_core::Node;
use plan_ir::IR;

/// How many inputs a node has; a scan has none.
pub fn input_count(node: &IR) -> usize
    ensures { result ≡ length (inputs_of node.now) }
{
    match node {
        IR::Slice { .. }
        | IR::Filter { .. }
        | IR::SimpleProjection { .. }
        | IR::Select { .. }
        | IR::HStack { .. }
        | IR::Sort { .. }
        | IR::GroupBy { .. }
        | IR::Distinct { .. }
        | IR::MapFunction { .. }
        | IR::Sink { .. }
        | IR::Cache { .. } => 1,
        IR::Join { .. } => 2,
        IR::Union { inputs, .. } | IR::HConcat { inputs, .. } => inputs.len(),
        IR::Scan { .. } | IR::DataFrameScan { .. } | IR::Invalid => 0,
    }
}

/// The number of the input at a place, counted from 0; of a join the left one comes first.
pub fn input_at(node: &IR, place: usize) -> Node
    requires { place < length (inputs_of node.now) }
    ensures { slice_get (inputs_of node.now) place ≡ Some result }
{
    match node {
        IR::Slice { input, .. }
        | IR::Filter { input, .. }
        | IR::SimpleProjection { input, .. }
        | IR::Select { input, .. }
        | IR::HStack { input, .. }
        | IR::Sort { input, .. }
        | IR::GroupBy { input, .. }
        | IR::Distinct { input, .. }
        | IR::MapFunction { input, .. }
        | IR::Sink { input, .. }
        | IR::Cache { input, .. } => *input,
        IR::Join {
            input_left,
            input_right,
            ..
        } => {
            if place == 0 {
                *input_left
            } else {
                *input_right
            }
        }
        IR::Union { inputs, .. } | IR::HConcat { inputs, .. } => inputs.as_slice()[place],
        IR::Scan { .. } | IR::DataFrameScan { .. } | IR::Invalid => unreachable!(),
    }
}
