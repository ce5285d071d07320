//! What the demand for the order of a node's rows makes of it.
ghost use Rattle.std.specs.Prelude.{◌≡◌, ◌+◌, ◌++◌, ◌≤◌, length, vec_len, vec_capacity};
ghost use Rattle.plan_ir.specs.Parts.{inputs_of};
ghost use Rattle.plan_order.specs.DemandTurns.{idle_input_of, told_node};

use plan_core::Node;
use plan_ir::IR;

/// The input of a sort, if its order isn't demanded.
pub fn idle_input(entry: &IR, ordered: bool) -> Option<Node>
    ensures { result ≡ idle_input_of ordered entry.now }
{
    match entry {
        IR::Sort { input, .. } if !ordered => Some(*input),
        _ => None,
    }
}

/// Sets the mark of a union, or of distinct rows, by its demand.
pub fn tell(entry: &mut IR, ordered: bool)
    ensures { entry.new ≡ told_node ordered entry.old }
{
    match entry {
        IR::Distinct { options, .. } => {
            options.maintain_order = ordered && options.maintain_order;
        }
        IR::Union { options, .. } => {
            options.maintain_order = ordered;
        }
        _ => {}
    }
}

/// Stacks the inputs of a node, the last one on top. There must be room for them.
pub fn stack_inputs(entry: &IR, stack: &mut Vec<Node>)
    requires { vec_len stack.old + length (inputs_of entry.now) ≤ vec_capacity stack.old }
    ensures items { stack.new.items ≡ stack.old.items ++ inputs_of entry.now }
    ensures capacity { vec_capacity stack.new ≡ vec_capacity stack.old }
{
    match entry {
        IR::Slice { input, .. }
        | IR::Filter { input, .. }
        | IR::SimpleProjection { input, .. }
        | IR::Select { input, .. }
        | IR::HStack { input, .. }
        | IR::Sort { input, .. }
        | IR::GroupBy { input, .. }
        | IR::Distinct { input, .. }
        | IR::MapFunction { input, .. }
        | IR::Sink { input, .. }
        | IR::Cache { input, .. } => {
            stack.push_reserved(*input);
        }
        IR::Join {
            input_left,
            input_right,
            ..
        } => {
            stack.push_reserved(*input_left);
            stack.push_reserved(*input_right);
        }
        IR::Union { inputs, .. } | IR::HConcat { inputs, .. } => {
            for input in inputs.as_slice() {
                stack.push_reserved(*input);
            }
        }
        IR::Scan { .. } | IR::DataFrameScan { .. } | IR::Invalid => {}
    }
}
