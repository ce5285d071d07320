//! What pruning does at a node that was taken.
ghost use Rattle.std.specs.Prelude.{◌≡◌};
ghost use Rattle.plan_prune_parts.specs.Steps.{with_kept};

use crate::kept::Kept;
use plan_core::{Items, Names, Node, Schema};
use plan_ir::IR;

/// What is to be done at a node that was taken.
#[derive(Drop)]
pub enum Step {
    /// The node has no input.
    Leaf {
        /// The columns of the projection that goes on top of the node where projections go on top; none where none goes there.
        columns: Option<Schema>,
        /// The node that goes back.
        entry: IR,
    },
    /// The input is pruned before the node goes back.
    Over {
        /// The number of the input.
        input: Node,
        /// The names that are asked of the input; no names stand for every column.
        asked: Names,
        /// The node that goes back over the input.
        entry: IR,
    },
    /// What is below the node stays as it is.
    Closed {
        /// The columns of the projection that goes on top of the node; none where none goes there.
        columns: Option<Schema>,
        /// The node that goes back.
        entry: IR,
    },
    /// Each input is pruned before the node goes back.
    Each {
        /// The numbers of the inputs, in order.
        inputs: Items<Node>,
        /// The names that are asked of each input, in their order; no names stand for every column.
        asked: Items<Names>,
        /// The names to which a projection goes on top of each input, once it is pruned; none where none goes there.
        covered: Option<Names>,
        /// What is kept of the node, from before its inputs are pruned.
        kept: Option<Kept>,
        /// The node that goes back over the inputs.
        entry: IR,
    },
}

impl Step {
    /// The step of a node of which this is kept, where it has several inputs; else the step itself.
    pub fn keeping(self, kept: Option<Kept>) -> Self
        ensures { result ≡ with_kept kept self }
    {
        match self {
            Step::Each {
                inputs,
                asked,
                covered,
                entry,
                ..
            } => Step::Each {
                inputs,
                asked,
                covered,
                kept,
                entry,
            },
            other => other,
        }
    }
}
