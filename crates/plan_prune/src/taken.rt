//! What is to be done at a node that was taken, with the node in a box: so a level of a plan holds little while what is below it is
//! pruned.
ghost use Rattle.std.specs.Prelude.{◌≡◌, IfOk};
ghost use Rattle.plan_prune.specs.Taken.{step_told};

use plan_core::{Items, Names, Node, Schema};
use plan_ir::IR;
use plan_prune_parts::{Kept, Step};
use std::alloc::{AllocError, Global};

/// The steps of pruning, each with the node that goes back in a box.
#[derive(Drop)]
pub enum Taken {
    /// The node has no input; the columns of the projection that goes on top of it where projections go on top.
    Leaf {
        columns: Option<Schema>,
        entry: Box<IR>,
    },
    /// The input is asked these names and pruned before the node goes back.
    Over {
        input: Node,
        asked: Names,
        entry: Box<IR>,
    },
    /// What is below the node stays as it is; the columns of the projection that goes on top of it.
    Closed {
        columns: Option<Schema>,
        entry: Box<IR>,
    },
    /// Each input is asked names of its own and pruned before the node goes back; a projection to the names that cover them goes on
    /// top of each input.
    Each {
        inputs: Items<Node>,
        asked: Items<Names>,
        covered: Option<Names>,
        rest: Box<Rest>,
    },
}

/// What stays of a node with several inputs while these are pruned.
#[derive(Drop)]
pub struct Rest {
    /// What is kept of it, if it is a join that is asked names.
    pub kept: Option<Kept>,
    /// The node that goes back over its inputs.
    pub entry: IR,
}

/// A step with its node in a box. Refuses for want of memory alone.
#[inline(never)]
pub fn boxed(alloc: Global, step: Step) -> Result<Taken, AllocError>
    ensures { IfOk result (λ taken. step_told taken ≡ step) }
{
    match step {
        Step::Leaf { columns, entry } => {
            let entry = Box::new(alloc, entry)?;
            Ok(Taken::Leaf { columns, entry })
        }
        Step::Over {
            input,
            asked,
            entry,
        } => {
            let entry = Box::new(alloc, entry)?;
            Ok(Taken::Over {
                input,
                asked,
                entry,
            })
        }
        Step::Closed { columns, entry } => {
            let entry = Box::new(alloc, entry)?;
            Ok(Taken::Closed { columns, entry })
        }
        Step::Each {
            inputs,
            asked,
            covered,
            kept,
            entry,
        } => {
            let rest = Box::new(alloc, Rest { kept, entry })?;
            Ok(Taken::Each {
                inputs,
                asked,
                covered,
                rest,
            })
        }
    }
}
