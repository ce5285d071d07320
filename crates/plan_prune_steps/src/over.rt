//! The step of a node over its inputs, where there was memory for what these are asked.
ghost use Rattle.std.specs.Prelude.{◌≡◌, List, IfOk, None};
ghost use Rattle.plan_core.specs.declared.arena.Node.{Node as NodeType};
ghost use Rattle.plan_expr.specs.Leaves.{Name};
ghost use Rattle.plan_prune_parts.specs.declared.step.Step.TheVariants.{Each, Over};

use plan_core::{Items, Names, Node};
use plan_ir::IR;
use plan_prune_parts::Step;
use std::alloc::AllocError;

/// The step of a node over one input that is asked these names. Refuses where there was no memory for the names.
pub fn over(input: Node, asked: Result<Names, AllocError>, entry: IR) -> Result<Step, AllocError>
    ensures { IfOk result (λ step. (names : List Name) × (asked ≡ Ok names) × (step ≡ Over input names entry)) }
{
    match asked {
        Ok(asked) => Ok(Step::Over {
            input,
            asked,
            entry,
        }),
        Err(error) => {
            drop(entry);
            Err(error)
        }
    }
}

/// The step of a node over inputs that are asked these names, and of which nothing is kept yet. Refuses where there was no memory
/// for the inputs or for the names.
pub fn each(
    inputs: Result<Items<Node>, AllocError>,
    asked: Result<Items<Names>, AllocError>,
    covered: Option<Names>,
    entry: IR,
) -> Result<Step, AllocError>
    ensures { IfOk result (λ step. (numbers : List NodeType) × (lists : List (List Name)) × (inputs ≡ Ok numbers) × (asked ≡ Ok lists) × (step ≡ Each numbers lists covered None entry)) }
{
    match inputs {
        Ok(inputs) => match asked {
            Ok(asked) => Ok(Step::Each {
                inputs,
                asked,
                covered,
                kept: None,
                entry,
            }),
            Err(error) => {
                drop(covered);
                drop(entry);
                Err(error)
            }
        },
        Err(error) => {
            drop(covered);
            drop(entry);
            Err(error)
        }
    }
}
