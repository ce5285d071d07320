//! How many levels the trees over numbers have.
ghost use Rattle.std.specs.Prelude.{◌≡◌, IfOk};
ghost use Rattle.plan_tree.specs.Depths.{IsDepth};
ghost use Rattle.plan_tree.specs.Rose.{levels};
ghost use Rattle.plan_tree.specs.Stands.{shape, Trees, StandsOnce};

use crate::entry::Entry;
use crate::walking::{Step, stack_inputs, stack_numbers, walk};
use plan_core::{Arena, Items, Node};
use std::alloc::{AllocError, Global};

/// How many levels the tallest tree over the roots has, where trees stand over them. It keeps a stack of its own.
/// Refuses for want of memory alone.
fn levels_of<T: Entry>(alloc: Global, arena: &Arena<T>, roots: &[Node]) -> Result<usize, AllocError>
    requires { (t : Trees T) × StandsOnce (shape T.inputs T.bad) arena.now roots.now t }
    ensures { IfOk result (λ d. (t : Trees T)
        → StandsOnce (shape T.inputs T.bad) arena.now roots.now t
        → d ≡ levels t) }
{
    let mut deepest: usize = 0;
    let mut inputs = Items::new(alloc);
    let mut pending = Items::new(alloc);
    stack_numbers(roots, 1, &mut pending)?;
    while let Some(step) = pending.pop() {
        deepest = deepest.max(step.mark);
        stack_inputs(
            arena.get(step.node),
            step.mark + 1,
            &mut inputs,
            &mut pending,
        )?;
    }
    Ok(deepest)
}

/// How many levels the tree over a number has; None exactly where no tree stands there, no number twice. It keeps a
/// stack of its own, and takes the time of what is reached. Refuses for want of memory alone.
pub fn depth_of<T: Entry>(
    alloc: Global,
    arena: &Arena<T>,
    node: Node,
) -> Result<Option<usize>, AllocError>
    ensures { IfOk result (IsDepth (shape T.inputs T.bad) arena.now node) }
{
    let walked = walk(alloc, arena, &[Step { node, mark: () }])?;
    if walked.fault.is_some() {
        return Ok(None);
    }
    Ok(Some(levels_of(alloc, arena, &[node])?))
}
