//! Whether the trees over numbers have more levels than a limit.
ghost use Rattle.std.specs.Prelude.{◌<◌, ◌↔◌, IfOk, IsTrue};
ghost use Rattle.plan_tree.specs.Rose.{levels};
ghost use Rattle.plan_tree.specs.Stands.{shape, Trees, StandsOnce};

use crate::entry::Entry;
use crate::walking::{stack_inputs, stack_numbers};
use plan_core::{Arena, Items, Node};
use std::alloc::{AllocError, Global};

/// Whether the tallest tree over the roots has more levels than a limit, where trees stand over them, no number twice.
/// It keeps a stack of its own, and stops at the first number below the limit. Refuses for want of memory alone.
pub fn is_deeper<T: Entry>(
    alloc: Global,
    arena: &Arena<T>,
    roots: &[Node],
    limit: usize,
) -> Result<bool, AllocError>
    requires { (t : Trees T) × StandsOnce (shape T.inputs T.bad) arena.now roots.now t }
    ensures { IfOk result (λ deeper. (t : Trees T)
        → StandsOnce (shape T.inputs T.bad) arena.now roots.now t
        → (IsTrue deeper ↔ (limit < levels t))) }
{
    let mut inputs = Items::new(alloc);
    let mut pending = Items::new(alloc);
    stack_numbers(roots, 1, &mut pending)?;
    while let Some(step) = pending.pop() {
        if step.mark > limit {
            return Ok(true);
        }
        stack_inputs(
            arena.get(step.node),
            step.mark + 1,
            &mut inputs,
            &mut pending,
        )?;
    }
    Ok(false)
}
