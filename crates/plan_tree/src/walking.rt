//! Walks over what numbers of an arena reach. They keep a stack of their own, so that no depth exhausts the machine's.
ghost use Rattle.std.specs.Prelude.{◌≡◌, ◌++◌, ◌↔◌, [], IfOk, IfSome, OnOk, MatchOption, None, Some, nat_eq, reverse, true};
ghost use Rattle.std.specs.HashSet.{contains, Updates};
ghost use Rattle.plan_tree.specs.Rose.{labels};
ghost use Rattle.plan_tree.specs.Stands.{shape, Trees, StandsOnce};
ghost use Rattle.plan_tree.specs.Walk.{entry_if_new, nodes_of, steps_to, walk_from};

use crate::entry::Entry;
use plan_core::{Arena, Items, Node};
use std::alloc::{AllocError, Global};
use std::collections::HashSet;

/// A number that a walk comes to, with the mark of the root that it comes from.
#[derive(Clone, Copy, Debug)]
pub struct Step<W> {
    /// The number.
    pub node: Node,
    /// What the root is marked with: whatever tells the caller where it stood.
    pub mark: W,
}

/// What a walk met: the numbers in walk order, and the one that stopped it.
#[derive(Drop, Debug)]
pub struct Walked<W> {
    /// The numbers met before the fault: one before its inputs, and those from first to last.
    pub listed: Items<Node>,
    /// The first number that is outside the arena, or has a bad entry, or was met before.
    pub fault: Option<Step<W>>,
}

/// The entry at a number, which is met from here on, unless the number is outside the arena or was met before or the
/// entry is bad.
fn new_entry<'a, T: Entry>(
    arena: &'a Arena<T>,
    met: &mut HashSet<usize>,
    node: Node,
) -> Result<Option<&'a T>, AllocError>
    ensures found { let found = entry_if_new (shape T.inputs T.bad) arena.now (contains nat_eq met.old node.0) node in
        IfOk result (λ r. MatchOption r (found ≡ None) (λ e. found ≡ Some e.now)) }
    ensures met { IfOk result (λ r. IfSome r (λ _. Updates nat_eq met.old met.new node.0 true)) }
{
    if node.0 >= arena.len() {
        return Ok(None);
    }
    let entry = arena.get(node);
    if entry.is_bad() || !met.insert(node.0)? {
        return Ok(None);
    }
    Ok(Some(entry))
}

/// Appends steps, the first one last.
fn stack_steps<W: Copy>(steps: &[Step<W>], pending: &mut Items<Step<W>>) -> Result<(), AllocError>
    ensures { OnOk result (pending.new ≡ pending.old ++ reverse steps.now) }
{
    for step in steps.iter().rev() {
        pending.push(*step)?;
    }
    Ok(())
}

/// Appends steps to numbers, the first one last.
pub(crate) fn stack_numbers<W: Copy>(
    numbers: &[Node],
    mark: W,
    pending: &mut Items<Step<W>>,
) -> Result<(), AllocError>
    ensures { OnOk result (pending.new ≡ pending.old ++ reverse (steps_to mark numbers.now)) }
{
    for number in numbers.iter().rev() {
        pending.push(Step {
            node: *number,
            mark,
        })?;
    }
    Ok(())
}

/// Appends steps to the inputs of an entry, the first one last. `inputs` is room that is used over and over; nothing is
/// in it before and after.
pub(crate) fn stack_inputs<T: Entry, W: Copy>(
    entry: &T,
    mark: W,
    inputs: &mut Items<Node>,
    pending: &mut Items<Step<W>>,
) -> Result<(), AllocError>
    requires { inputs.old ≡ [] }
    ensures stacked { OnOk result (pending.new ≡ pending.old ++ reverse (steps_to mark (T.inputs entry.now))) }
    ensures emptied { OnOk result (inputs.new ≡ []) }
{
    entry.copy_inputs(inputs)?;
    while let Some(node) = inputs.pop() {
        pending.push(Step { node, mark })?;
    }
    Ok(())
}

/// Walks over what the roots reach, in order, up to the first number that can't be part of trees. It has no fault
/// exactly where trees stand over the roots, no number twice. It takes the time of what is reached, whatever the arena
/// holds beside. Refuses for want of memory alone.
pub fn walk<T: Entry, W: Copy>(
    alloc: Global,
    arena: &Arena<T>,
    roots: &[Step<W>],
) -> Result<Walked<W>, AllocError>
    ensures walked { IfOk result (λ w. w ≡ walk_from (shape T.inputs T.bad) arena.now roots.now) }
    ensures stands { IfOk result (λ w. (w.fault ≡ None)
        ↔ ((t : Trees T) × StandsOnce (shape T.inputs T.bad) arena.now (nodes_of roots.now) t)) }
    ensures in_order { IfOk result (λ w. (t : Trees T)
        → StandsOnce (shape T.inputs T.bad) arena.now (nodes_of roots.now) t
        → w.listed ≡ labels t) }
{
    let mut met = HashSet::new(alloc);
    let mut listed = Items::new(alloc);
    let mut inputs = Items::new(alloc);
    let mut pending = Items::new(alloc);
    stack_steps(roots, &mut pending)?;
    while let Some(step) = pending.pop() {
        let Some(entry) = new_entry(arena, &mut met, step.node)? else {
            return Ok(Walked {
                listed,
                fault: Some(step),
            });
        };
        listed.push(step.node)?;
        stack_inputs(entry, step.mark, &mut inputs, &mut pending)?;
    }
    Ok(Walked {
        listed,
        fault: None,
    })
}
