//! The nodes that a number of an arena reaches, one after another. Contracts see a walk as what is left of it.
ghost use Rattle.std.specs.Prelude.{◌≡◌, [], ◌∷◌, List, map, nat_eq, IfOk, OnOk};
ghost use Rattle.std.specs.Iterator.{YieldsFirstBy, item_count};
ghost use Rattle.std.specs.List.{IsDistinct};
ghost use Rattle.std.specs.Map.Iter.{deref_pair};
ghost use Rattle.plan_tree.specs.Stands.{Trees, StandsOnce};
ghost use Rattle.plan_ir.specs.declared.ir.IR.{IR as Entry};
ghost use Rattle.plan_ir.specs.Parts.{plan_shape};
ghost use Rattle.plan_ir.specs.Walks.{nodes_from};

use crate::ir::IR;
use plan_core::{Arena, Items, Node};
use plan_tree::Entry;
use std::alloc::{AllocError, Global};
use std::marker::Model;
use std::vec::IntoIter;

/// The nodes of a walk that are left, each with its number. A contract sees their list.
#[derive(Drop)]
pub struct AlpIter<'a> {
    nodes: IntoIter<(Node, &'a IR), Global>,
}

impl<'a> Model for AlpIter<'a> {
    ghost use Rattle.std.specs.Prelude.{List, map};
    ghost use Rattle.std.specs.Vec.Iter.{into_iter_items};
    ghost use Rattle.plan_core.specs.declared.arena.Node.{Node};
    ghost use Rattle.plan_ir.specs.declared.ir.IR.{IR};

    ghost Value = { List (Node × IR) };

    ghost view = { λ walk. map (λ q. (q.0, q.1.now)) (into_iter_items walk.nodes) };
}

impl<'a> AlpIter<'a> {
    /// A walk over these nodes with their numbers.
    fn new(nodes: Vec<(Node, &'a IR)>) -> Self
        ensures { result ≡ map (λ q. (q.0, q.1.now)) nodes.entry.items }
    {
        AlpIter {
            nodes: nodes.into_iter(),
        }
    }
}

impl<'a> Iterator for AlpIter<'a> {
    type Item = (Node, &'a IR);

    ghost next_gives = { YieldsFirstBy (λ q. (q.0, q.1.now)) (λ walk. walk) };

    ghost remaining = { item_count (λ walk. walk) };

    fn next(&mut self) -> Option<(Node, &'a IR)> {
        self.nodes.next()
    }
}

/// Walks over the nodes of an arena.
pub trait ArenaLpIter {
    /// The nodes of the arena, by their numbers.
    ghost nodes: { Self → List Entry };

    /// The node at `root` and all below it, each once and with its number: a node, and then its inputs from last to first.
    /// All memory that the walk takes is taken here; it refuses for want of it alone.
    fn iter(&self, alloc: Global, root: Node) -> Result<AlpIter<'_>, AllocError>
        requires { (t : Trees Entry) × StandsOnce plan_shape (nodes self.now) (root ∷ []) t }
        ensures walk { IfOk result (λ walk. walk ≡ nodes_from (nodes self.now) root) }
        ensures once { IfOk result (λ walk. IsDistinct nat_eq (map (λ q. q.0.0) walk)) };
}

/// The nodes that a number reaches, each with its number: a node, and then its inputs from last to first.
fn numbered<'a>(
    alloc: Global,
    lp: &'a Arena<IR>,
    root: Node,
) -> Result<Vec<(Node, &'a IR)>, AllocError>
    requires { (t : Trees Entry) × StandsOnce plan_shape lp.now (root ∷ []) t }
    ensures { IfOk result (λ nodes. map (λ q. (q.0, q.1.now)) nodes.items ≡ nodes_from lp.now root) }
{
    let mut nodes = Vec::new(alloc);
    let mut pending = Items::new(alloc);
    pending.push(root)?;
    add_reached(lp, root, &mut pending, &mut nodes)?;
    Ok(nodes)
}

/// Appends the nodes that a pending number reaches to none, each with its number: a node, and then its inputs from last to
/// first.
fn add_reached<'a>(
    lp: &'a Arena<IR>,
    root: Node,
    pending: &mut Items<Node>,
    nodes: &mut Vec<(Node, &'a IR)>,
) -> Result<(), AllocError>
    requires stands { (t : Trees Entry) × StandsOnce plan_shape lp.now (root ∷ []) t }
    requires pending { pending.old ≡ root ∷ [] }
    requires nodes { nodes.old.items ≡ [] }
    ensures { OnOk result (map (λ q. (q.0, q.1.now)) nodes.new.items ≡ nodes_from lp.now root) }
{
    while let Some(node) = pending.pop() {
        let entry = lp.get(node);
        nodes.push((node, entry))?;
        entry.copy_inputs(pending)?;
    }
    Ok(())
}

impl ArenaLpIter for Arena<IR> {
    ghost nodes = { λ lp. lp };

    fn iter(&self, alloc: Global, root: Node) -> Result<AlpIter<'_>, AllocError> {
        Ok(AlpIter::new(numbered(alloc, self, root)?))
    }
}
