//! The expressions that a number of an arena reaches, one after another. Contracts see a walk as what is left of it.
ghost use Rattle.std.specs.Prelude.{◌≡◌, ◌<◌, All, List, length, map, IfOk};
ghost use Rattle.std.specs.Iterator.{YieldsFirstBy, item_count};
ghost use Rattle.std.specs.Map.Iter.{deref_pair};
ghost use Rattle.plan_expr.specs.declared.aexpr.AExpr.{AExpr as Entry};
ghost use Rattle.plan_expr.specs.Operands.{IsExpr};
ghost use Rattle.plan_expr.specs.Walks.{numbered_at, walk_of};

use crate::aexpr::AExpr;
use plan_core::{Arena, Node};
use plan_tree::{Step, walk};
use std::alloc::{AllocError, Global};
use std::marker::Model;
use std::vec::IntoIter;

/// The expressions of a walk that are left, each with its number. A contract sees their list.
#[derive(Drop)]
pub struct AExprIter<'a> {
    nodes: IntoIter<(Node, &'a AExpr), Global>,
}

impl<'a> Model for AExprIter<'a> {
    ghost use Rattle.std.specs.Prelude.{List, map};
    ghost use Rattle.std.specs.Vec.Iter.{into_iter_items};
    ghost use Rattle.plan_core.specs.declared.arena.Node.{Node};
    ghost use Rattle.plan_expr.specs.declared.aexpr.AExpr.{AExpr};

    ghost Value = { List (Node × AExpr) };

    ghost view = { λ walk. map (λ q. (q.0, q.1.now)) (into_iter_items walk.nodes) };
}

impl<'a> AExprIter<'a> {
    /// A walk over these expressions with their numbers.
    fn new(nodes: Vec<(Node, &'a AExpr)>) -> Self
        ensures { result ≡ map (λ q. (q.0, q.1.now)) nodes.entry.items }
    {
        AExprIter {
            nodes: nodes.into_iter(),
        }
    }
}

impl<'a> Iterator for AExprIter<'a> {
    type Item = (Node, &'a AExpr);

    ghost next_gives = { YieldsFirstBy (λ q. (q.0, q.1.now)) (λ walk. walk) };

    ghost remaining = { item_count (λ walk. walk) };

    fn next(&mut self) -> Option<(Node, &'a AExpr)> {
        self.nodes.next()
    }
}

/// Walks over the expressions of an arena.
pub trait ArenaExprIter {
    /// The expressions of the arena, by their numbers.
    ghost entries: { Self → List Entry };

    /// The expression at `root` and all below it, each with its number, in walk order. All memory that the walk takes is
    /// taken here; it refuses for want of it alone.
    fn iter(&self, alloc: Global, root: Node) -> Result<AExprIter<'_>, AllocError>
        requires { IsExpr (entries self.now) root }
        ensures { IfOk result (λ walk. walk ≡ walk_of (entries self.now) root) };
}

/// The expressions at numbers, each with its number, in their order.
fn numbered<'a>(
    alloc: Global,
    listed: &[Node],
    ex: &'a Arena<AExpr>,
) -> Result<Vec<(Node, &'a AExpr)>, AllocError>
    requires { All (λ n. n.0 < length ex.now) listed.now }
    ensures { IfOk result (λ nodes. map (λ q. (q.0, q.1.now)) nodes.items ≡ numbered_at ex.now listed.now) }
{
    let mut nodes = Vec::with_capacity(alloc, listed.len())?;
    for node in listed {
        nodes.push((*node, ex.get(*node)))?;
    }
    Ok(nodes)
}

impl ArenaExprIter for Arena<AExpr> {
    ghost entries = { λ ex. ex };

    fn iter(&self, alloc: Global, root: Node) -> Result<AExprIter<'_>, AllocError> {
        let start = Step {
            node: root,
            mark: (),
        };
        let listed = walk(alloc, self, &[start])?.listed;
        Ok(AExprIter::new(numbered(alloc, listed.as_slice(), self)?))
    }
}
