//! New numbers for the entries of an arena.
ghost use Rattle.std.specs.Prelude.{◌≡◌, ◌<◌, All, length, map, nat_eq, IfOk};
ghost use Rattle.std.specs.List.{IsDistinct, range_with_len};
ghost use Rattle.plan_tree.specs.Stands.{numbers};
ghost use Rattle.plan_ir.specs.Moved.{new_number};

use plan_core::Node;
use std::alloc::{AllocError, Global};
use std::marker::Model;

/// The new numbers of entries, by their old ones. A contract sees the list of the new numbers.
#[derive(Drop)]
pub(crate) struct Numbering {
    table: Vec<Node>,
}

impl Model for Numbering {
    ghost use Rattle.std.specs.Prelude.{List};
    ghost use Rattle.plan_core.specs.declared.arena.Node.{Node};

    ghost Value = { List Node };

    ghost view = { λ numbering. numbering.table.items };
}

impl Numbering {
    /// Numbers the listed entries 0, 1, 2, and so on. All numbers are below `size`, and none stands twice.
    pub(crate) fn in_order(alloc: Global, size: usize, listed: &[Node]) -> Result<Self, AllocError>
        requires within { All (λ n. n.0 < size) listed.now }
        requires distinct { IsDistinct nat_eq (numbers listed.now) }
        ensures { IfOk result (λ table. numbers (map (new_number table) listed.now) ≡ range_with_len 0 (length listed.now)) }
    {
        let mut table = vec![in alloc; Node(0); size]?;
        for (i, node) in listed.iter().enumerate() {
            table[node.0] = Node(i);
        }
        Ok(Numbering { table })
    }

    /// The new number of an entry; a number that the table lacks stays.
    pub(crate) fn new_number(&self, node: Node) -> Node
        ensures { result ≡ new_number self.now node }
    {
        match self.table.get(node.0) {
            Some(new) => *new,
            None => node,
        }
    }
}
