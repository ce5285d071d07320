//! Lists of numbers of expressions.
ghost use Rattle.std.specs.Prelude.{◌≡◌, ◌<◌, ◌^◌, ◌++◌, slice_get, IfOk, OnOk, IfSome};

use plan_core::{Items, Node};
use std::alloc::{AllocError, Global};

/// The number in a place, counted from 0, if there are so many.
pub fn at(nodes: &[Node], place: usize) -> Option<Node>
    ensures there { result ≡ slice_get nodes.now place }
    ensures further { IfSome result (λ _. place < 2 ^ 63) }
{
    if place < nodes.len() {
        Some(nodes[place])
    } else {
        None
    }
}

/// Appends the numbers. Refuses for want of memory alone.
pub fn append(out: &mut Items<Node>, nodes: &[Node]) -> Result<(), AllocError>
    ensures { OnOk result (out.new ≡ out.old ++ nodes.now) }
{
    for node in nodes {
        out.push(*node)?;
    }
    Ok(())
}

/// The same numbers in a list of their own. Refuses for want of memory alone.
pub fn copied(alloc: Global, nodes: &[Node]) -> Result<Items<Node>, AllocError>
    ensures { IfOk result (λ copy. copy ≡ nodes.now) }
{
    let mut copy = Items::new(alloc);
    append(&mut copy, nodes)?;
    Ok(copy)
}
