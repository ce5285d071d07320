//! What a walk asks of the entries of an arena.
ghost use Rattle.std.specs.Prelude.{◌≡◌, ◌++◌, List, Bool, OnOk};
ghost use Rattle.plan_core.specs.declared.arena.Node.{Node};

use plan_core::{Items, Node};
use std::alloc::AllocError;

/// An entry of an arena that can stand in a tree: it names its inputs by their numbers.
pub trait Entry: Drop {
    ghost inputs: { Self → List Node };

    ghost bad: { Self → Bool };

    /// Whether the entry can't stand in a tree.
    fn is_bad(&self) -> bool
        ensures { result ≡ bad self.now };

    /// Appends the numbers of the inputs, from first to last. Refuses for want of memory alone.
    fn copy_inputs(&self, out: &mut Items<Node>) -> Result<(), AllocError>
        ensures { OnOk result (out.new ≡ out.old ++ inputs self.now) };
}
