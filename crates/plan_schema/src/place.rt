//! Places of faults.
ghost use Rattle.std.specs.Prelude.{◌≡◌};
ghost use Rattle.plan_meaning.specs.Typing.{at as at_place};

use plan_core::{At, Node};

/// A place of a node, for a fault. A place above 4294967295 is given as 4294967295.
pub fn at(node: Node, place: usize) -> At
    ensures { result ≡ at_place node place }
{
    let place = if place >= 4294967295 {
        4294967295
    } else {
        place as u32
    };
    At {
        node: Some(node),
        place,
    }
}
