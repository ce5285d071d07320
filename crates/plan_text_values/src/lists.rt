//! Writers for arrays: of the values of a slice, and of the entries of an arena.
ghost use Rattle.std.specs.Fn.{FnReturnsAt};
ghost use Rattle.plan_text_values.specs.Lists.{WritesEach};

use plan_core::{Arena, Node};
use serde_json::Value;
use std::alloc::{AllocError, Global};

/// What `write` gives at each value, in order.
pub fn each<T, F: Fn(&T) -> Result<Value, AllocError>>(
    alloc: Global,
    items: &[T],
    write: F,
) -> Result<Vec<Value>, AllocError>
    requires { F.IsAlwaysCallable write }
    ensures { WritesEach (FnReturnsAt F.Fn write) result items.now }
{
    let mut written = Vec::new(alloc);
    for item in items {
        match write(item) {
            Ok(value) => written.push(value)?,
            Err(refused) => return Err(refused),
        }
    }
    Ok(written)
}

/// What `write` gives at each entry, in order. Refuses for want of memory alone.
pub fn each_entry<T, F: Fn(&T) -> Result<Value, AllocError>>(
    alloc: Global,
    arena: &Arena<T>,
    write: F,
) -> Result<Vec<Value>, AllocError>
    requires { F.IsAlwaysCallable write }
    ensures { WritesEach (FnReturnsAt F.Fn write) result arena.now }
{
    let mut written = Vec::new(alloc);
    for i in 0..arena.len() {
        match write(arena.get(Node(i))) {
            Ok(value) => written.push(value)?,
            Err(refused) => return Err(refused),
        }
    }
    Ok(written)
}
