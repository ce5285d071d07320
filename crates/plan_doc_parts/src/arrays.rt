//! Readers for arrays of any entries.
ghost use Rattle.std.specs.Fn.{FnReturnsAt};
ghost use Rattle.plan_doc_parts.specs.Each.{ReadsEach};

use crate::fault::Fault;
use plan_core::{Arena, Items};
use serde_json::Value;
use std::alloc::Global;

/// The list of what `read` gives at each entry. Refuses as `read` does at the first entry that it refuses, and with
/// `Memory` where memory is short.
pub fn each<T: Drop, F: Fn(&Value) -> Result<T, Fault>>(
    alloc: Global,
    entries: &[Value],
    read: F,
) -> Result<Items<T>, Fault>
    requires { F.IsAlwaysCallable read }
    ensures { ReadsEach (FnReturnsAt F.Fn read) result entries.now }
{
    let mut found = Items::new(alloc);
    for entry in entries {
        match read(entry) {
            Ok(item) => found.push(item)?,
            Err(fault) => return Err(fault),
        }
    }
    Ok(found)
}

/// The arena of what `read` gives at each entry. Refuses as `read` does at the first entry that it refuses, and with
/// `Memory` where memory is short.
pub fn arena_of_each<T: Drop, F: Fn(&Value) -> Result<T, Fault>>(
    alloc: Global,
    entries: &[Value],
    read: F,
) -> Result<Arena<T>, Fault>
    requires { F.IsAlwaysCallable read }
    ensures { ReadsEach (FnReturnsAt F.Fn read) result entries.now }
{
    let mut found = Arena::with_capacity(alloc, entries.len())?;
    for entry in entries {
        match read(entry) {
            Ok(item) => {
                let _ = found.add(item)?;
            }
            Err(fault) => return Err(fault),
        }
    }
    Ok(found)
}
