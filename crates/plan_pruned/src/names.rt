//! Names copied, listed, and added to others, each last unless it is there.
ghost use Rattle.std.specs.Prelude.{◌≡◌, ℕ, take, IfOk, OnErr, OnOk};
ghost use Rattle.plan_core.specs.Columns.{names_of};
ghost use Rattle.plan_core.specs.Names.{with_names};

use plan_core::{Items, Names, PlSmallStr, Schema};
use std::alloc::{AllocError, Global};

/// A copy of names. Refuses for want of memory alone.
pub fn copied_names(alloc: Global, names: &Names) -> Result<Names, AllocError>
    ensures { IfOk result (λ copy. copy ≡ names.now) }
{
    let mut copy = Names::new(alloc);
    for i in 0..names.len() {
        if let Some(name) = names.get_at_index(i) {
            let _ = copy.add(name)?;
        }
    }
    Ok(copy)
}

/// The names as a list. Refuses for want of memory alone.
pub fn listed_names(alloc: Global, names: &Names) -> Result<Items<PlSmallStr>, AllocError>
    ensures { IfOk result (λ list. list ≡ names.now) }
{
    let mut list = Items::new(alloc);
    for i in 0..names.len() {
        if let Some(name) = names.get_at_index(i) {
            list.push(PlSmallStr::new(alloc, name)?)?;
        }
    }
    Ok(list)
}

/// Adds the names, in their order. Refuses for want of memory alone, and then a front of them is added.
pub fn add_listed(names: &mut Names, others: &[PlSmallStr]) -> Result<(), AllocError>
    ensures added { OnOk result (names.new ≡ with_names names.old others.now) }
    ensures front { OnErr result ((k : ℕ) × (names.new ≡ with_names names.old (take k others.now))) }
{
    for name in others {
        let _ = names.add(name.as_str())?;
    }
    Ok(())
}

/// Adds the names of the columns, in their order. Refuses for want of memory alone, and then a front of them is added.
pub fn add_columns(names: &mut Names, columns: &Schema) -> Result<(), AllocError>
    ensures added { OnOk result (names.new ≡ with_names names.old (names_of columns.now)) }
    ensures front { OnErr result ((k : ℕ) × (names.new ≡ with_names names.old (take k (names_of columns.now)))) }
{
    for i in 0..columns.len() {
        if let Some((name, _)) = columns.get_at_index(i) {
            let _ = names.add(name)?;
        }
    }
    Ok(())
}
