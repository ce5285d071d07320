//! Rows in groups: those that are the same in each of some keys.
ghost use Rattle.std.specs.Prelude.{◌≡◌, ◌<◌, ℕ, get_or, length, replicate, [], IfOk, OnOk};
ghost use Rattle.plan_value.specs.Cells.{cells_of};
ghost use Rattle.plan_value.specs.Groups.{AreNumbered, key_at, rows_numbered};

use crate::exprs::{Values, value_at};
use indexmap::IndexSet;
use plan_core::Items;
use plan_table::AnyValue;
use std::alloc::{AllocError, Global};

/// The number of the group of each row, from the first row on.
#[derive(Drop)]
pub struct Groups {
    /// How many groups there are; each has a row.
    pub count: usize,
    /// The number of each row, below the count.
    pub numbers: Items<usize>,
}

/// The values of the keys in a row.
fn key_in(alloc: Global, keys: &[Values], row: usize) -> Result<Items<AnyValue>, AllocError>
    ensures { IfOk result (λ key. key ≡ key_at keys.now row) }
{
    let mut key = Items::new(alloc);
    for values in keys {
        key.push(value_at(alloc, values, row)?)?;
    }
    Ok(key)
}

/// The groups of so many rows that are the same in each of the keys, numbered from 0 on in the order in which their rows first
/// come. Refuses for want of memory alone.
pub fn grouped(alloc: Global, keys: &[Values], height: usize) -> Result<Groups, AllocError>
    ensures { IfOk result (λ groups. AreNumbered (cells_of keys.now) height groups.count groups.numbers) }
{
    let mut seen = IndexSet::new(alloc);
    let mut numbers = Items::new(alloc);
    number_rows(alloc, keys, height, &mut seen, &mut numbers)?;
    Ok(Groups {
        count: seen.len(),
        numbers,
    })
}

/// Numbers so many rows by their keys, from none on; the keys are kept in the order in which they first come.
fn number_rows(
    alloc: Global,
    keys: &[Values],
    height: usize,
    seen: &mut IndexSet<Items<AnyValue>>,
    numbers: &mut Items<usize>,
) -> Result<(), AllocError>
    requires seen { seen.old.keys ≡ [] }
    requires numbers { numbers.old ≡ [] }
    ensures { OnOk result (AreNumbered (cells_of keys.now) height (length seen.new.keys) numbers.new) }
{
    for row in 0..height {
        let (number, _) = seen.insert_full(key_in(alloc, keys, row)?)?;
        numbers.push(number)?;
    }
    Ok(())
}

/// So many lists without rows.
fn no_rows(alloc: Global, count: usize) -> Result<Vec<Items<usize>>, AllocError>
    ensures { IfOk result (λ groups. groups.items ≡ replicate count []) }
{
    let mut groups = Vec::new(alloc);
    for _ in 0..count {
        groups.push(Items::new(alloc))?;
    }
    Ok(groups)
}

/// The rows of each group, in order, the groups by their numbers. Refuses for want of memory alone.
pub fn rows_of_groups(alloc: Global, groups: &Groups) -> Result<Vec<Items<usize>>, AllocError>
    requires { (i : ℕ) → i < length groups.now.numbers → get_or groups.now.numbers i 0 < groups.now.count }
    ensures count { IfOk result (λ rows. length rows.items ≡ groups.now.count) }
    ensures rows { IfOk result (λ rows. (g : ℕ) → g < groups.now.count → get_or rows.items g [] ≡ rows_numbered groups.now.numbers g) }
{
    let mut rows = no_rows(alloc, groups.count)?;
    for (row, number) in groups.numbers.as_slice().iter().enumerate() {
        rows[*number].push(row)?;
    }
    Ok(rows)
}
