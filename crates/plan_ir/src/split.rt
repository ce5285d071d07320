//! Lists cut in two.
ghost use Rattle.std.specs.Prelude.{◌≡◌, ◌≤◌, [], drop, length, reverse, take, IfOk, OnOk};

use plan_core::Items;
use std::alloc::{AllocError, Global};

/// The first so many items, and those after them. No item is copied.
pub(crate) fn split_at<T: Drop>(
    alloc: Global,
    items: Items<T>,
    count: usize,
) -> Result<(Items<T>, Items<T>), AllocError>
    requires { count ≤ length items }
    ensures { IfOk result (λ parts. (parts.0 ≡ take count items) × (parts.1 ≡ drop count items)) }
{
    let mut first = items;
    let mut last_first = Items::new(alloc);
    pop_into(&mut first, count, &mut last_first)?;
    let mut rest = Items::new(alloc);
    pop_into(&mut last_first, 0, &mut rest)?;
    Ok((first, rest))
}

/// Takes items from the end, the last one first, until so many are left, into a list that has none.
fn pop_into<T: Drop>(
    from: &mut Items<T>,
    count: usize,
    out: &mut Items<T>,
) -> Result<(), AllocError>
    requires count { count ≤ length from.old }
    requires none { out.old ≡ [] }
    ensures left { OnOk result (from.new ≡ take count from.old) }
    ensures taken { OnOk result (out.new ≡ reverse (drop count from.old)) }
{
    while from.len() > count {
        if let Some(item) = from.pop() {
            out.push(item)?;
        }
    }
    Ok(())
}

/// Drops the items behind the first so many.
pub(crate) fn keep_first<T: Drop>(items: &mut Items<T>, count: usize)
    ensures { items.new ≡ take count items.old }
{
    while count < items.len() {
        let _ = items.pop();
    }
}
