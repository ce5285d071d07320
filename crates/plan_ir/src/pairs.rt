//! Copies of values, two at a time.
ghost use Rattle.std.specs.Prelude.{◌≡◌, IfOk};

use plan_core::TryClone;
use std::alloc::{AllocError, Global};

/// Copies of two values. Refuses for want of memory alone.
pub(crate) fn copy_both<A: TryClone, B: TryClone>(
    alloc: Global,
    first: &A,
    second: &B,
) -> Result<(A, B), AllocError>
    ensures { IfOk result (λ copies. (copies.0 ≡ first.now) × (copies.1 ≡ second.now)) }
{
    let first = first.try_clone(alloc)?;
    let second = second.try_clone(alloc)?;
    Ok((first, second))
}
