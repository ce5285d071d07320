//! The numbers of rows.
ghost use Rattle.std.specs.Prelude.{◌≡◌, ◌+◌, IfOk, pos};
ghost use Rattle.std.specs.Int.{int_wrap, w64};
ghost use Rattle.plan_frame.specs.Reshaped.{row_numbers as row_numbers_of};
ghost use Rattle.plan_value.specs.Shown.{values_of};

use plan_core::Items;
use plan_table::AnyValue;
use std::alloc::{AllocError, Global};

/// The number of a row where the first has this one; whole numbers wrap at 64 bits.
fn row_number(first: u32, row: usize) -> i64
    ensures { result ≡ int_wrap w64 (pos (first + row)) }
{
    (first as u64).wrapping_add(row as u64).cast_signed()
}

/// The numbers of so many rows from a first one on, each one more, wrapping at 64 bits. Refuses for want of memory alone.
pub fn row_numbers(alloc: Global, first: u32, height: usize) -> Result<Items<AnyValue>, AllocError>
    ensures { IfOk result (λ numbers. values_of numbers ≡ row_numbers_of first height) }
{
    let mut numbers = Items::new(alloc);
    for row in 0..height {
        numbers.push(AnyValue::Int64(row_number(first, row)))?;
    }
    Ok(numbers)
}
