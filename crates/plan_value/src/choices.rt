//! The first of two values in each row, or the second.
ghost use Rattle.std.specs.Prelude.{◌≡◌, ◌∷◌, [], IfOk, if◌then◌else◌};
ghost use Rattle.plan_frame.specs.Meaning.{all_one, chosen as chosen_of, value_at as value_of_row};
ghost use Rattle.plan_frame.specs.Values.{is_true};
ghost use Rattle.plan_value.specs.Cells.{cell_of};
ghost use Rattle.plan_value.specs.Shown.{value_of};

use crate::exprs::{Values, is_true_at, value_at};
use plan_core::Items;
use plan_table::AnyValue;
use std::alloc::{AllocError, Global};

/// In a row the first value where the third one is true, else the second.
fn chosen_at(
    alloc: Global,
    row: usize,
    truthy: &Values,
    falsy: &Values,
    predicate: &Values,
) -> Result<AnyValue, AllocError>
    ensures { IfOk result (λ v. value_of v ≡ (if is_true (value_of_row (cell_of predicate.now) row) then value_of_row (cell_of truthy.now) row else value_of_row (cell_of falsy.now) row)) }
{
    if is_true_at(predicate, row) {
        value_at(alloc, truthy, row)
    } else {
        value_at(alloc, falsy, row)
    }
}

/// Whether these are one value.
fn is_one(values: &Values) -> bool
    ensures { result ≡ all_one (cell_of values.now ∷ []) }
{
    matches!(values, Values::One(_))
}

/// In each row the first value where the third one is true, else the second: one value where all three are.
pub fn chosen(
    alloc: Global,
    height: usize,
    truthy: &Values,
    falsy: &Values,
    predicate: &Values,
) -> Result<Values, AllocError>
    ensures { IfOk result (λ vs. cell_of vs ≡ chosen_of height (cell_of truthy.now) (cell_of falsy.now) (cell_of predicate.now)) }
{
    if is_one(truthy) && is_one(falsy) && is_one(predicate) {
        return Ok(Values::One(chosen_at(alloc, 0, truthy, falsy, predicate)?));
    }
    let mut values = Items::new(alloc);
    for row in 0..height {
        values.push(chosen_at(alloc, row, truthy, falsy, predicate)?)?;
    }
    Ok(Values::Many(values))
}
