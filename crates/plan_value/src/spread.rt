//! Two sides, row by row: one value is spread beside many.
ghost use Rattle.std.specs.Prelude.{◌≡◌, IfOk, map};
ghost use Rattle.plan_frame.specs.Meaning.{many, one, spread as spread_of, zip_by};
ghost use Rattle.plan_value.specs.Cells.{cell_of};
ghost use Rattle.plan_value.specs.Pairs.{paired as paired_of};
ghost use Rattle.plan_value.specs.Shown.{value_of, values_of};

use crate::exprs::Values;
use crate::operators::operated;
use plan_core::{Items, TryClone};
use plan_expr::Operator;
use plan_table::AnyValue;
use std::alloc::{AllocError, Global};

/// What is made of two values.
#[derive(Clone, Copy)]
pub enum Pairing {
    /// What an operator gives for them.
    Operator(Operator),
    /// The first, and the second where that is null.
    FillNull,
}

/// What is made of two values.
fn paired(
    alloc: Global,
    pairing: Pairing,
    left: &AnyValue,
    right: &AnyValue,
) -> Result<AnyValue, AllocError>
    ensures { IfOk result (λ v. value_of v ≡ paired_of pairing (value_of left.now) (value_of right.now)) }
{
    match (pairing, left) {
        (Pairing::Operator(op), _) => Ok(operated(op, left, right)),
        (Pairing::FillNull, AnyValue::Null) => Ok(right.try_clone(alloc)?),
        (Pairing::FillNull, _) => Ok(left.try_clone(alloc)?),
    }
}

/// What is made of one value beside each of many.
fn beside_left(
    alloc: Global,
    pairing: Pairing,
    left: &AnyValue,
    rights: &[AnyValue],
) -> Result<Items<AnyValue>, AllocError>
    ensures { IfOk result (λ vs. values_of vs ≡ map (λ y. paired_of pairing (value_of left.now) y) (values_of rights.now)) }
{
    let mut values = Items::new(alloc);
    for right in rights {
        values.push(paired(alloc, pairing, left, right)?)?;
    }
    Ok(values)
}

/// What is made of each of many values beside one.
fn beside_right(
    alloc: Global,
    pairing: Pairing,
    lefts: &[AnyValue],
    right: &AnyValue,
) -> Result<Items<AnyValue>, AllocError>
    ensures { IfOk result (λ vs. values_of vs ≡ map (λ x. paired_of pairing x (value_of right.now)) (values_of lefts.now)) }
{
    let mut values = Items::new(alloc);
    for left in lefts {
        values.push(paired(alloc, pairing, left, right)?)?;
    }
    Ok(values)
}

/// What is made of two sides row by row, up to the end of the shorter one.
fn row_by_row(
    alloc: Global,
    pairing: Pairing,
    lefts: &[AnyValue],
    rights: &[AnyValue],
) -> Result<Items<AnyValue>, AllocError>
    ensures { IfOk result (λ vs. values_of vs ≡ zip_by (paired_of pairing) (values_of lefts.now) (values_of rights.now)) }
{
    let mut values = Items::new(alloc);
    for (left, right) in lefts.iter().zip(rights) {
        values.push(paired(alloc, pairing, left, right)?)?;
    }
    Ok(values)
}

/// What is made of one value and of one side: the value is spread beside many.
fn spread_left(
    alloc: Global,
    pairing: Pairing,
    left: &AnyValue,
    right: &Values,
) -> Result<Values, AllocError>
    ensures { IfOk result (λ vs. cell_of vs ≡ spread_of (paired_of pairing) (one (value_of left.now)) (cell_of right.now)) }
{
    match right {
        Values::One(y) => Ok(Values::One(paired(alloc, pairing, left, y)?)),
        Values::Many(ys) => Ok(Values::Many(beside_left(alloc, pairing, left, ys.as_slice())?)),
    }
}

/// What is made of many values and of one side: one value is spread beside many.
fn spread_right(
    alloc: Global,
    pairing: Pairing,
    lefts: &[AnyValue],
    right: &Values,
) -> Result<Values, AllocError>
    ensures { IfOk result (λ vs. cell_of vs ≡ spread_of (paired_of pairing) (many (values_of lefts.now)) (cell_of right.now)) }
{
    match right {
        Values::One(y) => Ok(Values::Many(beside_right(alloc, pairing, lefts, y)?)),
        Values::Many(ys) => Ok(Values::Many(row_by_row(alloc, pairing, lefts, ys.as_slice())?)),
    }
}

/// What is made of two sides: one value is spread beside many.
fn spread_sides(
    alloc: Global,
    pairing: Pairing,
    left: &Values,
    right: &Values,
) -> Result<Values, AllocError>
    ensures { IfOk result (λ vs. cell_of vs ≡ spread_of (paired_of pairing) (cell_of left.now) (cell_of right.now)) }
{
    match left {
        Values::One(x) => spread_left(alloc, pairing, x, right),
        Values::Many(xs) => spread_right(alloc, pairing, xs.as_slice(), right),
    }
}

/// What is made of two sides: one value is spread beside many.
pub fn spread_by(
    alloc: Global,
    pairing: Pairing,
    left: Values,
    right: Values,
) -> Result<Values, AllocError>
    ensures { IfOk result (λ vs. cell_of vs ≡ spread_of (paired_of pairing) (cell_of left) (cell_of right)) }
{
    let values = spread_sides(alloc, pairing, &left, &right);
    drop(left);
    drop(right);
    values
}
