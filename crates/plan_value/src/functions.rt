//! What functions make of values.
ghost use Rattle.std.specs.Prelude.{◌≡◌, IfOk, map, pos, reverse};
ghost use Rattle.plan_frame.specs.Aggregates.{negated as negated_of, running_sums as running_sums_of, sum_at as sum_of};
ghost use Rattle.plan_frame.specs.Meaning.{all_values, called_on as called_of, called_on_two as called_of_two, each_value};
ghost use Rattle.plan_value.specs.Cells.{cell_of};
ghost use Rattle.plan_value.specs.Pairs.{in_row as in_row_of};
ghost use Rattle.plan_value.specs.Shown.{value_of, values_of};

use crate::aggregates::{is_null, number};
use crate::exprs::Values;
use crate::spread::{Pairing, spread_by};
use plan_core::Items;
use plan_expr::FunctionExpr;
use plan_table::AnyValue;
use std::alloc::{AllocError, Global};

/// The truth value that a value isn't; null where it is none.
fn negated(value: &AnyValue) -> AnyValue
    ensures { value_of result ≡ negated_of (value_of value.now) }
{
    match value {
        AnyValue::Boolean(truth) => AnyValue::Boolean(!*truth),
        _ => AnyValue::Null,
    }
}

/// What a function makes of one value; null where it looks at other rows too, or takes two values.
fn in_row(function: FunctionExpr, value: &AnyValue) -> AnyValue
    ensures { value_of result ≡ in_row_of function (value_of value.now) }
{
    match function {
        FunctionExpr::Not => negated(value),
        FunctionExpr::IsNull => AnyValue::Boolean(is_null(value)),
        FunctionExpr::IsNotNull => AnyValue::Boolean(!is_null(value)),
        FunctionExpr::FillNull | FunctionExpr::Reverse | FunctionExpr::CumSum => AnyValue::Null,
    }
}

/// What a function makes of each of many values.
fn in_rows(
    alloc: Global,
    function: FunctionExpr,
    values: &[AnyValue],
) -> Result<Items<AnyValue>, AllocError>
    ensures { IfOk result (λ vs. values_of vs ≡ map (in_row_of function) (values_of values.now)) }
{
    let mut made = Items::new(alloc);
    for value in values {
        made.push(in_row(function, value))?;
    }
    Ok(made)
}

/// What a function makes of each value.
fn each(alloc: Global, function: FunctionExpr, input: Values) -> Result<Values, AllocError>
    ensures { IfOk result (λ vs. cell_of vs ≡ each_value (in_row_of function) (cell_of input)) }
{
    match input {
        Values::One(value) => Ok(Values::One(in_row(function, &value))),
        Values::Many(values) => Ok(Values::Many(in_rows(alloc, function, values.as_slice())?)),
    }
}

/// The values from the last one to the first.
fn reversed(alloc: Global, mut values: Items<AnyValue>) -> Result<Items<AnyValue>, AllocError>
    ensures { IfOk result (λ vs. values_of vs ≡ reverse (values_of values)) }
{
    let mut reversed = Items::new(alloc);
    while let Some(value) = values.pop() {
        reversed.push(value)?;
    }
    Ok(reversed)
}

/// A sum at a value: null where that is null.
fn sum_at(value: &AnyValue, sum: i64) -> AnyValue
    ensures { value_of result ≡ sum_of (value_of value.now) sum }
{
    if is_null(value) {
        AnyValue::Null
    } else {
        AnyValue::Int64(sum)
    }
}

/// The sums up to each value, wrapped to 64 bits; null where the value is.
fn running_sums(alloc: Global, values: &[AnyValue]) -> Result<Items<AnyValue>, AllocError>
    ensures { IfOk result (λ vs. values_of vs ≡ running_sums_of (pos 0) (values_of values.now)) }
{
    let mut sums = Items::new(alloc);
    let mut sum: i64 = 0;
    for value in values {
        sum = sum.wrapping_add(number(value));
        sums.push(sum_at(value, sum))?;
    }
    Ok(sums)
}

/// All values from the last row to the first; its one value alone stays.
fn all_reversed(alloc: Global, input: Values) -> Result<Values, AllocError>
    ensures { IfOk result (λ vs. cell_of vs ≡ all_values reverse (cell_of input)) }
{
    match input {
        Values::One(value) => Ok(Values::One(value)),
        Values::Many(values) => Ok(Values::Many(reversed(alloc, values)?)),
    }
}

/// The sums up to each value; one value is taken as a column of one row.
fn all_summed(alloc: Global, input: Values) -> Result<Values, AllocError>
    ensures { IfOk result (λ vs. cell_of vs ≡ all_values (running_sums_of (pos 0)) (cell_of input)) }
{
    match input {
        Values::One(value) => Ok(Values::One(sum_at(&value, number(&value)))),
        Values::Many(values) => Ok(Values::Many(running_sums(alloc, values.as_slice())?)),
    }
}

/// What a function makes of one input; null where it takes two.
pub fn called_on(alloc: Global, function: FunctionExpr, input: Values) -> Result<Values, AllocError>
    ensures { IfOk result (λ vs. cell_of vs ≡ called_of function (cell_of input)) }
{
    match function {
        FunctionExpr::Not => Ok(each(alloc, function, input)?),
        FunctionExpr::IsNull => Ok(each(alloc, function, input)?),
        FunctionExpr::IsNotNull => Ok(each(alloc, function, input)?),
        FunctionExpr::FillNull => Ok(Values::One(AnyValue::Null)),
        FunctionExpr::Reverse => all_reversed(alloc, input),
        FunctionExpr::CumSum => all_summed(alloc, input),
    }
}

/// What a function makes of two inputs; null where it takes one.
pub fn called_on_two(
    alloc: Global,
    function: FunctionExpr,
    first: Values,
    second: Values,
) -> Result<Values, AllocError>
    ensures { IfOk result (λ vs. cell_of vs ≡ called_of_two function (cell_of first) (cell_of second)) }
{
    match function {
        FunctionExpr::FillNull => spread_by(alloc, Pairing::FillNull, first, second),
        FunctionExpr::Not
        | FunctionExpr::IsNull
        | FunctionExpr::IsNotNull
        | FunctionExpr::Reverse
        | FunctionExpr::CumSum => Ok(Values::One(AnyValue::Null)),
    }
}
