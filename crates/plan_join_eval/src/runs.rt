//! Runs of rows of a side in which no key can meet an inequality.
ghost use Rattle.std.specs.Prelude.{◌≡◌, ◌<◌, ◌≤◌, ◌+◌, ℕ, All, false, true, IfOk, IfSome};
ghost use Rattle.plan_frame.specs.Meaning.{value_at as value_of_row};
ghost use Rattle.plan_frame.specs.Values.{Value, is_true as true_value};
ghost use Rattle.plan_join_eval.specs.Runs.{are_comparable, is_met, is_up, is_within, AreRuns, IsPassed, IsRun, IsRunAt};
ghost use Rattle.plan_join.specs.Matching.{operator_of as operator_for};
ghost use Rattle.plan_table.specs.declared.value.AnyValue.TheVariants.{Null as null_value};
ghost use Rattle.plan_value.specs.Cells.{cell_of};
ghost use Rattle.plan_value.specs.Shown.{value_of};

use plan_core::{Items, TryClone};
use plan_expr::Operator;
use plan_options::InequalityOperator;
use plan_table::AnyValue;
use plan_value::{Values, operated};
use std::alloc::{AllocError, Global};

/// Rows one after another: how many they are, and a value beyond which none of their keys lies.
#[derive(Drop)]
pub struct Run {
    count: usize,
    bound: AnyValue,
}

/// Whether greater values of the side that is not gone through meet an inequality where a value does; else smaller ones do.
pub fn goes_up(operator: InequalityOperator, by_right: bool) -> bool
    ensures { result ≡ is_up operator by_right }
{
    match operator {
        InequalityOperator::Lt | InequalityOperator::LtEq => !by_right,
        InequalityOperator::Gt | InequalityOperator::GtEq => by_right,
    }
}

/// The value in a row, which is the one value in every row; null where there is no such row.
pub fn value_of_key<'a>(values: &'a Values, row: usize, null: &'a AnyValue) -> &'a AnyValue
    requires { null.now ≡ null_value }
    ensures { value_of result.now ≡ value_of_row (cell_of values.now) row }
{
    match values {
        Values::One(value) => value,
        Values::Many(values) => match values.as_slice().get(row) {
            Some(value) => value,
            None => null,
        },
    }
}

/// The operator that an inequality is.
pub fn operator_of(operator: InequalityOperator) -> Operator
    ensures { result ≡ operator_for operator }
{
    match operator {
        InequalityOperator::Lt => Operator::Lt,
        InequalityOperator::LtEq => Operator::LtEq,
        InequalityOperator::Gt => Operator::Gt,
        InequalityOperator::GtEq => Operator::GtEq,
    }
}

/// Whether a value is the truth value true.
pub fn is_true(value: &AnyValue) -> bool
    ensures { result ≡ true_value (value_of value.now) }
{
    matches!(value, AnyValue::Boolean(true))
}

/// Whether a key of the side that is gone through, the right one or the left, and one of the other meet an inequality.
fn meets(operator: InequalityOperator, by_right: bool, own: &AnyValue, other: &AnyValue) -> bool
    ensures { result ≡ is_met operator by_right (value_of own.now) (value_of other.now) }
{
    if by_right {
        is_true(&operated(operator_of(operator), other, own))
    } else {
        is_true(&operated(operator_of(operator), own, other))
    }
}

/// Whether a value is null or compares with another, which is a whole number or a text as it is.
fn compares(value: &AnyValue, bound: &AnyValue) -> bool
    ensures { result ≡ are_comparable (value_of value.now) (value_of bound.now) }
{
    match (value, bound) {
        (AnyValue::Null, _)
        | (AnyValue::Int64(_), AnyValue::Int64(_))
        | (AnyValue::String(_), AnyValue::String(_)) => true,
        _ => false,
    }
}

/// Whether a value is null, or lies up to a bound, or down to it.
fn lies_within(up: bool, bound: &AnyValue, value: &AnyValue) -> bool
    ensures { result ≡ is_within up (value_of bound.now) (value_of value.now) }
{
    if matches!(value, AnyValue::Null) {
        return true;
    }
    let operator = if up { Operator::LtEq } else { Operator::GtEq };
    compares(value, bound) && is_true(&operated(operator, value, bound))
}

/// Whether the keys of so many rows from one on are null, or lie up to a bound, or down to it.
fn all_within(
    up: bool,
    bound: &AnyValue,
    key: &Values,
    first: usize,
    count: usize,
    null: &AnyValue,
) -> bool
    requires null { null.now ≡ null_value }
    requires within { first + count ≤ 18446744073709551615 }
    ensures { result ≡ true → IsRun up (cell_of key.now) first count (value_of bound.now) }
{
    for row in first..first + count {
        if !lies_within(up, bound, value_of_key(key, row, null)) {
            return false;
        }
    }
    true
}

/// The value of so many rows from one on that lies the furthest up, or down.
fn furthest<'a>(
    up: bool,
    key: &'a Values,
    first: usize,
    count: usize,
    null: &'a AnyValue,
) -> &'a AnyValue
    requires null { null.now ≡ null_value }
    requires within { first + count ≤ 18446744073709551615 }
{
    let operator = if up { Operator::GtEq } else { Operator::LtEq };
    let mut best = null;
    for row in first..first + count {
        let value = value_of_key(key, row, null);
        if matches!(best, AnyValue::Null) || is_true(&operated(operator, value, best)) {
            best = value;
        }
    }
    best
}

/// The run of so many rows from one on, where the keys in it compare.
fn run_of(
    alloc: Global,
    up: bool,
    key: &Values,
    first: usize,
    count: usize,
) -> Result<Option<Run>, AllocError>
    requires { first + count ≤ 18446744073709551615 }
    ensures count { IfOk result (λ o. IfSome o (λ run. run.count ≡ count)) }
    ensures within { IfOk result (λ o. IfSome o (λ run. IsRun up (cell_of key.now) first count (value_of run.bound))) }
{
    let null = AnyValue::Null;
    let bound = furthest(up, key, first, count, &null);
    if !all_within(up, bound, key, first, count, &null) {
        return Ok(None);
    }
    Ok(Some(Run {
        count,
        bound: bound.try_clone(alloc)?,
    }))
}

/// The runs of rows from one on, below a height: of two, of four, and so on, as often as their count goes into the first row.
fn runs_from(
    alloc: Global,
    up: bool,
    key: &Values,
    first: usize,
    height: usize,
) -> Result<Items<Run>, AllocError>
    requires { first ≤ height }
    ensures { IfOk result (λ runs. All (IsRunAt up (cell_of key.now) first height) runs) }
{
    let mut runs = Items::new(alloc);
    let mut count: usize = 1;
    for _ in 0..63 {
        let Some(next) = count.checked_mul(2) else {
            break;
        };
        if next == 0 || next > height - first || first % next != 0 {
            break;
        }
        let Some(run) = run_of(alloc, up, key, first, next)? else {
            break;
        };
        runs.push(run)?;
        count = next;
    }
    Ok(runs)
}

/// The runs of rows from each of so many rows on.
pub fn all_runs(
    alloc: Global,
    up: bool,
    key: &Values,
    height: usize,
) -> Result<Vec<Items<Run>>, AllocError>
    ensures { IfOk result (λ runs. AreRuns up (cell_of key.now) height height runs.items) }
{
    let mut runs = Vec::new(alloc);
    for first in 0..height {
        runs.push(runs_from(alloc, up, key, first, height)?)?;
    }
    Ok(runs)
}

/// Whether no value within a bound meets an inequality with a value.
fn is_out_of_reach(
    operator: InequalityOperator,
    by_right: bool,
    own: &AnyValue,
    bound: &AnyValue,
) -> bool
    ensures { result ≡ true → (v : Value) → is_within (is_up operator by_right) (value_of bound.now) v ≡ true → is_met operator by_right (value_of own.now) v ≡ false }
{
    if !compares(own, bound) {
        return false;
    }
    !meets(operator, by_right, own, bound)
}

/// How many rows from one on can be passed over, as no key in them meets an inequality with a value: none where the first does, else by
/// the longest of its runs that is out of reach, or one.
pub fn passed_over(
    operator: InequalityOperator,
    by_right: bool,
    own: &AnyValue,
    key: &Values,
    first: usize,
    runs: &[Run],
) -> usize
    ensures { (height : ℕ) → first < height → All (IsRunAt (is_up operator by_right) (cell_of key.now) first height) runs.now → IsPassed operator by_right (value_of own.now) (cell_of key.now) first height result }
{
    let null = AnyValue::Null;
    if meets(operator, by_right, own, value_of_key(key, first, &null)) {
        return 0;
    }
    let mut count = 1;
    for run in runs {
        if !is_out_of_reach(operator, by_right, own, &run.bound) {
            break;
        }
        count = run.count;
    }
    count
}
