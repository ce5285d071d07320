//! What aggregates make of values.
ghost use Rattle.std.specs.Prelude.{◌≡◌, IfOk, length, map, pos, if◌then◌else◌};
ghost use Rattle.std.specs.Int.{w64, int_wrap};
ghost use Rattle.plan_frame.specs.Aggregates.{aggregated as aggregated_of, distinct as distinct_of, greater, lesser, number as number_of, present, single as single_made, taken, total};
ghost use Rattle.plan_frame.specs.Values.{is_null as null_value, whole};
ghost use Rattle.plan_value.specs.Shown.{single_of, value_of, values_of};

use crate::operators::ordering;
use crate::rows::value_in;
use indexmap::IndexSet;
use plan_core::{Items, TryClone};
use plan_expr::Aggregate;
use plan_table::{AnyValue, PlainValue};
use std::alloc::{AllocError, Global};

/// Whether a value is null.
pub fn is_null(value: &AnyValue) -> bool
    ensures { result ≡ null_value (value_of value.now) }
{
    matches!(value, AnyValue::Null)
}

/// The number that a value is; 0 where it is none.
pub fn number(value: &AnyValue) -> i64
    ensures { result ≡ number_of (value_of value.now) }
{
    match value {
        AnyValue::Int64(number) => *number,
        _ => 0,
    }
}

/// The greater of two values of one type, or the lesser; the first where they are the same.
fn better<'a>(greatest: bool, first: &'a AnyValue, second: &'a AnyValue) -> &'a AnyValue
    ensures { value_of result.now ≡ (if greatest then greater else lesser) (value_of first.now) (value_of second.now) }
{
    let ordering = ordering(second, first);
    let wins = if greatest {
        ordering.is_gt()
    } else {
        ordering.is_lt()
    };
    if wins { second } else { first }
}

/// The greatest value that isn't null, or the least; null where there is none.
fn best(alloc: Global, greatest: bool, values: &[AnyValue]) -> Result<AnyValue, AllocError>
    ensures { IfOk result (λ v. value_of v ≡ taken (if greatest then greater else lesser) (present (values_of values.now))) }
{
    let nothing = AnyValue::Null;
    let mut best = &nothing;
    for value in values {
        if is_null(best) {
            best = value;
        } else if !is_null(value) {
            best = better(greatest, best, value);
        }
    }
    Ok(best.try_clone(alloc)?)
}

/// The sum of the numbers among values, wrapped to 64 bits.
fn sum(values: &[AnyValue]) -> i64
    ensures { result ≡ int_wrap w64 (total (values_of values.now)) }
{
    let mut sum: i64 = 0;
    for value in values {
        sum = sum.wrapping_add(number(value));
    }
    sum
}

/// How many values aren't null.
fn count_present(values: &[AnyValue]) -> usize
    ensures { result ≡ length (present (values_of values.now)) }
{
    let mut count = 0;
    for value in values {
        if !is_null(value) {
            count += 1;
        }
    }
    count
}

/// How many values are distinct; null counts as one.
fn count_distinct(alloc: Global, values: &[AnyValue]) -> Result<usize, AllocError>
    ensures { IfOk result (λ n. n ≡ length (distinct_of (values_of values.now))) }
{
    let mut seen = IndexSet::new(alloc);
    for value in values {
        seen.insert(value.try_clone(alloc)?)?;
    }
    Ok(seen.len())
}

/// A value as it stands in a list; null where it is a list itself.
fn single(alloc: Global, value: &AnyValue) -> Result<PlainValue, AllocError>
    ensures { IfOk result (λ v. single_of v ≡ single_made (value_of value.now)) }
{
    match value {
        AnyValue::Null | AnyValue::List(_) => Ok(PlainValue::Null),
        AnyValue::Int64(number) => Ok(PlainValue::Int64(*number)),
        AnyValue::String(text) => Ok(PlainValue::String(text.try_clone(alloc)?)),
        AnyValue::Boolean(truth) => Ok(PlainValue::Boolean(*truth)),
    }
}

/// All values as they stand in a list, in order.
fn singles(alloc: Global, values: &[AnyValue]) -> Result<Items<PlainValue>, AllocError>
    ensures { IfOk result (λ vs. map single_of vs ≡ map single_made (values_of values.now)) }
{
    let mut singles = Items::new(alloc);
    for value in values {
        singles.push(single(alloc, value)?)?;
    }
    Ok(singles)
}

/// A number of values; whole numbers wrap at 64 bits.
pub fn counted(count: usize) -> AnyValue
    ensures { value_of result ≡ whole (int_wrap w64 (pos count)) }
{
    AnyValue::Int64((count as u64).cast_signed())
}

/// What an aggregate makes of all values.
pub fn aggregated(
    alloc: Global,
    aggregate: Aggregate,
    values: &[AnyValue],
) -> Result<AnyValue, AllocError>
    ensures { IfOk result (λ v. value_of v ≡ aggregated_of aggregate (values_of values.now)) }
{
    match aggregate {
        Aggregate::Min => best(alloc, false, values),
        Aggregate::Max => best(alloc, true, values),
        Aggregate::Sum => Ok(AnyValue::Int64(sum(values))),
        Aggregate::Count(true) => Ok(counted(values.len())),
        Aggregate::Count(false) => Ok(counted(count_present(values))),
        Aggregate::NUnique => Ok(counted(count_distinct(alloc, values)?)),
        Aggregate::First => value_in(alloc, values, 0),
        Aggregate::Last => value_in(alloc, values, values.len().saturating_sub(1)),
        Aggregate::Implode => Ok(AnyValue::List(singles(alloc, values)?)),
    }
}
