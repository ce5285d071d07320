//! The rows whose keys are equal, found by the numbers of groups: rows of both sides that have the same keys are one group.
ghost use Rattle.std.specs.Prelude.{◌≡◌, ◌+◌, ◌++◌, length, map, IfOk, OnOk};
ghost use Rattle.std.specs.List.{range_with_len};
ghost use Rattle.plan_frame.specs.Meaning.{value_at as value_of_row};
ghost use Rattle.plan_frame.specs.Values.{is_null as null_value};
ghost use Rattle.plan_join_eval.specs.Equal.{may_match as may_be_matched, numbers_where, stacked_cells};
ghost use Rattle.plan_join.specs.Matching.{keys_match};
ghost use Rattle.plan_join.specs.Rows.{AreMatches};
ghost use Rattle.plan_value.specs.Cells.{cell_of, cells_of};
ghost use Rattle.plan_value.specs.Shown.{value_of, values_of};

use plan_core::Items;
use plan_join::Matches;
use plan_table::AnyValue;
use plan_value::{Groups, Values, grouped, rows_of_groups, value_at};
use std::alloc::{AllocError, Global};

/// Appends the values in so many rows.
fn append_values(
    alloc: Global,
    column: &mut Items<AnyValue>,
    values: &Values,
    height: usize,
) -> Result<(), AllocError>
    ensures { OnOk result (values_of column.new ≡ values_of column.old ++ map (value_of_row (cell_of values.now)) (range_with_len 0 height)) }
{
    for row in 0..height {
        column.push(value_at(alloc, values, row)?)?;
    }
    Ok(())
}

/// The values of keys in the rows of one side, and behind them those of the keys in their places in the rows of another.
fn stacked_keys(
    alloc: Global,
    first: &[Values],
    height: usize,
    second: &[Values],
    other: usize,
) -> Result<Items<Values>, AllocError>
    requires { length first.now ≡ length second.now }
    ensures { IfOk result (λ keys. cells_of keys ≡ stacked_cells height other (cells_of first.now) (cells_of second.now)) }
{
    let mut keys = Items::new(alloc);
    for (key, partner) in first.iter().zip(second) {
        let mut column = Items::new(alloc);
        append_values(alloc, &mut column, key, height)?;
        append_values(alloc, &mut column, partner, other)?;
        keys.push(Values::Many(column))?;
    }
    Ok(keys)
}

/// Whether a value is null.
fn is_null(value: &AnyValue) -> bool
    ensures { result ≡ null_value (value_of value.now) }
{
    matches!(value, AnyValue::Null)
}

/// Whether the value in a row is null, as it is where there is no such row.
fn is_null_at(values: &Values, row: usize) -> bool
    ensures { result ≡ null_value (value_of_row (cell_of values.now) row) }
{
    match values {
        Values::One(value) => is_null(value),
        Values::Many(values) => match values.as_slice().get(row) {
            Some(value) => is_null(value),
            None => true,
        },
    }
}

/// Whether a row may match another: where nulls are equal, or no key is null there.
fn may_match(keys: &[Values], row: usize, nulls: bool) -> bool
    ensures { result ≡ may_be_matched nulls (cells_of keys.now) row }
{
    if nulls {
        return true;
    }
    for key in keys {
        if is_null_at(key, row) {
            return false;
        }
    }
    true
}

/// The numbers of groups of rows, none for those that match no row.
fn numbers_of(
    alloc: Global,
    numbers: &[usize],
    keys: &[Values],
    nulls: bool,
) -> Result<Items<Option<usize>>, AllocError>
    ensures { IfOk result (λ own. own ≡ numbers_where nulls (cells_of keys.now) numbers.now) }
{
    let mut own = Items::new(alloc);
    for (row, number) in numbers.iter().enumerate() {
        if may_match(keys, row, nulls) {
            own.push(Some(*number))?;
        } else {
            own.push(None)?;
        }
    }
    Ok(own)
}

/// The numbers in the places of a list.
fn copied(alloc: Global, numbers: &[usize]) -> Result<Items<usize>, AllocError>
    ensures { IfOk result (λ own. own ≡ numbers.now) }
{
    let mut own = Items::new(alloc);
    for number in numbers {
        own.push(*number)?;
    }
    Ok(own)
}

/// The rows of one side, by the values of its keys, that match each row of another: where the keys are equal, each with the
/// one in its place. A null is equal to a null where that is told, and else to nothing. The time is that of the keys of both
/// sides. Refuses for want of memory alone.
pub fn equal_matches(
    alloc: Global,
    keys: &[Values],
    height: usize,
    partners: &[Values],
    others: usize,
    nulls: bool,
) -> Result<Matches, AllocError>
    requires { length partners.now ≡ length keys.now }
    ensures { IfOk result (AreMatches (keys_match nulls (cells_of keys.now) (cells_of partners.now)) height others) }
{
    let rows = others.checked_add(height).ok_or(AllocError)?;
    let all = stacked_keys(alloc, partners, others, keys, height)?;
    let groups = grouped(alloc, all.as_slice(), rows)?;
    let (of_others, own) = groups.numbers.as_slice().split_at(others);
    let lists = rows_of_groups(
        alloc,
        &Groups {
            count: groups.count,
            numbers: copied(alloc, of_others)?,
        },
    )?;
    Ok(Matches {
        lists,
        numbers: numbers_of(alloc, own, keys, nulls)?,
        others,
    })
}
