//! How rows stand by keys.
ghost use Rattle.std.specs.Prelude.{◌≡◌};
ghost use Rattle.plan_frame.specs.Meaning.{value_at as value_of_row};
ghost use Rattle.plan_frame.specs.Orders.{first_mark as first_of, key_cmp, rest_marks as rest_of, rows_cmp};
ghost use Rattle.plan_table.specs.declared.value.AnyValue.TheVariants.{Null as null_value};
ghost use Rattle.plan_value.specs.Cells.{cell_of, cells_of};
ghost use Rattle.plan_value.specs.Shown.{value_of};

use crate::exprs::Values;
use crate::operators::ordering;
use plan_table::AnyValue;
use std::cmp::Ordering;

/// How two values of a key stand: null comes first, or last where that is asked; others as their type orders them, or the
/// other way round where the key descends.
fn value_ordering(descending: bool, nulls_last: bool, left: &AnyValue, right: &AnyValue) -> Ordering
    ensures { result ≡ key_cmp descending nulls_last (value_of left.now) (value_of right.now) }
{
    match (left, right) {
        (AnyValue::Null, AnyValue::Null) => Ordering::Equal,
        (AnyValue::Null, _) => {
            if nulls_last {
                Ordering::Greater
            } else {
                Ordering::Less
            }
        }
        (_, AnyValue::Null) => {
            if nulls_last {
                Ordering::Less
            } else {
                Ordering::Greater
            }
        }
        _ => {
            if descending {
                ordering(left, right).reverse()
            } else {
                ordering(left, right)
            }
        }
    }
}

/// The value in a row, which is the one value in every row; null where there is no such row.
fn value_or<'a>(values: &'a Values, row: usize, null: &'a AnyValue) -> &'a AnyValue
    requires { null.now ≡ null_value }
    ensures { value_of result.now ≡ value_of_row (cell_of values.now) row }
{
    match values {
        Values::One(value) => value,
        Values::Many(values) => match values.as_slice().get(row) {
            Some(value) => value,
            None => null,
        },
    }
}

/// How two rows stand by one key.
fn key_ordering(
    descending: bool,
    nulls_last: bool,
    key: &Values,
    left: usize,
    right: usize,
) -> Ordering
    ensures { result ≡ key_cmp descending nulls_last (value_of_row (cell_of key.now) left) (value_of_row (cell_of key.now) right) }
{
    let null = AnyValue::Null;
    let left = value_or(key, left, &null);
    let right = value_or(key, right, &null);
    value_ordering(descending, nulls_last, left, right)
}

/// The mark of the first key; false where there is none.
fn first_mark(marks: &[bool]) -> bool
    ensures { result ≡ first_of marks.now }
{
    match marks {
        [] => false,
        [mark, ..] => *mark,
    }
}

/// The marks of the keys after the first; one mark alone is that of all.
fn rest_marks(marks: &[bool]) -> &[bool]
    ensures { result.now ≡ rest_of marks.now }
{
    if marks.len() < 2 { marks } else { &marks[1..] }
}

/// How two rows stand by keys: by the first one that tells them apart. A mark for each key, or one for all, says whether
/// it descends, and another whether its nulls come last.
pub fn row_ordering(
    keys: &[Values],
    descending: &[bool],
    nulls_last: &[bool],
    left: usize,
    right: usize,
) -> Ordering
    ensures { result ≡ rows_cmp (cells_of keys.now) descending.now nulls_last.now left right }
{
    let mut descending = descending;
    let mut nulls_last = nulls_last;
    for key in keys {
        let ordering = key_ordering(
            first_mark(descending),
            first_mark(nulls_last),
            key,
            left,
            right,
        );
        if ordering.is_ne() {
            return ordering;
        }
        descending = rest_marks(descending);
        nulls_last = rest_marks(nulls_last);
    }
    Ordering::Equal
}
