//! Values behind others: copies of some, one so many times, or those of a column of a table.
ghost use Rattle.std.specs.Prelude.{◌≡◌, ◌++◌, replicate, OnOk};
ghost use Rattle.plan_frame.specs.Frames.{column_or};
ghost use Rattle.plan_value.specs.Shown.{frame_of, value_of, values_of};

use plan_core::{Items, TryClone};
use plan_table::{AnyValue, Table};
use std::alloc::{AllocError, Global};

/// Appends copies of values. It refuses only where memory is short.
pub fn append(
    alloc: Global,
    values: &mut Items<AnyValue>,
    more: &[AnyValue],
) -> Result<(), AllocError>
    ensures { OnOk result (values.new ≡ values.old ++ more.now) }
{
    for value in more {
        values.push(value.try_clone(alloc)?)?;
    }
    Ok(())
}

/// Appends copies of a value, so many. It refuses only where memory is short.
pub fn append_times(
    alloc: Global,
    values: &mut Items<AnyValue>,
    value: &AnyValue,
    times: usize,
) -> Result<(), AllocError>
    ensures { OnOk result (values_of values.new ≡ values_of values.old ++ replicate times (value_of value.now)) }
{
    for _ in 0..times {
        values.push(value.try_clone(alloc)?)?;
    }
    Ok(())
}

/// Appends copies of the values of the first column of a name; null for each row where there is none. It refuses only
/// where memory is short.
pub fn append_column(
    alloc: Global,
    values: &mut Items<AnyValue>,
    table: &Table,
    name: &str,
) -> Result<(), AllocError>
    ensures { OnOk result (values_of values.new ≡ values_of values.old ++ column_or (frame_of table.now) name.now) }
{
    match table.columns.get(name) {
        Some(column) => Ok(append(alloc, values, column.values.as_slice())?),
        None => Ok(append_times(alloc, values, &AnyValue::Null, table.height)?),
    }
}
