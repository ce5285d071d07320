//! Rows of a table, by their numbers.
ghost use Rattle.std.specs.Prelude.{◌≡◌, IfOk};
ghost use Rattle.plan_frame.specs.Frames.{Agree, picked as picked_of, row as row_of, rows_at as rows_of};
ghost use Rattle.plan_value.specs.Shown.{column_shown, frame_of, schema_of, value_of, values_of};

use plan_core::{Items, PlSmallStr, TryClone};
use plan_table::{AnyValue, Column, Columns, Table};
use std::alloc::{AllocError, Global};

/// The value in a row; null where there is no such row. Refuses for want of memory alone.
pub fn value_in(alloc: Global, values: &[AnyValue], row: usize) -> Result<AnyValue, AllocError>
    ensures { IfOk result (λ v. value_of v ≡ row_of (values_of values.now) row) }
{
    match values.get(row) {
        Some(value) => Ok(value.try_clone(alloc)?),
        None => Ok(AnyValue::Null),
    }
}

/// The values in these rows, in this order.
pub fn picked(
    alloc: Global,
    values: &[AnyValue],
    rows: &[usize],
) -> Result<Items<AnyValue>, AllocError>
    ensures { IfOk result (λ vs. values_of vs ≡ picked_of rows.now (values_of values.now)) }
{
    let mut picked = Items::new(alloc);
    for row in rows {
        picked.push(value_in(alloc, values, *row)?)?;
    }
    Ok(picked)
}

/// The column of these rows, in this order; a row that the column lacks is null. Refuses for want of memory alone.
pub fn picked_column(alloc: Global, column: &Column, rows: &[usize]) -> Result<Column, AllocError>
    ensures shown { IfOk result (λ c. column_shown c ≡ record { name = column.now.name; values = picked_of rows.now (values_of column.now.values) }) }
    ensures dtype { IfOk result (λ c. c.dtype ≡ column.now.dtype) }
{
    Ok(Column {
        name: column.name.try_clone(alloc)?,
        dtype: column.dtype,
        values: picked(alloc, column.values.as_slice(), rows)?,
    })
}

/// The table of these rows of a table, in this order, each as often as it stands there; a row that the table lacks is null
/// in each column. Refuses for want of memory alone.
pub fn rows_at(alloc: Global, table: &Table, rows: &[usize]) -> Result<Table, AllocError>
    ensures frame { IfOk result (λ t. frame_of t ≡ rows_of rows.now (frame_of table.now)) }
    ensures types { IfOk result (λ t. schema_of t ≡ schema_of table.now) }
{
    let mut columns = Columns::new(alloc);
    for column in table.columns.iter() {
        columns.with_column(picked_column(alloc, column, rows)?)?;
    }
    Ok(Table {
        height: rows.len(),
        columns,
    })
}

/// The table of these rows of a table, in this order, with its columns of some names alone.
pub fn rows_of_columns(
    alloc: Global,
    table: &Table,
    rows: &[usize],
    names: &[PlSmallStr],
) -> Result<Table, AllocError>
    ensures { IfOk result (λ t. Agree names.now (frame_of t) (rows_of rows.now (frame_of table.now))) }
{
    let mut columns = Columns::new(alloc);
    for name in names {
        if let Some(column) = table.columns.get(name.as_str()) {
            columns.with_column(picked_column(alloc, column, rows)?)?;
        }
    }
    Ok(Table {
        height: rows.len(),
        columns,
    })
}
