//! The rows of a table from one on up to another, which need no list of their numbers.
ghost use Rattle.std.specs.Prelude.{◌≡◌, ◌-◌, IfOk};
ghost use Rattle.std.specs.List.{range_with_len};
ghost use Rattle.plan_frame.specs.Frames.{picked, picked_columns, rows_at as rows_of};
ghost use Rattle.plan_table.specs.Tables.{types_of};
ghost use Rattle.plan_value.specs.Shown.{column_shown, columns_shown, frame_of, schema_of, values_of};

use plan_core::{Items, TryClone};
use plan_table::{AnyValue, Column, Columns, Table};
use plan_value::value_in;
use std::alloc::{AllocError, Global};

/// The values in the rows from one on up to another, null beyond the last.
fn values_between(
    alloc: Global,
    values: &[AnyValue],
    first: usize,
    end: usize,
) -> Result<Items<AnyValue>, AllocError>
    ensures { IfOk result (λ vs. values_of vs ≡ picked (range_with_len first (end - first)) (values_of values.now)) }
{
    let mut own = Items::new(alloc);
    for row in first..end {
        own.push(value_in(alloc, values, row)?)?;
    }
    Ok(own)
}

/// A column cut to these rows.
pub fn column_between(
    alloc: Global,
    column: &Column,
    first: usize,
    end: usize,
) -> Result<Column, AllocError>
    ensures shown { IfOk result (λ c. column_shown c ≡ record { name = column.now.name; values = picked (range_with_len first (end - first)) (values_of column.now.values) }) }
    ensures dtype { IfOk result (λ c. c.dtype ≡ column.now.dtype) }
{
    Ok(Column {
        name: column.name.try_clone(alloc)?,
        dtype: column.dtype,
        values: values_between(alloc, column.values.as_slice(), first, end)?,
    })
}

/// The columns of a table cut to these rows.
fn columns_between(
    alloc: Global,
    table: &Table,
    first: usize,
    end: usize,
) -> Result<Columns, AllocError>
    ensures shown { IfOk result (λ cs. columns_shown cs ≡ picked_columns (range_with_len first (end - first)) (columns_shown table.now.columns)) }
    ensures types { IfOk result (λ cs. types_of cs ≡ schema_of table.now) }
{
    let mut columns = Columns::new(alloc);
    for column in table.columns.iter() {
        columns.with_column(column_between(alloc, column, first, end)?)?;
    }
    Ok(columns)
}

/// A table cut to these rows.
pub fn table_between(
    alloc: Global,
    table: &Table,
    first: usize,
    end: usize,
) -> Result<Table, AllocError>
    ensures frame { IfOk result (λ t. frame_of t ≡ rows_of (range_with_len first (end - first)) (frame_of table.now)) }
    ensures types { IfOk result (λ t. schema_of t ≡ schema_of table.now) }
{
    Ok(Table {
        height: end.saturating_sub(first),
        columns: columns_between(alloc, table, first, end)?,
    })
}
