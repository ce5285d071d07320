//! Tables one after another, cut to some columns.
ghost use Rattle.std.specs.Prelude.{◌≡◌, IfOk};
ghost use Rattle.plan_core.specs.Columns.{names_of};
ghost use Rattle.plan_frame.specs.Frames.{stack as stack_of, stacked, total_height};
ghost use Rattle.plan_value.specs.Shown.{column_shown, frame_of, schema_of, values_of};
ghost use Rattle.plan_eval.specs.Stacks.{shown_tables};

use plan_core::{DataType, Items, PlSmallStr, Schema};
use plan_file_tables::append_column;
use plan_table::{AnyValue, Column, Columns, Table};
use std::alloc::{AllocError, Global};

/// The values of the columns of a name, one table after another.
fn stacked_values(
    alloc: Global,
    tables: &[&Table],
    name: &str,
) -> Result<Items<AnyValue>, AllocError>
    ensures { IfOk result (λ vs. values_of vs ≡ stacked (shown_tables tables.now) name.now) }
{
    let mut values = Items::new(alloc);
    for table in tables {
        append_column(alloc, &mut values, *table, name)?;
    }
    Ok(values)
}

/// The heights of tables, summed. A sum beyond a `usize` is refused.
fn height_of(tables: &[&Table]) -> Result<usize, AllocError>
    ensures { IfOk result (λ height. height ≡ total_height (shown_tables tables.now)) }
{
    let mut height: usize = 0;
    for table in tables {
        height = height.checked_add(table.height).ok_or(AllocError)?;
    }
    Ok(height)
}

/// The column of a name, one table after another, of this type.
fn stacked_column(
    alloc: Global,
    tables: &[&Table],
    name: &str,
    dtype: DataType,
) -> Result<Column, AllocError>
    ensures shown { IfOk result (λ c. column_shown c ≡ record { name = name.now; values = stacked (shown_tables tables.now) name.now }) }
    ensures name { IfOk result (λ c. c.name ≡ name.now) }
    ensures dtype { IfOk result (λ c. c.dtype ≡ dtype) }
{
    Ok(Column {
        name: PlSmallStr::new(alloc, name)?,
        dtype,
        values: stacked_values(alloc, tables, name)?,
    })
}

/// The tables one after another, cut to these columns; a column that a table lacks is null in its rows.
pub fn stack(alloc: Global, tables: &[&Table], schema: &Schema) -> Result<Table, AllocError>
    ensures frame { IfOk result (λ t. frame_of t ≡ stack_of (names_of schema.now) (shown_tables tables.now)) }
    ensures types { IfOk result (λ t. schema_of t ≡ schema.now) }
{
    let mut columns = Columns::new(alloc);
    for (name, dtype) in schema.iter() {
        columns.with_column(stacked_column(alloc, tables, name, *dtype)?)?;
    }
    Ok(Table {
        height: height_of(tables)?,
        columns,
    })
}
