//! A concatenation gives the columns of its inputs beside one another, as high as the highest input; the others have null in the
//! rows that they lack.
ghost use Rattle.std.specs.Prelude.{◌≡◌, List, IfOk, OnOk, fold, map};
ghost use Rattle.std.specs.List.{range_with_len};
ghost use Rattle.plan_core.specs.Columns.{Columns as ColumnTypes};
ghost use Rattle.plan_ir.specs.Plans.{hconcat as hconcat_op};
ghost use Rattle.plan_frame.specs.Frames.{highest as highest_of, picked, picked_columns, with_new_column};
ghost use Rattle.plan_frame.specs.Beside.{with_new};
ghost use Rattle.plan_options.specs.declared.union.HConcatOptions.{HConcatOptions};
ghost use Rattle.plan_table.specs.declared.source_key.SourceKey.{SourceKey};
ghost use Rattle.plan_table.specs.declared.table.Table.{Table as TableType};
ghost use Rattle.plan_table.specs.Tables.{types_of};
ghost use Rattle.plan_function_tables.specs.Given.{Gives};
ghost use Rattle.plan_value.specs.Shown.{column_shown, columns_shown, frame_of, values_of};

use crate::between::column_between;
use plan_table::{Column, Columns, Table};
use std::alloc::{AllocError, Global};

/// The height of the highest table.
fn highest(tables: &[Table]) -> usize
    ensures { result ≡ highest_of (map frame_of tables.now) }
{
    let mut height: usize = 0;
    for table in tables {
        height = height.max(table.height);
    }
    height
}

/// So many rows of a column, null beyond its last: the column itself where these are all.
fn levelled(alloc: Global, column: Column, height: usize) -> Result<Column, AllocError>
    ensures shown { IfOk result (λ c. column_shown c ≡ record { name = column.name; values = picked (range_with_len 0 height) (values_of column.values) }) }
    ensures dtype { IfOk result (λ c. c.dtype ≡ column.dtype) }
{
    if column.values.len() == height {
        return Ok(column);
    }
    Ok(column_between(alloc, &column, 0, height)?)
}

/// Appends so many rows of a column, null beyond its last, unless a column is called like it. Refuses for want of memory alone.
fn append_column(
    alloc: Global,
    columns: &mut Columns,
    column: Column,
    height: usize,
) -> Result<(), AllocError>
    ensures shown { OnOk result (columns_shown columns.new ≡ with_new_column (columns_shown columns.old) (record { name = column.name; values = picked (range_with_len 0 height) (values_of column.values) })) }
    ensures types { OnOk result (types_of columns.new ≡ with_new (types_of columns.old) (column.name, column.dtype)) }
{
    if columns.get(column.name.as_str()).is_some() {
        return Ok(());
    }
    columns.with_column(levelled(alloc, column, height)?)
}

/// Appends so many rows of columns, in order, but of those that are called like one that is there. Refuses for want of memory
/// alone.
fn append_rows(
    alloc: Global,
    columns: &mut Columns,
    more: Columns,
    height: usize,
) -> Result<(), AllocError>
    ensures shown { OnOk result (columns_shown columns.new ≡ fold with_new_column (columns_shown columns.old) (picked_columns (range_with_len 0 height) (columns_shown more))) }
    ensures types { OnOk result (types_of columns.new ≡ fold with_new (types_of columns.old) (types_of more)) }
{
    for column in more.into_values() {
        append_column(alloc, columns, column, height)?;
    }
    Ok(())
}

/// The table of the concatenation.
pub fn hconcat(alloc: Global, tables: Vec<Table>) -> Result<Table, AllocError>
    ensures { (ts : List (SourceKey × TableType)) (schema : ColumnTypes) (options : HConcatOptions) → IfOk result (Gives ts (hconcat_op schema options) tables.items) }
{
    let height = highest(tables.as_slice());
    let mut columns = Columns::new(alloc);
    for table in tables {
        append_rows(alloc, &mut columns, table.columns, height)?;
    }
    Ok(Table { height, columns })
}
