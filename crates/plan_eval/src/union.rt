//! A union gives the rows of its inputs in turn, whether or not it is to keep them in order.
ghost use Rattle.std.specs.Prelude.{◌≡◌, ◌⊎◌, List, [], IfOk, OnOk, fold, map};
ghost use Rattle.std.specs.List.{AllByRecursion};
ghost use Rattle.plan_core.specs.Columns.{HasDistinctNames};
ghost use Rattle.plan_ir.specs.Plans.{union as union_op};
ghost use Rattle.plan_meaning.specs.Typing.{AllHold, checks};
ghost use Rattle.plan_options.specs.declared.union.UnionOptions.{UnionOptions};
ghost use Rattle.plan_table.specs.declared.source_key.SourceKey.{SourceKey};
ghost use Rattle.plan_table.specs.declared.table.Table.{Table as TableType};
ghost use Rattle.plan_table.specs.Tables.{HasRows, types_of};
ghost use Rattle.plan_value.specs.Shown.{column_shown, columns_shown, frame_of, schema_of};
ghost use Rattle.plan_function_tables.specs.Given.{Gives};
ghost use Rattle.plan_eval.specs.Stacks.{lengthened as lengthened_by, with_below};

use plan_file_tables::append_column;
use plan_table::{Column, Columns, Table};
use std::alloc::{AllocError, Global};

/// A column with the values of the column of its name in a table behind its own; null for each row where there is none.
fn lengthened(alloc: Global, column: Column, table: &Table) -> Result<Column, AllocError>
    ensures shown { IfOk result (λ c. column_shown c ≡ lengthened_by (frame_of table.now) (column_shown column)) }
    ensures dtype { IfOk result (λ c. c.dtype ≡ column.dtype) }
{
    let Column {
        name,
        dtype,
        values,
    } = column;
    let mut values = values;
    append_column(alloc, &mut values, table, name.as_str())?;
    Ok(Column {
        name,
        dtype,
        values,
    })
}

/// The columns, each with its values in a table behind its own.
fn all_lengthened(alloc: Global, columns: Columns, table: &Table) -> Result<Columns, AllocError>
    ensures distinct { HasDistinctNames (types_of columns) }
    ensures shown { IfOk result (λ made. columns_shown made ≡ map (lengthened_by (frame_of table.now)) (columns_shown columns)) }
    ensures types { IfOk result (λ made. types_of made ≡ types_of columns) }
{
    let mut made = Columns::new(alloc);
    for column in columns.into_values() {
        made.with_column(lengthened(alloc, column, table)?)?;
    }
    Ok(made)
}

/// A table with the rows of another below its own, cut to its columns.
fn above(alloc: Global, table: Table, other: &Table) -> Result<Table, AllocError>
    ensures distinct { OnOk result (HasDistinctNames (schema_of table)) }
    ensures frame { IfOk result (λ t. frame_of t ≡ with_below (frame_of table) (frame_of other.now)) }
    ensures types { IfOk result (λ t. schema_of t ≡ schema_of table) }
{
    let height = table.height.checked_add(other.height).ok_or(AllocError)?;
    let Table { columns, .. } = table;
    Ok(Table {
        height,
        columns: all_lengthened(alloc, columns, other)?,
    })
}

/// A table with the rows of others below its own, in turn.
fn above_all(alloc: Global, first: Table, others: Vec<Table>) -> Result<Table, AllocError>
    ensures distinct { OnOk result ((others.items ≡ []) ⊎ HasDistinctNames (schema_of first)) }
    ensures frame { IfOk result (λ t. frame_of t ≡ fold with_below (frame_of first) (map frame_of others.items)) }
    ensures types { IfOk result (λ t. schema_of t ≡ schema_of first) }
{
    let mut table = first;
    for other in others {
        table = above(alloc, table, &other)?;
    }
    Ok(table)
}

/// The table of the union.
pub fn union(alloc: Global, tables: Vec<Table>) -> Result<Table, AllocError>
    requires valid { (options : UnionOptions) × AllHold (checks (union_op options) (map schema_of tables.items)) }
    requires rows { AllByRecursion HasRows tables.items }
    ensures { (ts : List (SourceKey × TableType)) (options : UnionOptions) → IfOk result (Gives ts (union_op options) tables.items) }
{
    let mut tables = tables;
    let first = tables.remove(0);
    Ok(above_all(alloc, first, tables)?)
}
