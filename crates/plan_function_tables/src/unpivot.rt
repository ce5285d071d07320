//! An unpivot gives all rows of its input for each of its value columns in turn: what it repeats, the name of the value column,
//! and its values. Each of its columns is made as a whole.
ghost use Rattle.std.specs.Prelude.{◌≡◌, ◌*◌, ◌++◌, ◌∷◌, [], IfOk, true};
ghost use Rattle.plan_core.specs.Columns.{names_of};
ghost use Rattle.plan_core.specs.declared.data_type.DataType.TheVariants.{String as string_type};
ghost use Rattle.plan_frame.specs.Frames.{table_columns};
ghost use Rattle.plan_meaning.specs.Functions.{all_differ, first_type as has_first_type, unpivoted_columns, unpivoted_names, value_name as value_named, value_names as value_names_of, variable_name as variable_named};
ghost use Rattle.plan_frame.specs.Reshaped.{columns_at, type_or as has_type_or, names_down as names_below, repeated as repeated_values, values_down as values_below};
ghost use Rattle.plan_meaning.specs.Mapped.{unpivoted as unpivoted_of};
ghost use Rattle.plan_table.specs.Tables.{types_of};
ghost use Rattle.plan_value.specs.Shown.{columns_shown, frame_of, schema_of, values_of};

use plan_core::{DataType, Items, PlSmallStr, TryClone};
use plan_file_tables::{append, append_column, append_times};
use plan_ir::UnpivotArgsIR;
use plan_schema::{value_name, value_names, variable_name};
use plan_table::{AnyValue, Column, Columns, Table};
use plan_value::{column, typed};
use std::alloc::{AllocError, Global};

/// The type of a column, that of whole numbers where there is none.
fn type_or(table: &Table, name: &str) -> DataType
    ensures { result ≡ has_type_or (schema_of table.now) name.now }
{
    match table.columns.get(name) {
        Some(column) => column.dtype,
        None => DataType::Int64,
    }
}

/// The type of the first of some columns, that of whole numbers where there is none.
fn first_type(table: &Table, names: &[PlSmallStr]) -> DataType
    ensures { result ≡ has_first_type (schema_of table.now) names.now }
{
    match names.first() {
        None => DataType::Int64,
        Some(name) => type_or(table, name.as_str()),
    }
}

/// The values of a column, once for each of some columns. Of no values nothing is copied, however many columns there are.
fn repeated(
    alloc: Global,
    table: &Table,
    name: &str,
    names: &[PlSmallStr],
) -> Result<Items<AnyValue>, AllocError>
    ensures { IfOk result (λ vs. values_of vs ≡ repeated_values names.now (frame_of table.now) name.now) }
{
    let own = column(alloc, table, name)?;
    if own.len() == 0 {
        return Ok(own);
    }
    let mut values = Items::new(alloc);
    for _ in names {
        append(alloc, &mut values, own.as_slice())?;
    }
    Ok(values)
}

/// The names of columns, each once for each row.
fn names_down(
    alloc: Global,
    table: &Table,
    names: &[PlSmallStr],
) -> Result<Items<AnyValue>, AllocError>
    ensures { IfOk result (λ vs. values_of vs ≡ names_below names.now (frame_of table.now)) }
{
    let mut values = Items::new(alloc);
    for name in names {
        let value = AnyValue::String(name.try_clone(alloc)?);
        append_times(alloc, &mut values, &value, table.height)?;
    }
    Ok(values)
}

/// The values of columns, one column after another.
fn values_down(
    alloc: Global,
    table: &Table,
    names: &[PlSmallStr],
) -> Result<Items<AnyValue>, AllocError>
    ensures { IfOk result (λ vs. values_of vs ≡ values_below names.now (frame_of table.now)) }
{
    let mut values = Items::new(alloc);
    for name in names {
        append_column(alloc, &mut values, table, name.as_str())?;
    }
    Ok(values)
}

/// A column, once for each of some columns.
fn repeated_column(
    alloc: Global,
    table: &Table,
    name: &PlSmallStr,
    names: &[PlSmallStr],
) -> Result<Column, AllocError>
    ensures name { IfOk result (λ c. c.name ≡ name.now) }
    ensures dtype { IfOk result (λ c. c.dtype ≡ has_type_or (schema_of table.now) name.now) }
    ensures values { IfOk result (λ c. values_of c.values ≡ repeated_values names.now (frame_of table.now) name.now) }
{
    Ok(Column {
        name: name.try_clone(alloc)?,
        dtype: type_or(table, name.as_str()),
        values: repeated(alloc, table, name.as_str(), names)?,
    })
}

/// Columns of which no two have one name, each once for each of some columns.
fn repeated_columns(
    alloc: Global,
    table: &Table,
    index: &[PlSmallStr],
    names: &[PlSmallStr],
) -> Result<Columns, AllocError>
    requires { all_differ index.now ≡ true }
    ensures shown { IfOk result (λ made. columns_shown made ≡ table_columns index.now (repeated_values names.now (frame_of table.now))) }
    ensures types { IfOk result (λ made. types_of made ≡ columns_at (schema_of table.now) index.now) }
{
    let mut made = Columns::new(alloc);
    for name in index {
        made.with_column(repeated_column(alloc, table, name, names)?)?;
    }
    Ok(made)
}

/// The column with the names of the value columns.
fn variable_column(
    alloc: Global,
    table: &Table,
    args: &UnpivotArgsIR,
    names: &[PlSmallStr],
) -> Result<Column, AllocError>
    ensures name { IfOk result (λ c. c.name ≡ variable_named args.now) }
    ensures dtype { IfOk result (λ c. c.dtype ≡ string_type) }
    ensures values { IfOk result (λ c. values_of c.values ≡ names_below names.now (frame_of table.now)) }
{
    Ok(Column {
        name: variable_name(alloc, args)?,
        dtype: DataType::String,
        values: names_down(alloc, table, names)?,
    })
}

/// The column with their values.
fn value_column(
    alloc: Global,
    table: &Table,
    args: &UnpivotArgsIR,
    names: &[PlSmallStr],
) -> Result<Column, AllocError>
    ensures name { IfOk result (λ c. c.name ≡ value_named args.now) }
    ensures dtype { IfOk result (λ c. c.dtype ≡ has_first_type (schema_of table.now) names.now) }
    ensures values { IfOk result (λ c. values_of c.values ≡ values_below names.now (frame_of table.now)) }
{
    Ok(Column {
        name: value_name(alloc, args)?,
        dtype: first_type(table, names),
        values: values_down(alloc, table, names)?,
    })
}

/// How many rows there are where each of so many columns has so many. A product beyond a `usize` is refused.
fn height_of(columns: usize, rows: usize) -> Result<usize, AllocError>
    ensures { IfOk result (λ height. height ≡ columns * rows) }
{
    columns.checked_mul(rows).ok_or(AllocError)
}

/// The names of the value columns.
fn names_of_values(
    alloc: Global,
    table: &Table,
    args: &UnpivotArgsIR,
) -> Result<Items<PlSmallStr>, AllocError>
    ensures { IfOk result (λ names. names ≡ value_names_of args.now (names_of (schema_of table.now))) }
{
    let schema = typed(alloc, &table.columns)?;
    value_names(alloc, args, &schema)
}

/// The columns of an unpivot of value columns that gives no two columns one name.
fn columns_over(
    alloc: Global,
    table: &Table,
    args: &UnpivotArgsIR,
    names: &[PlSmallStr],
) -> Result<Columns, AllocError>
    requires { all_differ (unpivoted_names args.now) ≡ true }
    ensures shown { IfOk result (λ made. columns_shown made ≡ table_columns args.now.index (repeated_values names.now (frame_of table.now)) ++ record { name = variable_named args.now; values = names_below names.now (frame_of table.now) } ∷ record { name = value_named args.now; values = values_below names.now (frame_of table.now) } ∷ []) }
    ensures types { IfOk result (λ made. types_of made ≡ columns_at (schema_of table.now) args.now.index ++ (variable_named args.now, string_type) ∷ (value_named args.now, has_first_type (schema_of table.now) names.now) ∷ []) }
{
    let mut columns = repeated_columns(alloc, table, args.index.as_slice(), names)?;
    columns.with_column(variable_column(alloc, table, args, names)?)?;
    columns.with_column(value_column(alloc, table, args, names)?)?;
    Ok(columns)
}

/// The table of an unpivot that gives no two columns one name.
pub fn unpivoted(alloc: Global, table: &Table, args: &UnpivotArgsIR) -> Result<Table, AllocError>
    requires { all_differ (unpivoted_names args.now) ≡ true }
    ensures frame { IfOk result (λ t. frame_of t ≡ unpivoted_of args.now (frame_of table.now)) }
    ensures types { IfOk result (λ t. schema_of t ≡ unpivoted_columns args.now (schema_of table.now)) }
{
    let names = names_of_values(alloc, table, args)?;
    let names = names.as_slice();
    Ok(Table {
        height: height_of(names.len(), table.height)?,
        columns: columns_over(alloc, table, args, names)?,
    })
}
