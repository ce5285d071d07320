//! An explode gives each row as often as the longest of its lists has values, at least once: a column that is taken apart has one
//! value of its list in each of these rows, and another its value again.
ghost use Rattle.std.specs.Prelude.{◌≡◌, ◌++◌, [], map, IfOk, OnOk, false, true, if◌then◌else◌};
ghost use Rattle.std.specs.List.{filter as only_where};
ghost use Rattle.plan_core.specs.Columns.{HasDistinctNames};
ghost use Rattle.plan_core.specs.Names.{has, with_names};
ghost use Rattle.plan_frame.specs.Frames.{row as row_of};
ghost use Rattle.plan_frame.specs.Reshaped.{exploded_columns as exploded_types, item_type as type_of_items, alone as stands_alone, exploded as exploded_of, exploded_values, items};
ghost use Rattle.plan_table.specs.Tables.{types_of};
ghost use Rattle.plan_value.specs.Shown.{columns_shown, frame_of, schema_of, single_of, value_of, values_of};
ghost use Rattle.plan_function_tables.specs.Explode.{borrowed_columns, columns_over, longest as longest_of, row_places, rows_by};

use plan_core::{DataType, Items, Names, PlSmallStr, TryClone};
use plan_table::{AnyValue, Column, Columns, PlainValue, Table};
use plan_value::value_in;
use std::alloc::{AllocError, Global};

/// The names of a list, each once.
fn set_of(alloc: Global, names: &[PlSmallStr]) -> Result<Names, AllocError>
    ensures { IfOk result (λ set. set ≡ with_names [] names.now) }
{
    let mut set = Names::new(alloc);
    for name in names {
        let _ = set.add(name.as_str())?;
    }
    Ok(set)
}

/// The columns of these names, in the order of the table.
fn columns_apart<'a>(
    alloc: Global,
    columns: &'a Columns,
    apart: &Names,
) -> Result<Items<&'a Column>, AllocError>
    ensures columns { IfOk result (λ lists. borrowed_columns lists ≡ only_where (λ c. has apart.now c.name) columns.now) }
    ensures distinct { IfOk result (λ _. HasDistinctNames (types_of columns.now)) }
{
    let mut lists = Items::new(alloc);
    for column in columns.iter() {
        if apart.contains(column.name.as_str()) {
            lists.push(column)?;
        }
    }
    Ok(lists)
}

/// The values in a value's list; none where it is no list.
fn items_of(value: &AnyValue) -> &[PlainValue]
    ensures { map stands_alone (map single_of result.now) ≡ items (value_of value.now) }
{
    match value {
        AnyValue::List(list) => list.as_slice(),
        AnyValue::Null | AnyValue::Int64(_) | AnyValue::String(_) | AnyValue::Boolean(_) => &[],
    }
}

/// The values in the list in a row; none where there is no list.
fn items_in_row(values: &[AnyValue], row: usize) -> &[PlainValue]
    ensures { map stands_alone (map single_of result.now) ≡ items (row_of (values_of values.now) row) }
{
    match values.get(row) {
        Some(value) => items_of(value),
        None => &[],
    }
}

/// How many values the longest list in a row has, and at least one.
fn longest(lists: &[&Column], row: usize) -> usize
    ensures { result ≡ longest_of (borrowed_columns lists.now) row }
{
    let mut most: usize = 1;
    for column in lists {
        most = most.max(items_in_row(column.values.as_slice(), row).len());
    }
    most
}

/// Appends a row so many times, each with a place in its lists, from the first on.
fn append_places(rows: &mut Vec<(usize, usize)>, row: usize, times: usize) -> Result<(), AllocError>
    ensures { OnOk result (rows.new.items ≡ rows.old.items ++ row_places row times) }
{
    for place in 0..times {
        rows.push((row, place))?;
    }
    Ok(())
}

/// The rows that come of so many, each with a place in its lists.
fn exploded_rows(
    alloc: Global,
    lists: &[&Column],
    height: usize,
) -> Result<Vec<(usize, usize)>, AllocError>
    ensures { IfOk result (λ rows. rows.items ≡ rows_by (longest_of (borrowed_columns lists.now)) height) }
{
    let mut rows = Vec::new(alloc);
    for row in 0..height {
        append_places(&mut rows, row, longest(lists, row))?;
    }
    Ok(rows)
}

/// A single value as it stands alone.
fn alone(alloc: Global, single: &PlainValue) -> Result<AnyValue, AllocError>
    ensures { IfOk result (λ v. value_of v ≡ stands_alone (single_of single.now)) }
{
    match single {
        PlainValue::Null => Ok(AnyValue::Null),
        PlainValue::Int64(number) => Ok(AnyValue::Int64(*number)),
        PlainValue::String(text) => Ok(AnyValue::String(text.try_clone(alloc)?)),
        PlainValue::Boolean(truth) => Ok(AnyValue::Boolean(*truth)),
    }
}

/// The value at a place of the list in a row; null where there is none.
fn item_at(
    alloc: Global,
    values: &[AnyValue],
    row: usize,
    place: usize,
) -> Result<AnyValue, AllocError>
    ensures { IfOk result (λ v. value_of v ≡ row_of (items (row_of (values_of values.now) row)) place) }
{
    match items_in_row(values, row).get(place) {
        Some(single) => Ok(alone(alloc, single)?),
        None => Ok(AnyValue::Null),
    }
}

/// Values that are taken apart, over these rows.
fn taken_apart(
    alloc: Global,
    values: &[AnyValue],
    rows: &[(usize, usize)],
) -> Result<Items<AnyValue>, AllocError>
    ensures { IfOk result (λ vs. values_of vs ≡ exploded_values true rows.now (values_of values.now)) }
{
    let mut made = Items::new(alloc);
    for (row, place) in rows {
        made.push(item_at(alloc, values, *row, *place)?)?;
    }
    Ok(made)
}

/// Values that stay whole, over these rows.
fn repeated(
    alloc: Global,
    values: &[AnyValue],
    rows: &[(usize, usize)],
) -> Result<Items<AnyValue>, AllocError>
    ensures { IfOk result (λ vs. values_of vs ≡ exploded_values false rows.now (values_of values.now)) }
{
    let mut made = Items::new(alloc);
    for (row, _) in rows {
        made.push(value_in(alloc, values, *row)?)?;
    }
    Ok(made)
}

/// The type of the values in a column's lists, the column's own where it has no lists.
fn item_type(dtype: DataType) -> DataType
    ensures { result ≡ type_of_items dtype }
{
    match dtype {
        DataType::Int64 | DataType::String | DataType::Boolean => dtype,
        DataType::List(plain) => DataType::from(plain),
    }
}

/// The column over these rows, taken apart where it is among these names.
fn exploded_column(
    alloc: Global,
    column: &Column,
    apart: &Names,
    rows: &[(usize, usize)],
) -> Result<Column, AllocError>
    ensures name { IfOk result (λ c. c.name ≡ column.now.name) }
    ensures dtype { IfOk result (λ c. c.dtype ≡ (if has apart.now column.now.name then type_of_items column.now.dtype else column.now.dtype)) }
    ensures values { IfOk result (λ c. values_of c.values ≡ exploded_values (has apart.now column.now.name) rows.now (values_of column.now.values)) }
{
    let name = column.name.try_clone(alloc)?;
    let values = column.values.as_slice();
    if apart.contains(column.name.as_str()) {
        Ok(Column {
            name,
            dtype: item_type(column.dtype),
            values: taken_apart(alloc, values, rows)?,
        })
    } else {
        Ok(Column {
            name,
            dtype: column.dtype,
            values: repeated(alloc, values, rows)?,
        })
    }
}

/// The columns over these rows, those of these names taken apart.
fn exploded_columns(
    alloc: Global,
    columns: &Columns,
    apart: &Names,
    rows: &[(usize, usize)],
) -> Result<Columns, AllocError>
    ensures shown { IfOk result (λ made. columns_shown made ≡ columns_over apart.now rows.now (columns_shown columns.now)) }
    ensures types { IfOk result (λ made. types_of made ≡ exploded_types apart.now (types_of columns.now)) }
{
    let mut made = Columns::new(alloc);
    for column in columns.iter() {
        made.with_column(exploded_column(alloc, column, apart, rows)?)?;
    }
    Ok(made)
}

/// The table whose columns of these names are taken apart.
pub fn exploded(alloc: Global, table: &Table, names: &[PlSmallStr]) -> Result<Table, AllocError>
    ensures frame { IfOk result (λ t. frame_of t ≡ exploded_of names.now (frame_of table.now)) }
    ensures types { IfOk result (λ t. schema_of t ≡ exploded_types names.now (schema_of table.now)) }
{
    let apart = set_of(alloc, names)?;
    let lists = columns_apart(alloc, &table.columns, &apart)?;
    let rows = exploded_rows(alloc, lists.as_slice(), table.height)?;
    let rows = rows.as_slice();
    Ok(Table {
        height: rows.len(),
        columns: exploded_columns(alloc, &table.columns, &apart, rows)?,
    })
}
