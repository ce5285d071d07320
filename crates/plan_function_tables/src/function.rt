//! A function of the whole input gives its columns under other names, or behind one that numbers the rows; an unpivot,
//! an explode and a count of the rows of files have files of their own.
ghost use Rattle.std.specs.Prelude.{◌≡◌, [], ◌∷◌, IfOk, false, map, true};
ghost use Rattle.plan_core.specs.Columns.{names_of};
ghost use Rattle.plan_core.specs.Names.{has};
ghost use Rattle.plan_core.specs.declared.data_type.DataType.TheVariants.{Int64};
ghost use Rattle.plan_ir.specs.Plans.{map_function};
ghost use Rattle.plan_meaning.specs.Functions.{names_now, renamed as renamed_of, stay_apart};
ghost use Rattle.plan_frame.specs.Reshaped.{renamed_columns, row_numbers as row_numbers_of, with_numbers, with_renamed};
ghost use Rattle.plan_meaning.specs.Typing.{AllHold, function_checks};
ghost use Rattle.plan_table.specs.Tables.{types_of};
ghost use Rattle.plan_function_tables.specs.Function.{under};
ghost use Rattle.plan_function_tables.specs.Given.{Gives};
ghost use Rattle.plan_value.specs.Shown.{column_shown, frame_of, schema_of};

use crate::count::counted;
use crate::explode::exploded;
use crate::unpivot::unpivoted;
use plan_core::{DataType, PlSmallStr, TryClone};
use plan_file_tables::row_numbers;
use plan_ir::FunctionIR;
use plan_schema::Renaming;
use plan_table::{Column, Columns, Table, Tables};
use std::alloc::{AllocError, Global};

/// A column under the name that its own gets.
fn column_renamed(alloc: Global, column: Column, names: &Renaming) -> Result<Column, AllocError>
    ensures { IfOk result (λ c. c ≡ under (names_now names.now) column) }
{
    let Column {
        name,
        dtype,
        values,
    } = column;
    let name = PlSmallStr::new(alloc, names.now(name.as_str()))?;
    Ok(Column {
        name,
        dtype,
        values,
    })
}

/// The columns under the names that theirs get, of which no two are one.
fn all_renamed(alloc: Global, columns: Columns, names: &Renaming) -> Result<Columns, AllocError>
    requires { stay_apart (names_now names.now) (names_of (types_of columns)) ≡ true }
    ensures { IfOk result (λ made. made ≡ map (under (names_now names.now)) columns) }
{
    let mut made = Columns::new(alloc);
    for column in columns.into_values() {
        made.with_column(column_renamed(alloc, column, names)?)?;
    }
    Ok(made)
}

/// The table of a renaming, all at once, that gives no two columns one name.
fn renamed(
    alloc: Global,
    table: Table,
    existing: &[PlSmallStr],
    new: &[PlSmallStr],
) -> Result<Table, AllocError>
    requires { stay_apart (renamed_of existing.now new.now) (names_of (schema_of table)) ≡ true }
    ensures frame { IfOk result (λ t. frame_of t ≡ with_renamed (renamed_of existing.now new.now) (frame_of table)) }
    ensures types { IfOk result (λ t. schema_of t ≡ renamed_columns (renamed_of existing.now new.now) (schema_of table)) }
{
    let names = Renaming::new(alloc, existing, new)?;
    let Table { height, columns } = table;
    Ok(Table {
        height,
        columns: all_renamed(alloc, columns, &names)?,
    })
}

/// The columns behind one of a new name.
fn behind(alloc: Global, first: Column, columns: Columns) -> Result<Columns, AllocError>
    requires { has (names_of (types_of columns)) first.name ≡ false }
    ensures { IfOk result (λ made. made ≡ first ∷ columns) }
{
    let mut made = Columns::new(alloc);
    made.with_column(first)?;
    for column in columns.into_values() {
        made.with_column(column)?;
    }
    Ok(made)
}

/// A column that numbers so many rows from a first number on.
fn numbers(
    alloc: Global,
    name: &PlSmallStr,
    first: u32,
    height: usize,
) -> Result<Column, AllocError>
    ensures shown { IfOk result (λ c. column_shown c ≡ record { name = name.now; values = row_numbers_of first height }) }
    ensures dtype { IfOk result (λ c. c.dtype ≡ Int64) }
{
    Ok(Column {
        name: name.try_clone(alloc)?,
        dtype: DataType::Int64,
        values: row_numbers(alloc, first, height)?,
    })
}

/// The table behind a column of a new name that numbers its rows from a first number on.
fn numbered(alloc: Global, table: Table, name: &PlSmallStr, first: u32) -> Result<Table, AllocError>
    requires { has (names_of (schema_of table)) name.now ≡ false }
    ensures frame { IfOk result (λ t. frame_of t ≡ with_numbers name.now first (frame_of table)) }
    ensures types { IfOk result (λ t. schema_of t ≡ (name.now, Int64) ∷ schema_of table) }
{
    let numbers = numbers(alloc, name, first, table.height)?;
    let Table { height, columns } = table;
    Ok(Table {
        height,
        columns: behind(alloc, numbers, columns)?,
    })
}

/// The table that a function makes of its input; a count of the rows of files looks at their tables alone.
pub fn mapped(
    alloc: Global,
    table: Table,
    function: &FunctionIR,
    tables: &Tables,
) -> Result<Table, AllocError>
    requires { AllHold (function_checks function.now (schema_of table)) }
    ensures { IfOk result (Gives tables.now (map_function function.now) (table ∷ [])) }
{
    match function {
        FunctionIR::Rename { existing, new, .. } => {
            renamed(alloc, table, existing.as_slice(), new.as_slice())
        }
        FunctionIR::RowIndex { name, offset } => numbered(alloc, table, name, offset.unwrap_or(0)),
        FunctionIR::Unpivot { args } => unpivoted(alloc, &table, args),
        FunctionIR::Explode { columns } => exploded(alloc, &table, columns.as_slice()),
        FunctionIR::FastCount { sources, alias, .. } => counted(alloc, sources, alias, tables),
    }
}
