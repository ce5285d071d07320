//! The text of a table's rows, for which no value of a cell is made.
ghost use Rattle.std.specs.Prelude.{◌≡◌, ◌++◌, OnOk, option_copied};
ghost use Rattle.json.specs.Tree.{json_tokens};
ghost use Rattle.serde_json.specs.Written.{outline};
ghost use Rattle.plan_text_pieces.specs.Cells.{value_data};
ghost use Rattle.plan_text_pieces.specs.Values.{list_data};
ghost use Rattle.plan_text.specs.Rows.{column_data, rows_data, table_data};

use json::Writer;
use plan_table::{AnyValue, Column, Columns, Table};
use plan_text_pieces::{type_name, write_cell};
use std::alloc::AllocError;

/// Writes the array of values.
#[tactic(auto, unfolding(plan_text_pieces::specs::Values::list_data))]
fn write_values(writer: &mut Writer, values: &[AnyValue]) -> Result<(), AllocError>
    ensures tokens { OnOk result (writer.new.tokens
        ≡ writer.old.tokens ++ json_tokens (outline (list_data value_data values.now))) }
    ensures before { OnOk result (writer.new.before ≡ writer.old.before) }
{
    writer.begin_array()?;
    for value in values {
        write_cell(writer, value)?;
    }
    writer.end_array()
}

/// Writes a column: its name, its type and its values.
fn write_column(writer: &mut Writer, column: &Column) -> Result<(), AllocError>
    ensures tokens { OnOk result (writer.new.tokens
        ≡ writer.old.tokens ++ json_tokens (outline (column_data column.now))) }
    ensures before { OnOk result (writer.new.before ≡ writer.old.before) }
{
    writer.begin_array()?;
    writer.string(column.name.as_str())?;
    writer.string(type_name(column.dtype))?;
    write_values(writer, column.values.as_slice())?;
    writer.end_array()
}

/// Writes the array of columns, in order.
#[tactic(auto, unfolding(plan_text_pieces::specs::Values::list_data))]
fn write_columns(writer: &mut Writer, columns: &Columns) -> Result<(), AllocError>
    ensures tokens { OnOk result (writer.new.tokens
        ≡ writer.old.tokens ++ json_tokens (outline (list_data column_data columns.now))) }
    ensures before { OnOk result (writer.new.before ≡ writer.old.before) }
{
    writer.begin_array()?;
    for column in columns.iter() {
        write_column(writer, column)?;
    }
    writer.end_array()
}

/// Writes the object of a table: its columns and its height.
fn write_table(writer: &mut Writer, table: &Table) -> Result<(), AllocError>
    ensures tokens { OnOk result (writer.new.tokens
        ≡ writer.old.tokens ++ json_tokens (outline (table_data table.now))) }
    ensures before { OnOk result (writer.new.before ≡ writer.old.before) }
{
    writer.begin_object()?;
    writer.key("columns")?;
    write_columns(writer, &table.columns)?;
    writer.key("height")?;
    writer.u64(table.height as u64)?;
    writer.end_object()
}

/// Writes a table, or null where there is none.
pub fn write_rows(writer: &mut Writer, rows: Option<&Table>) -> Result<(), AllocError>
    ensures tokens { OnOk result (writer.new.tokens
        ≡ writer.old.tokens ++ json_tokens (outline (rows_data (option_copied rows.entry)))) }
    ensures before { OnOk result (writer.new.before ≡ writer.old.before) }
{
    match rows {
        None => writer.null(),
        Some(table) => write_table(writer, table),
    }
}
