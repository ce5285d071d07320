//! The readers of tables.
ghost use Rattle.serde_json.specs.View.{view};
ghost use Rattle.plan_doc_parts.specs.Gives.{Gives};
ghost use Rattle.plan_doc_parts.specs.Members.{at};
ghost use Rattle.plan_doc_parts.specs.Parts.{nullable};
ghost use Rattle.plan_doc.specs.Tables.{so_many as so_many_of, table_column_of, table_columns_of, path_key_of, buffer_key_of, frame_key_of, source_key_of, table_of, tables_of};

use plan_core::Items;
use plan_doc_parts::{
    Fault, any_values, data_type, entries, field, name, name_at, number_at, object, three,
};
use plan_table::{AnyValue, Column, Columns, SourceKey, Table, Tables};
use serde_json::Value;
use std::alloc::Global;

/// The same values, where there are so many; else `Form`.
fn so_many(height: usize, values: Items<AnyValue>) -> Result<Items<AnyValue>, Fault>
    ensures { Gives result (so_many_of height values) }
{
    if values.len() == height {
        Ok(values)
    } else {
        Err(Fault::Form)
    }
}

/// The name, the type and the values of an array of three; there are as many values as the table has rows.
#[tactic(auto, unfolding(crate::specs::Tables::table_column_of))]
fn table_column(alloc: Global, height: usize, value: &Value) -> Result<Column, Fault>
    ensures { Gives result (table_column_of height (view value.now)) }
{
    let (name_value, type_value, array) = three(value)?;
    let name = name(alloc, name_value)?;
    let dtype = data_type(type_value)?;
    let values = so_many(height, any_values(alloc, dtype, array)?)?;
    Ok(Column {
        name,
        dtype,
        values,
    })
}

/// An array of columns of so many rows, no name twice.
#[tactic(auto, unfolding(crate::specs::Tables::table_columns_of))]
fn table_columns(alloc: Global, height: usize, value: &Value) -> Result<Columns, Fault>
    ensures { Gives result (table_columns_of height (view value.now)) }
{
    let entries = entries(value)?;
    let mut columns = Columns::new(alloc);
    for entry in entries {
        let column = table_column(alloc, height, entry)?;
        match columns.get(column.name.as_str()) {
            None => {}
            Some(_) => return Err(Fault::Form),
        }
        columns.with_column(column)?;
    }
    Ok(columns)
}

/// The file of the path of an object.
#[tactic(auto, unfolding(crate::specs::Tables::path_key_of))]
fn path_key(alloc: Global, value: &Value) -> Result<SourceKey, Fault>
    ensures { Gives result (path_key_of (view value.now)) }
{
    let object = object(value, &["path"])?;
    let path = name_at(alloc, object, "path")?;
    Ok(SourceKey::Path(path))
}

/// The buffer of the number of an object.
#[tactic(auto, unfolding(crate::specs::Tables::buffer_key_of))]
fn buffer_key(value: &Value) -> Result<SourceKey, Fault>
    ensures { Gives result (buffer_key_of (view value.now)) }
{
    let object = object(value, &["buffer"])?;
    let buffer = number_at(object, "buffer")?;
    Ok(SourceKey::Buffer(buffer))
}

/// The frame of the number of an object.
#[tactic(auto, unfolding(crate::specs::Tables::frame_key_of))]
fn frame_key(value: &Value) -> Result<SourceKey, Fault>
    ensures { Gives result (frame_key_of (view value.now)) }
{
    let object = object(value, &["frame"])?;
    let frame = number_at(object, "frame")?;
    Ok(SourceKey::Frame(frame))
}

/// The source that an object of one key names.
fn source_key(alloc: Global, value: &Value) -> Result<SourceKey, Fault>
    ensures { Gives result (source_key_of (view value.now)) }
{
    if value.get("path").is_some() {
        return path_key(alloc, value);
    }
    if value.get("buffer").is_some() {
        return buffer_key(value);
    }
    frame_key(value)
}

/// A table with its source.
#[tactic(auto, unfolding(crate::specs::Tables::table_of))]
fn table(alloc: Global, value: &Value) -> Result<(SourceKey, Table), Fault>
    ensures { Gives result (table_of (view value.now)) }
{
    let object = object(value, &["columns", "height", "source"])?;
    let key = source_key(alloc, field(object, "source")?)?;
    let height = number_at(object, "height")? as usize;
    let columns = table_columns(alloc, height, field(object, "columns")?)?;
    Ok((key, Table { height, columns }))
}

/// An array of tables with their sources, no source twice.
#[tactic(auto, unfolding(crate::specs::Tables::tables_of))]
fn tables(alloc: Global, value: &Value) -> Result<Tables, Fault>
    ensures { Gives result (tables_of (view value.now)) }
{
    let entries = entries(value)?;
    let mut tables = Tables::new(alloc);
    for entry in entries {
        let (key, table) = table(alloc, entry)?;
        match tables.get(&key) {
            None => {}
            Some(_) => return Err(Fault::Form),
        }
        tables.add(key, table)?;
    }
    Ok(tables)
}

/// Under a key null, or tables with their sources.
#[tactic(auto, using(plan_doc_parts::proofs::NullLemmas::nullable_null, plan_doc_parts::proofs::NullLemmas::nullable_other), unfolding(plan_doc_parts::specs::Members::at))]
pub fn optional_tables_at(alloc: Global, object: &Value, key: &str) -> Result<Option<Tables>, Fault>
    ensures { Gives result (at key.now (nullable tables_of) (view object.now)) }
{
    let value = field(object, key)?;
    if value.is_null() {
        return Ok(None);
    }
    Ok(Some(tables(alloc, value)?))
}
