//! The types of hive columns, and their order.
ghost use Rattle.std.specs.Prelude.{◌≡◌, IfOk, filter_map, option_copied};
ghost use Rattle.plan_hive.specs.Hive.{hive_columns as columns_told};
ghost use Rattle.plan_hive.specs.Values.{hive_type as type_told, text_in as text_told, type_from as type_spelled};

use crate::hive_values::{number_of, truth_of};
use crate::path_values::PathValues;
use plan_core::{DataType, Names, PlSmallStr, Schema};
use std::alloc::{AllocError, Global};

/// The text of a column in a path, unless it is null or absent.
fn text_in<'a>(name: &str, values: &'a PathValues) -> Option<&'a PlSmallStr>
    ensures { option_copied result ≡ text_told name.now values.now }
{
    values.get(name)?.as_ref()
}

/// The type of a column by its values in all paths: Boolean or Int64 where each but null is of that type, and else String,
/// also where all are null.
fn type_from(name: &str, all: &[PathValues]) -> DataType
    ensures { result ≡ type_spelled (filter_map (text_told name.now) all.now) }
{
    let mut any = false;
    let mut truths = true;
    let mut numbers = true;
    for values in all {
        if let Some(text) = text_in(name, values) {
            any = true;
            truths &= truth_of(text.as_str()).is_some();
            numbers &= number_of(text.as_str()).is_some();
        }
    }
    if !any {
        DataType::String
    } else if truths {
        DataType::Boolean
    } else if numbers {
        DataType::Int64
    } else {
        DataType::String
    }
}

/// The type of a column: as a schema is given, else as the reader has it, else by its values in all paths.
fn hive_type(schema: Option<&Schema>, reader: &Schema, all: &[PathValues], name: &str) -> DataType
    ensures { result ≡ type_told (option_copied schema.entry) reader.now all.now name.now }
{
    if let Some(given) = schema {
        if let Some(dtype) = given.get(name) {
            return *dtype;
        }
    }
    match reader.get(name) {
        Some(dtype) => *dtype,
        None => type_from(name, all),
    }
}

/// The hive columns: those that the reader has, as it has them, and then the others, as the first path has them.
pub(crate) fn hive_columns(
    alloc: Global,
    schema: Option<&Schema>,
    reader: &Schema,
    all: &[PathValues],
    firsts: &Names,
) -> Result<Schema, AllocError>
    ensures { IfOk result (λ columns. columns ≡ columns_told (option_copied schema.entry) reader.now all.now firsts.now) }
{
    let mut columns = Schema::new(alloc);
    for (name, _) in reader.iter() {
        if firsts.contains(name) {
            let dtype = hive_type(schema, reader, all, name);
            columns.with_column(PlSmallStr::new(alloc, name)?, dtype)?;
        }
    }
    for i in 0..firsts.len() {
        if let Some(name) = firsts.get_at_index(i) {
            if reader.get(name).is_none() {
                let dtype = hive_type(schema, reader, all, name);
                columns.with_column(PlSmallStr::new(alloc, name)?, dtype)?;
            }
        }
    }
    Ok(columns)
}
