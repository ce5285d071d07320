//! Explodes: the columns that are taken apart are the input's, and have lists.
ghost use Rattle.std.specs.Prelude.{◌≡◌, [], ◌∷◌, IfOk, if◌then◌else◌};
ghost use Rattle.plan_core.specs.declared.error.PolarsError.TheVariants.{SchemaMismatch};
ghost use Rattle.plan_core.specs.Columns.{type_of};
ghost use Rattle.plan_core.specs.Names.{has};
ghost use Rattle.plan_ir.specs.declared.functions.FunctionIR.TheVariants.{Explode};
ghost use Rattle.plan_ir.specs.Plans.{map_function};
ghost use Rattle.plan_frame.specs.Reshaped.{exploded_columns, item_type as type_of_items};
ghost use Rattle.plan_meaning.specs.Checks.{each};
ghost use Rattle.plan_meaning.specs.Typing.{explode_checks, is_list_type, first_fault, Says};
ghost use Rattle.plan_meaning.specs.Typed.{IsNodeTyped};

use crate::names::{check_names_known, set_of};
use crate::place::at;
use plan_core::{DataType, Names, Node, PlSmallStr, PolarsError, PolarsResult, Schema};
use std::alloc::{AllocError, Global};

/// Whether the schema has the column, with a type of lists.
fn has_lists(schema: &Schema, name: &str) -> bool
    ensures { result ≡ is_list_type (type_of schema.now name.now) }
{
    match schema.get(name) {
        None => false,
        Some(dtype) => dtype.plain_type().is_none(),
    }
}

/// The type of the values in a column's lists, the column's own where it has no lists.
fn item_type(dtype: DataType) -> DataType
    ensures { result ≡ type_of_items dtype }
{
    match dtype {
        DataType::Int64 | DataType::String | DataType::Boolean => dtype,
        DataType::List(plain) => DataType::from(plain),
    }
}

/// The type of a column, that of the values in its lists where it is among these.
fn exploded_type(apart: &Names, name: &str, dtype: DataType) -> DataType
    ensures { result ≡ (if has apart.now name.now then type_of_items dtype else dtype) }
{
    if apart.contains(name) {
        item_type(dtype)
    } else {
        dtype
    }
}

/// Each name is a column of the schema that has lists, else `SchemaMismatch` at the name; the first one is at place 1.
fn check_lists(node: Node, names: &[PlSmallStr], schema: &Schema) -> PolarsResult<()>
    ensures { Says result (first_fault node (each SchemaMismatch 1 (λ a. is_list_type (type_of schema.now a)) names.now)) }
{
    for (i, name) in names.iter().enumerate() {
        if !has_lists(schema, name.as_str()) {
            return Err(PolarsError::SchemaMismatch(at(node, 1 + i)));
        }
    }
    Ok(())
}

/// The columns, those of these names with the types of the values in their lists. Refuses for want of memory alone.
fn exploded(alloc: Global, names: &[PlSmallStr], schema: &Schema) -> Result<Schema, AllocError>
    ensures { IfOk result (λ made. made ≡ exploded_columns names.now schema.now) }
{
    let apart = set_of(alloc, names)?;
    let mut made = Schema::new(alloc);
    for (name, dtype) in schema.iter() {
        let dtype = exploded_type(&apart, name, *dtype);
        made.with_column(PlSmallStr::new(alloc, name)?, dtype)?;
    }
    Ok(made)
}

/// The columns of an explode over those of its input, or its first fault: `SchemaFieldNotFound` at the first of its columns that
/// is none of the input, and then `SchemaMismatch` at the first that has no lists; the first one is at place 1.
#[tactic(auto, using(crate::proofs::CheckLemmas::fault_append), unfolding(plan_meaning::specs::Typing::explode_checks))]
pub fn explode_schema(
    alloc: Global,
    node: Node,
    columns: &[PlSmallStr],
    schema: &Schema,
) -> PolarsResult<Schema>
    ensures { IsNodeTyped result node (map_function (Explode columns.now)) (schema.now ∷ []) }
{
    check_names_known(node, 1, columns, schema)?;
    check_lists(node, columns, schema)?;
    Ok(exploded(alloc, columns, schema)?)
}
