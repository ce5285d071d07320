//! Functions of whole frames over columns that are handed on: a numbering of the rows, a renaming, and lists taken apart change
//! these in place, so that a function takes no copy of all of them; a renaming of many columns makes them anew.
ghost use Rattle.std.specs.Prelude.{◌≡◌, Option, ℕ, [], ◌∷◌, IfOk, OnOk};
ghost use Rattle.std.specs.List.{list_all};
ghost use Rattle.plan_core.specs.Columns.{type_of};
ghost use Rattle.plan_ir.specs.declared.functions.FunctionIR.TheVariants.{Explode, RowIndex};
ghost use Rattle.plan_ir.specs.Plans.{map_function};
ghost use Rattle.plan_frame.specs.Reshaped.{exploded_columns, item_type as type_of_items};
ghost use Rattle.plan_meaning.specs.Typing.{is_list_type};
ghost use Rattle.plan_meaning.specs.Typed.{IsNodeTyped};
ghost use Rattle.plan_check.specs.InPlace.{IsChanged};

use crate::renamed::rename;
use plan_core::{DataType, Node, PlSmallStr, PolarsResult, Schema, TryClone};
use plan_ir::FunctionIR;
use plan_schema::function_schema;
use std::alloc::{AllocError, Global};

/// Puts the number of the rows before the columns. Says whether that can be; if not, the columns stay. Refuses for want of memory
/// alone, and then nothing is known of the columns.
fn number(alloc: Global, name: &PlSmallStr, columns: &mut Schema) -> Result<bool, AllocError>
    ensures { IfOk result (λ fits. (offset : Option ℕ) → IsChanged fits (RowIndex name.now offset) columns.old columns.new) }
{
    if columns.get(name.as_str()).is_some() {
        return Ok(false);
    }
    columns.insert_at_index(0, name.try_clone(alloc)?, DataType::Int64)?;
    Ok(true)
}

/// Whether a column is there, and has lists.
fn has_lists(name: &str, columns: &Schema) -> bool
    ensures { result ≡ is_list_type (type_of columns.now name.now) }
{
    match columns.get(name) {
        None => false,
        Some(dtype) => dtype.plain_type().is_none(),
    }
}

/// Whether all these columns are there, and have lists.
fn all_have_lists(names: &[PlSmallStr], columns: &Schema) -> bool
    ensures { result ≡ list_all (λ a. is_list_type (type_of columns.now a)) names.now }
{
    names.iter().all(|name| has_lists(name.as_str(), columns))
}

/// The type of the values in a column's lists, the column's own where it has no lists.
fn item_type(dtype: DataType) -> DataType
    ensures { result ≡ type_of_items dtype }
{
    match dtype {
        DataType::Int64 | DataType::String | DataType::Boolean => dtype,
        DataType::List(plain) => DataType::from(plain),
    }
}

/// Takes the lists of these columns apart. Refuses for want of memory alone, and then nothing is known of the columns.
fn take_apart(alloc: Global, names: &[PlSmallStr], columns: &mut Schema) -> Result<(), AllocError>
    ensures { OnOk result (columns.new ≡ exploded_columns names.now columns.old) }
{
    // The length is what says that no name comes twice.
    let _len = columns.len();
    for name in names {
        if let Some(dtype) = columns.get(name.as_str()).copied() {
            let _ = columns.with_column(name.try_clone(alloc)?, item_type(dtype))?;
        }
    }
    Ok(())
}

/// Takes the lists of these columns apart. Says whether that can be; if not, the columns stay. Refuses for want of memory alone, and
/// then nothing is known of the columns.
fn explode(alloc: Global, names: &[PlSmallStr], columns: &mut Schema) -> Result<bool, AllocError>
    ensures { IfOk result (λ fits. IsChanged fits (Explode names.now) columns.old columns.new) }
{
    if !all_have_lists(names, columns) {
        return Ok(false);
    }
    take_apart(alloc, names, columns)?;
    Ok(true)
}

/// Changes the columns as a function does. Says whether it does; if not, the columns stay. Refuses for want of memory alone, and then
/// nothing is known of the columns.
fn change(alloc: Global, function: &FunctionIR, columns: &mut Schema) -> Result<bool, AllocError>
    ensures { IfOk result (λ fits. IsChanged fits function.now columns.old columns.new) }
{
    match function {
        FunctionIR::RowIndex { name, .. } => number(alloc, name, columns),
        FunctionIR::Explode { columns: names } => explode(alloc, names.as_slice(), columns),
        FunctionIR::Rename { existing, new, .. } => {
            rename(alloc, existing.as_slice(), new.as_slice(), columns)
        }
        _ => Ok(false),
    }
}

/// The columns of what a function makes of the whole frame of its input, or its first fault.
pub fn mapped_schema(
    alloc: Global,
    node: Node,
    function: &FunctionIR,
    schema: Schema,
) -> PolarsResult<Schema>
    ensures { IsNodeTyped result node (map_function function.now) (schema ∷ []) }
{
    let mut columns = schema;
    let fits = change(alloc, function, &mut columns)?;
    if fits {
        return Ok(columns);
    }
    function_schema(alloc, node, function, &columns)
}
