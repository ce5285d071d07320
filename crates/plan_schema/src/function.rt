//! Functions of whole frames: a renaming has new names for old ones, none twice, and gives no two columns one name; a numbering
//! of the rows adds a name; an unpivot, an explode and a count of the rows of files have files of their own.
ghost use Rattle.std.specs.Prelude.{◌≡◌, Bool, Option, ℕ, [], ◌∷◌};
ghost use Rattle.plan_ir.specs.declared.functions.FunctionIR.TheVariants.{Rename, RowIndex};
ghost use Rattle.plan_ir.specs.Plans.{map_function};
ghost use Rattle.plan_meaning.specs.Typing.{rename_checks, row_index_checks, first_fault, Says};
ghost use Rattle.plan_meaning.specs.Typed.{IsNodeTyped};

use crate::count::count_schema;
use crate::explode::explode_schema;
use crate::names::check_names_new;
use crate::place::at;
use crate::renaming::Renaming;
use crate::unpivot::unpivot_schema;
use plan_core::{DataType, Node, PlSmallStr, PolarsError, PolarsResult, Schema, TryClone};
use plan_ir::FunctionIR;
use std::alloc::Global;

/// The columns of a renaming over those of its input, or its first fault: `InvalidOperation` at place 0 where there aren't as
/// many new names as old ones, `Duplicate` at a name that is one before it in its list, the old names first, and then `Duplicate`
/// at place 0 where two columns get one name.
#[tactic(auto, using(crate::proofs::CheckLemmas::fault_append), unfolding(plan_meaning::specs::Typing::rename_checks))]
fn rename_schema(
    alloc: Global,
    node: Node,
    existing: &[PlSmallStr],
    new: &[PlSmallStr],
    schema: &Schema,
) -> PolarsResult<Schema>
    ensures { (swapping : Bool) → IsNodeTyped result node (map_function (Rename existing.now new.now swapping)) (schema.now ∷ []) }
{
    if existing.len() != new.len() {
        return Err(PolarsError::InvalidOperation(at(node, 0)));
    }
    check_names_new(alloc, node, 1, existing)?;
    check_names_new(alloc, node, 1 + existing.len(), new)?;
    match Renaming::new(alloc, existing, new)?.schema(alloc, schema)? {
        Some(renamed) => Ok(renamed),
        None => Err(PolarsError::Duplicate(at(node, 0))),
    }
}

/// The columns of a numbering of the rows over those of its input, or its first fault: `Duplicate` at place 0 where the input has
/// a column of its name.
#[tactic(auto, unfolding(plan_meaning::specs::Typing::row_index_checks))]
fn row_index_schema(
    alloc: Global,
    node: Node,
    name: &PlSmallStr,
    schema: &Schema,
) -> PolarsResult<Schema>
    ensures { (offset : Option ℕ) → IsNodeTyped result node (map_function (RowIndex name.now offset)) (schema.now ∷ []) }
{
    if schema.get(name.as_str()).is_some() {
        return Err(PolarsError::Duplicate(at(node, 0)));
    }
    let mut numbered = schema.try_clone(alloc)?;
    numbered.insert_at_index(0, name.try_clone(alloc)?, DataType::Int64)?;
    Ok(numbered)
}

/// The columns of what a function makes of the whole frame of its input, or its first fault.
pub fn function_schema(
    alloc: Global,
    node: Node,
    function: &FunctionIR,
    schema: &Schema,
) -> PolarsResult<Schema>
    ensures { IsNodeTyped result node (map_function function.now) (schema.now ∷ []) }
{
    match function {
        FunctionIR::Rename { existing, new, .. } => {
            rename_schema(alloc, node, existing.as_slice(), new.as_slice(), schema)
        }
        FunctionIR::RowIndex { name, .. } => row_index_schema(alloc, node, name, schema),
        FunctionIR::Unpivot { args } => unpivot_schema(alloc, node, args, schema),
        FunctionIR::Explode { columns } => explode_schema(alloc, node, columns.as_slice(), schema),
        FunctionIR::FastCount { alias, .. } => Ok(count_schema(alloc, alias)?),
    }
}
