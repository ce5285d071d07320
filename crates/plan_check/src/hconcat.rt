//! A concatenation side by side: it has inputs, no two have a column of one name, and the stored columns are theirs.
ghost use Rattle.std.specs.Prelude.{◌≡◌, [], ◌∷◌, IfOk};
ghost use Rattle.plan_core.specs.declared.error.PolarsError.TheVariants.{Duplicate};
ghost use Rattle.plan_options.specs.declared.union.HConcatOptions.{HConcatOptions};
ghost use Rattle.plan_ir.specs.Plans.{hconcat};
ghost use Rattle.plan_frame.specs.Beside.{are_apart, side_by_side as columns_beside};
ghost use Rattle.plan_meaning.specs.Checks.{check};
ghost use Rattle.plan_meaning.specs.Typing.{first_fault, Says};
ghost use Rattle.plan_meaning.specs.Typed.{IsNodeTyped};

use plan_check_parts::check_stored;
use plan_core::{Node, PolarsError, PolarsResult, Schema};
use plan_options::merge_schemas;
use plan_schema::at;
use std::alloc::Global;

/// The columns of the inputs, one input after another; `Duplicate` at place 0 where two inputs have a column of one name.
fn side_by_side(alloc: Global, node: Node, schemas: &[Schema]) -> PolarsResult<Schema>
    ensures fault { Says result (first_fault node (check Duplicate 0 (are_apart schemas.now) ∷ [])) }
    ensures columns { IfOk result (λ made. made ≡ columns_beside schemas.now) }
{
    match merge_schemas(alloc, schemas) {
        Ok(made) => Ok(made),
        Err(PolarsError::Duplicate(_)) => Err(PolarsError::Duplicate(at(node, 0))),
        // For all else that is refused, memory is short.
        Err(_) => Err(PolarsError::OutOfMemory),
    }
}

/// The columns of a concatenation over those of its inputs, or its first fault: at place 0 `InvalidOperation` where it has no
/// inputs, `Duplicate` where two inputs have a column of one name, and `SchemaMismatch` where its columns aren't those of the
/// inputs one after another.
pub fn hconcat_schema(
    alloc: Global,
    node: Node,
    stored: &Schema,
    schemas: &[Schema],
) -> PolarsResult<Schema>
    ensures { (options : HConcatOptions) → IsNodeTyped result node (hconcat stored.now options) schemas.now }
{
    if schemas.is_empty() {
        return Err(PolarsError::InvalidOperation(at(node, 0)));
    }
    let made = side_by_side(alloc, node, schemas)?;
    check_stored(node, stored, &made)?;
    Ok(made)
}
