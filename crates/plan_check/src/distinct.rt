//! Distinct rows: where names are told there is one, and each is a column of the input.
ghost use Rattle.std.specs.Prelude.{◌≡◌, [], ◌∷◌};
ghost use Rattle.plan_ir.specs.Plans.{distinct};
ghost use Rattle.plan_meaning.specs.Typing.{is_built_distinct, is_some_subset, subset_checks, first_fault, Says};
ghost use Rattle.plan_meaning.specs.Typed.{IsNodeTyped};

use plan_core::{Items, Node, PlSmallStr, PolarsError, PolarsResult, Schema};
use plan_options::DistinctOptionsIR;
use plan_schema::{at, check_names_known};

/// Whether there is a name where names are told.
fn is_some(subset: &Option<Items<PlSmallStr>>) -> bool
    ensures { result ≡ is_some_subset subset.now }
{
    match subset {
        None => true,
        Some(names) => names.len() != 0,
    }
}

/// Whether distinct rows have a form that is built: no slice, and a name where names are told.
#[tactic(auto, unfolding(plan_meaning::specs::Typing::is_built_distinct))]
fn is_built(options: &DistinctOptionsIR) -> bool
    ensures { result ≡ is_built_distinct options.now }
{
    options.slice.is_none() && is_some(&options.subset)
}

/// Each name that is told is one of the schema's, else `SchemaFieldNotFound` at the name; the first one is at place 1.
#[tactic(auto, unfolding(plan_meaning::specs::Typing::subset_checks))]
fn check_subset(node: Node, subset: &Option<Items<PlSmallStr>>, schema: &Schema) -> PolarsResult<()>
    ensures { Says result (first_fault node (subset_checks subset.now schema.now)) }
{
    match subset {
        None => Ok(()),
        Some(names) => check_names_known(node, 1, names.as_slice(), schema),
    }
}

/// The columns of distinct rows over those of the input, or their first fault: `InvalidOperation` at place 0 where they have no
/// form that is built, and then `SchemaFieldNotFound` at the first name that isn't there.
pub fn distinct_schema(
    node: Node,
    options: &DistinctOptionsIR,
    schema: Schema,
) -> PolarsResult<Schema>
    ensures { IsNodeTyped result node (distinct options.now) (schema ∷ []) }
{
    if !is_built(options) {
        return Err(PolarsError::InvalidOperation(at(node, 0)));
    }
    check_subset(node, &options.subset, &schema)?;
    Ok(schema)
}
