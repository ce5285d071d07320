//! A sort: it has keys, and marks for them, one for each or one for all; the keys have forms, read columns of the input, have
//! plain types there, and are named as they may be.
ghost use Rattle.std.specs.Prelude.{◌≡◌, [], ◌∷◌, All};
ghost use Rattle.plan_expr.specs.Operands.{IsExpr};
ghost use Rattle.plan_expr.specs.Exprs.{all_named_at};
ghost use Rattle.plan_ir.specs.Plans.{sort};
ghost use Rattle.plan_meaning.specs.Typing.{are_marks, is_built_sort, key_checks, first_fault, Says};
ghost use Rattle.plan_meaning.specs.Typed.{IsNodeTyped};

use plan_check_parts::{check_forms, check_leaves, check_namings, check_plain};
use plan_core::{Arena, Node, PolarsError, PolarsResult, Schema};
use plan_expr::{AExpr, ExprIR};
use plan_options::SortMultipleOptions;
use plan_schema::at;

/// Whether there are as many marks as keys, or one for all.
fn are_marks_of(marks: &[bool], keys: usize) -> bool
    ensures { result ≡ are_marks marks.now keys }
{
    marks.len() == 1 || marks.len() == keys
}

/// Whether a sort by so many keys has a form that is built: some keys, marks for them, and neither a slice nor a limit.
#[tactic(auto, unfolding(plan_meaning::specs::Typing::is_built_sort))]
fn is_built(keys: usize, slice: &Option<(i64, usize)>, options: &SortMultipleOptions) -> bool
    ensures { result ≡ is_built_sort keys slice.now options.now }
{
    keys != 0
        && slice.is_none()
        && options.limit.is_none()
        && are_marks_of(options.descending.as_slice(), keys)
        && are_marks_of(options.nulls_last.as_slice(), keys)
}

/// Checks the keys of a sort over the columns of its input, key by key for each of these: `InvalidOperation` where a key has no
/// form, `SchemaFieldNotFound` where it reads another column, and `SchemaMismatch` where it has no plain type or isn't named as it
/// may be. The first key stands at place 1.
#[tactic(auto, using(plan_schema::proofs::CheckLemmas::fault_append), unfolding(plan_meaning::specs::Typing::key_checks))]
pub fn check_keys(
    node: Node,
    keys: &[ExprIR],
    ex: &Arena<AExpr>,
    schema: &Schema,
) -> PolarsResult<()>
    requires { All (λ e. IsExpr ex.now e.node) keys.now }
    ensures { Says result (first_fault node (key_checks (all_named_at ex.now keys.now) schema.now)) }
{
    check_forms(node, keys, ex)?;
    check_leaves(node, keys, ex, schema)?;
    check_plain(node, keys, ex, schema)?;
    check_namings(node, keys, ex)?;
    Ok(())
}

/// The columns of a sort over those of its input, or its first fault: `InvalidOperation` at place 0 where it has no form that is
/// built, and then that of its keys.
pub fn sort_schema(
    node: Node,
    keys: &[ExprIR],
    slice: &Option<(i64, usize)>,
    options: &SortMultipleOptions,
    ex: &Arena<AExpr>,
    schema: Schema,
) -> PolarsResult<Schema>
    requires { All (λ e. IsExpr ex.now e.node) keys.now }
    ensures { IsNodeTyped result node (sort (all_named_at ex.now keys.now) slice.now options.now) (schema ∷ []) }
{
    if !is_built(keys.len(), slice, options) {
        return Err(PolarsError::InvalidOperation(at(node, 0)));
    }
    check_keys(node, keys, ex, &schema)?;
    Ok(schema)
}
