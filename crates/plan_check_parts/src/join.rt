//! A join: it has a form that is built; its keys and its condition have forms, read columns of their side or of the join, and have
//! types that may stand there; no name comes twice, the stored columns are those of the join, and each expression is named as it
//! may be. The left keys stand from place 1 on, then the right ones, and then the condition.
ghost use Rattle.std.specs.Prelude.{◌∷◌, [], All};
ghost use Rattle.plan_expr.specs.Exprs.{all_named_at};
ghost use Rattle.plan_expr.specs.Operands.{IsExpr};
ghost use Rattle.plan_ir.specs.Parts.{condition_of, list_of};
ghost use Rattle.plan_ir.specs.Plans.{join};
ghost use Rattle.plan_join.specs.Told.{told_at};
ghost use Rattle.plan_meaning.specs.Checks.{naming_checks};
ghost use Rattle.plan_meaning.specs.JoinChecks.{join_exprs, join_leaf_checks};
ghost use Rattle.plan_meaning.specs.Typing.{first_fault, Says};
ghost use Rattle.plan_meaning.specs.Typed.{IsNodeTyped};

use crate::join_columns::{first_columns, names_differ};
use crate::join_form::{check_join_forms, conditions};
use crate::join_types::check_join_types;
use crate::{check_leaves_from, check_namings_from, check_stored};
use plan_core::{Arena, Node, PolarsError, PolarsResult, Schema};
use plan_expr::{AExpr, ExprIR};
use plan_join::JoinOptions;
use plan_schema::at;
use std::alloc::Global;

/// Keys read columns of their side, and the condition those of the join, else `SchemaFieldNotFound` at the expression.
fn check_join_leaves(
    node: Node,
    left_on: &[ExprIR],
    right_on: &[ExprIR],
    options: &JoinOptions,
    ex: &Arena<AExpr>,
    left: &Schema,
    right: &Schema,
    columns: &Schema,
) -> PolarsResult<()>
    requires left_keys { All (λ e. IsExpr ex.now e.node) left_on.now }
    requires right_keys { All (λ e. IsExpr ex.now e.node) right_on.now }
    requires condition { All (λ e. IsExpr ex.now e.node) (list_of (condition_of options.now)) }
    ensures { Says result (first_fault node (join_leaf_checks (all_named_at ex.now left_on.now) (all_named_at ex.now right_on.now) (told_at ex.now options.now) left.now right.now columns.now)) }
{
    let right_place = 1 + left_on.len();
    let behind = right_place + right_on.len();
    check_leaves_from(node, 1, left_on, ex, left)?;
    check_leaves_from(node, right_place, right_on, ex, right)?;
    check_leaves_from(node, behind, conditions(options), ex, columns)
}

/// Keys and the condition of a join are named as they may be, else `SchemaMismatch` at the expression.
fn check_join_namings(
    node: Node,
    left_on: &[ExprIR],
    right_on: &[ExprIR],
    options: &JoinOptions,
    ex: &Arena<AExpr>,
) -> PolarsResult<()>
    requires left_keys { All (λ e. IsExpr ex.now e.node) left_on.now }
    requires right_keys { All (λ e. IsExpr ex.now e.node) right_on.now }
    requires condition { All (λ e. IsExpr ex.now e.node) (list_of (condition_of options.now)) }
    ensures { Says result (first_fault node (naming_checks (join_exprs (all_named_at ex.now left_on.now) (all_named_at ex.now right_on.now) (told_at ex.now options.now)))) }
{
    let right_place = 1 + left_on.len();
    let behind = right_place + right_on.len();
    check_namings_from(node, 1, left_on, ex)?;
    check_namings_from(node, right_place, right_on, ex)?;
    check_namings_from(node, behind, conditions(options), ex)
}

/// The columns of a join over those of its sides, or its first fault: `InvalidOperation` at place 0 where its form isn't built, and
/// else at the first expression without a form; `SchemaFieldNotFound` and then `SchemaMismatch` at the first expression that reads
/// an unknown column or hasn't a type that may stand there; `Duplicate` at place 0 where a name comes twice; and `SchemaMismatch`
/// at place 0 where the stored columns aren't those of the join, or at the first expression that isn't named as it may be.
pub fn joined_schema(
    alloc: Global,
    node: Node,
    left_on: &[ExprIR],
    right_on: &[ExprIR],
    stored: &Schema,
    options: &JoinOptions,
    ex: &Arena<AExpr>,
    left: &Schema,
    right: &Schema,
) -> PolarsResult<Schema>
    requires left_keys { All (λ e. IsExpr ex.now e.node) left_on.now }
    requires right_keys { All (λ e. IsExpr ex.now e.node) right_on.now }
    requires condition { All (λ e. IsExpr ex.now e.node) (list_of (condition_of options.now)) }
    ensures { IsNodeTyped result node (join (all_named_at ex.now left_on.now) (all_named_at ex.now right_on.now) stored.now (told_at ex.now options.now)) (left.now ∷ right.now ∷ []) }
{
    check_join_forms(node, left_on, right_on, options, ex)?;
    let (columns, differ) = first_columns(
        alloc,
        left,
        right,
        left_on,
        right_on,
        &options.args,
        ex,
    )?;
    check_join_leaves(node, left_on, right_on, options, ex, left, right, &columns)?;
    check_join_types(node, left_on, right_on, options, ex, left, right, &columns)?;
    // On a side no name comes twice.
    names_differ(left);
    names_differ(right);
    if !differ {
        return Err(PolarsError::Duplicate(at(node, 0)));
    }
    check_stored(node, stored, &columns)?;
    check_join_namings(node, left_on, right_on, options, ex)?;
    Ok(columns)
}
