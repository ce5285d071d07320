//! The types of the keys and of the condition of a join: keys have types that may stand in the join, those of a pair the same, and
//! the condition is Boolean.
ghost use Rattle.std.specs.Prelude.{◌≡◌, ◌&&◌, ◌+◌, All, length};
ghost use Rattle.plan_core.specs.declared.data_type.DataType.TheVariants.{Boolean};
ghost use Rattle.plan_core.specs.declared.error.PolarsError.TheVariants.{SchemaMismatch};
ghost use Rattle.plan_expr.specs.Exprs.{all_named_at, expr_at};
ghost use Rattle.plan_expr.specs.Operands.{IsExpr};
ghost use Rattle.plan_frame.specs.Exprs.{expr_type as type_of_expr, is_type};
ghost use Rattle.plan_ir.specs.Parts.{condition_of, list_of};
ghost use Rattle.plan_join.specs.Told.{told_at};
ghost use Rattle.plan_meaning.specs.Checks.{each};
ghost use Rattle.plan_meaning.specs.JoinChecks.{are_one_type, is_key_type, join_type_checks, pair_checks};
ghost use Rattle.plan_meaning.specs.Typing.{first_fault, Says};

use crate::join_form::conditions;
use crate::{is_boolean, is_plain};
use plan_core::{Arena, DataType, Node, PolarsError, PolarsResult, Schema};
use plan_expr::{AExpr, ExprIR};
use plan_frame::expr_type;
use plan_join::JoinOptions;
use plan_options::JoinType;
use plan_schema::at;

/// Whether a key of this type may stand in a join: by inequalities one of whole numbers, else one of a plain type.
fn may_be_key(how: JoinType, dtype: Option<DataType>) -> bool
    ensures { result ≡ is_key_type how dtype }
{
    match how {
        JoinType::IEJoin => matches!(dtype, Some(DataType::Int64)),
        _ => is_plain(dtype),
    }
}

/// Whether there are two types, and they are the same.
fn is_one_type(left: Option<DataType>, right: Option<DataType>) -> bool
    ensures { result ≡ are_one_type left right }
{
    left.is_some() && left == right
}

/// Each key has a type that may stand in the join, else `SchemaMismatch` at the key; the first one stands at place 1.
fn check_key_types(
    node: Node,
    how: JoinType,
    keys: &[ExprIR],
    ex: &Arena<AExpr>,
    schema: &Schema,
) -> PolarsResult<()>
    requires { All (λ e. IsExpr ex.now e.node) keys.now }
    ensures { Says result (first_fault node (each SchemaMismatch 1 (λ e. is_key_type how (type_of_expr e.expr schema.now)) (all_named_at ex.now keys.now))) }
{
    for (i, key) in keys.iter().enumerate() {
        if !may_be_key(how, expr_type(key.node, ex, schema)) {
            return Err(PolarsError::SchemaMismatch(at(node, 1 + i)));
        }
    }
    Ok(())
}

/// Whether a right key has a type that may stand in the join, and it is that of the left key beside it.
fn is_typed_pair(
    how: JoinType,
    key: &ExprIR,
    partner: &ExprIR,
    ex: &Arena<AExpr>,
    left: &Schema,
    right: &Schema,
) -> bool
    requires left_key { IsExpr ex.now key.now.node }
    requires right_key { IsExpr ex.now partner.now.node }
    ensures { result ≡ (is_key_type how (type_of_expr (expr_at ex.now partner.now.node) right.now) && are_one_type (type_of_expr (expr_at ex.now key.now.node) left.now) (type_of_expr (expr_at ex.now partner.now.node) right.now)) }
{
    let dtype = expr_type(partner.node, ex, right);
    may_be_key(how, dtype) && is_one_type(expr_type(key.node, ex, left), dtype)
}

/// Each right key that has a left key beside it has a type that may stand in the join, and it is that of the left key, else
/// `SchemaMismatch` at the right key; the first one stands behind the left keys.
fn check_pairs(
    node: Node,
    how: JoinType,
    left_on: &[ExprIR],
    right_on: &[ExprIR],
    ex: &Arena<AExpr>,
    left: &Schema,
    right: &Schema,
) -> PolarsResult<()>
    requires left_keys { All (λ e. IsExpr ex.now e.node) left_on.now }
    requires right_keys { All (λ e. IsExpr ex.now e.node) right_on.now }
    ensures { Says result (first_fault node (pair_checks how (1 + length left_on.now) left.now right.now (all_named_at ex.now left_on.now) (all_named_at ex.now right_on.now))) }
{
    let place = 1 + left_on.len();
    for (i, partner) in right_on.iter().enumerate() {
        if let Some(key) = left_on.get(i) {
            if !is_typed_pair(how, key, partner, ex, left, right) {
                return Err(PolarsError::SchemaMismatch(at(node, place.saturating_add(i))));
            }
        }
    }
    Ok(())
}

/// Each condition is Boolean, else `SchemaMismatch` at the condition; the first one stands at `place`.
fn check_condition_types(
    node: Node,
    place: usize,
    exprs: &[ExprIR],
    ex: &Arena<AExpr>,
    columns: &Schema,
) -> PolarsResult<()>
    requires { All (λ e. IsExpr ex.now e.node) exprs.now }
    ensures { Says result (first_fault node (each SchemaMismatch place (λ e. is_type (type_of_expr e.expr columns.now) Boolean) (all_named_at ex.now exprs.now))) }
{
    for (i, expr) in exprs.iter().enumerate() {
        if !is_boolean(expr_type(expr.node, ex, columns)) {
            return Err(PolarsError::SchemaMismatch(at(node, place.saturating_add(i))));
        }
    }
    Ok(())
}

/// Keys have types that may stand in the join, those of a pair the same, and the condition is Boolean, else `SchemaMismatch` at the
/// expression: the left keys stand from place 1 on, then the right ones, and then the condition.
pub fn check_join_types(
    node: Node,
    left_on: &[ExprIR],
    right_on: &[ExprIR],
    options: &JoinOptions,
    ex: &Arena<AExpr>,
    left: &Schema,
    right: &Schema,
    columns: &Schema,
) -> PolarsResult<()>
    requires left_keys { All (λ e. IsExpr ex.now e.node) left_on.now }
    requires right_keys { All (λ e. IsExpr ex.now e.node) right_on.now }
    requires condition { All (λ e. IsExpr ex.now e.node) (list_of (condition_of options.now)) }
    ensures { Says result (first_fault node (join_type_checks (all_named_at ex.now left_on.now) (all_named_at ex.now right_on.now) (told_at ex.now options.now) left.now right.now columns.now)) }
{
    let how = options.args.how;
    let behind = 1 + left_on.len() + right_on.len();
    check_key_types(node, how, left_on, ex, left)?;
    check_pairs(node, how, left_on, right_on, ex, left, right)?;
    check_condition_types(node, behind, conditions(options), ex, columns)
}
