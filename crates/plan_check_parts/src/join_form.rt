//! The forms of joins: a join has keys in pairs, what its kind takes, and no slice; keys and the condition have forms, keys that
//! are dropped or filled are columns, and the condition is elementwise.
ghost use Rattle.std.specs.Prelude.{◌≡◌, All, length, List, option_map};
ghost use Rattle.plan_core.specs.declared.error.PolarsError.TheVariants.{InvalidOperation};
ghost use Rattle.plan_expr.specs.declared.aexpr.AExpr.{AExpr};
ghost use Rattle.plan_expr.specs.Exprs.{all_named_at, named_at};
ghost use Rattle.plan_expr.specs.Operands.{IsExpr};
ghost use Rattle.plan_ir.specs.Parts.{condition_of, list_of};
ghost use Rattle.plan_join.specs.Told.{kind_options_at, operators as operators_of, told_at};
ghost use Rattle.plan_meaning.specs.Checks.{each};
ghost use Rattle.plan_meaning.specs.JoinChecks.{are_paired, fits_kind, is_built_join, is_formed_condition, is_formed_key, join_form_checks, left_keys_plain, right_keys_plain};
ghost use Rattle.plan_meaning.specs.Typing.{first_fault, Says};

use plan_core::{Arena, Node, PolarsError, PolarsResult};
use plan_expr::{AExpr, ExprIR, has_form, is_elementwise};
use plan_join::{JoinOptions, JoinTypeOptionsIR};
use plan_options::{IEJoinOptions, JoinArgs, JoinType};
use plan_schema::at;
use std::slice::from_ref;

/// The condition of a join, if it has one, as a list.
pub fn conditions(options: &JoinOptions) -> &[ExprIR]
    ensures { result.now ≡ list_of (condition_of options.now) }
{
    match &options.options {
        Some(JoinTypeOptionsIR::Cross { predicate }) => from_ref(predicate),
        _ => &[],
    }
}

/// Whether there are as many keys on each side as a join takes: none for a cross join, else as many as on the other side, and some.
fn is_paired(how: JoinType, left: usize, right: usize) -> bool
    ensures { result ≡ are_paired how left right }
{
    match how {
        JoinType::Cross => left == 0 && right == 0,
        _ => left != 0 && left == right,
    }
}

/// How many inequalities keys meet.
fn inequalities(operators: &IEJoinOptions) -> usize
    ensures { result ≡ length (operators_of operators.now) }
{
    if operators.operator2.is_some() { 2 } else { 1 }
}

/// Whether a join is told what only its kind is: a cross join a condition or nothing, a join by inequalities one for each pair of
/// keys, and any other nothing.
fn is_fit(how: JoinType, pairs: usize, options: &Option<JoinTypeOptionsIR>) -> bool
    ensures { (ex : List AExpr) → result ≡ fits_kind how pairs (option_map (kind_options_at ex) options.now) }
{
    match (how, options) {
        (JoinType::Cross, Some(JoinTypeOptionsIR::IEJoin(_))) => false,
        (JoinType::Cross, _) => true,
        (JoinType::IEJoin, Some(JoinTypeOptionsIR::IEJoin(operators))) => {
            inequalities(operators) == pairs
        }
        (JoinType::IEJoin, _) => false,
        (_, options) => options.is_none(),
    }
}

/// Whether a join with so many keys on its sides has a form that is built.
#[tactic(auto, unfolding(plan_meaning::specs::JoinChecks::is_built_join))]
fn is_built(left: usize, right: usize, options: &JoinOptions) -> bool
    ensures { (ex : List AExpr) → result ≡ is_built_join left right (told_at ex options.now) }
{
    let args = &options.args;
    args.slice.is_none()
        && (is_paired(args.how, left, right) && is_fit(args.how, left, &options.options))
}

/// Whether the left keys of a join must be columns: where it drops them, or fills them from the right ones.
fn must_left_be_columns(args: &JoinArgs) -> bool
    ensures { result ≡ left_keys_plain args.now }
{
    args.should_coalesce() && matches!(args.how, JoinType::Right | JoinType::Full)
}

/// Whether the right keys of a join must be columns: where it drops them.
fn must_right_be_columns(args: &JoinArgs) -> bool
    ensures { result ≡ right_keys_plain args.now }
{
    args.should_coalesce() && !matches!(args.how, JoinType::Right)
}

/// Whether a key has a form, and is a column where it must be one.
fn is_key_formed(key: &ExprIR, plain: bool, ex: &Arena<AExpr>) -> bool
    requires { IsExpr ex.now key.now.node }
    ensures { result ≡ is_formed_key plain (named_at ex.now key.now) }
{
    has_form(key.node, ex) && (!plain || ex.get(key.node).column_name().is_some())
}

/// Each key has a form, and is a column where keys must be columns, else `InvalidOperation` at the key; the first one stands at
/// `place`.
fn check_key_forms(
    node: Node,
    place: usize,
    keys: &[ExprIR],
    plain: bool,
    ex: &Arena<AExpr>,
) -> PolarsResult<()>
    requires { All (λ e. IsExpr ex.now e.node) keys.now }
    ensures { Says result (first_fault node (each InvalidOperation place (is_formed_key plain) (all_named_at ex.now keys.now))) }
{
    for (i, key) in keys.iter().enumerate() {
        if !is_key_formed(key, plain, ex) {
            return Err(PolarsError::InvalidOperation(at(node, place.saturating_add(i))));
        }
    }
    Ok(())
}

/// Whether a condition has a form, and is elementwise.
fn is_condition_formed(expr: &ExprIR, ex: &Arena<AExpr>) -> bool
    requires { IsExpr ex.now expr.now.node }
    ensures { result ≡ is_formed_condition (named_at ex.now expr.now) }
{
    has_form(expr.node, ex) && is_elementwise(expr.node, ex)
}

/// Each condition has a form and is elementwise, else `InvalidOperation` at the condition; the first one stands at `place`.
fn check_condition_forms(
    node: Node,
    place: usize,
    exprs: &[ExprIR],
    ex: &Arena<AExpr>,
) -> PolarsResult<()>
    requires { All (λ e. IsExpr ex.now e.node) exprs.now }
    ensures { Says result (first_fault node (each InvalidOperation place is_formed_condition (all_named_at ex.now exprs.now))) }
{
    for (i, expr) in exprs.iter().enumerate() {
        if !is_condition_formed(expr, ex) {
            return Err(PolarsError::InvalidOperation(at(node, place.saturating_add(i))));
        }
    }
    Ok(())
}

/// The join has a form that is built, else `InvalidOperation` at place 0; and keys and the condition have forms.
pub fn check_join_forms(
    node: Node,
    left_on: &[ExprIR],
    right_on: &[ExprIR],
    options: &JoinOptions,
    ex: &Arena<AExpr>,
) -> PolarsResult<()>
    requires left_keys { All (λ e. IsExpr ex.now e.node) left_on.now }
    requires right_keys { All (λ e. IsExpr ex.now e.node) right_on.now }
    requires condition { All (λ e. IsExpr ex.now e.node) (list_of (condition_of options.now)) }
    ensures { Says result (first_fault node (join_form_checks (all_named_at ex.now left_on.now) (all_named_at ex.now right_on.now) (told_at ex.now options.now))) }
{
    let args = &options.args;
    if !is_built(left_on.len(), right_on.len(), options) {
        return Err(PolarsError::InvalidOperation(at(node, 0)));
    }
    let right = 1 + left_on.len();
    let behind = right + right_on.len();
    check_key_forms(node, 1, left_on, must_left_be_columns(args), ex)?;
    check_key_forms(node, right, right_on, must_right_be_columns(args), ex)?;
    check_condition_forms(node, behind, conditions(options), ex)
}
