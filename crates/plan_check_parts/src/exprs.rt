//! Checks that go over the expressions of a node in order.
ghost use Rattle.std.specs.Prelude.{◌≡◌, All};
ghost use Rattle.plan_core.specs.declared.error.PolarsError.TheVariants.{SchemaFieldNotFound, SchemaMismatch};
ghost use Rattle.plan_expr.specs.Operands.{IsExpr};
ghost use Rattle.plan_expr.specs.Exprs.{all_named_at};
ghost use Rattle.plan_expr.specs.Leaves.{leaves};
ghost use Rattle.plan_expr.specs.Naming.{may_be_named as is_named, naming};
ghost use Rattle.plan_frame.specs.Exprs.{all_known};
ghost use Rattle.plan_meaning.specs.Checks.{each, form_checks, leaf_checks, type_checks, plain_checks, once_checks, naming_checks};
ghost use Rattle.plan_meaning.specs.Typing.{first_fault, Says};

use crate::types::is_plain;
use plan_core::{Arena, Names, Node, PolarsError, PolarsResult, Schema};
use plan_expr::{AExpr, ExprIR, has_form, may_be_named, output_name};
use plan_frame::{expr_type, reads_only};
use plan_schema::at;
use std::alloc::Global;

/// Each expression has a form, else refuses with `InvalidOperation` at the expression; the first one stands at place 1.
pub fn check_forms(node: Node, exprs: &[ExprIR], ex: &Arena<AExpr>) -> PolarsResult<()>
    requires { All (λ e. IsExpr ex.now e.node) exprs.now }
    ensures { Says result (first_fault node (form_checks (all_named_at ex.now exprs.now))) }
{
    for (i, expr) in exprs.iter().enumerate() {
        if !has_form(expr.node, ex) {
            return Err(PolarsError::InvalidOperation(at(node, 1 + i)));
        }
    }
    Ok(())
}

/// Each expression reads columns of the schema, else refuses with `SchemaFieldNotFound` at the expression; the first
/// one stands at `place`.
pub fn check_leaves_from(
    node: Node,
    place: usize,
    exprs: &[ExprIR],
    ex: &Arena<AExpr>,
    schema: &Schema,
) -> PolarsResult<()>
    requires { All (λ e. IsExpr ex.now e.node) exprs.now }
    ensures { Says result (first_fault node (each SchemaFieldNotFound place (λ e. all_known (leaves e.expr) schema.now) (all_named_at ex.now exprs.now))) }
{
    for (i, expr) in exprs.iter().enumerate() {
        if !reads_only(expr.node, ex, schema) {
            return Err(PolarsError::SchemaFieldNotFound(at(node, place.saturating_add(i))));
        }
    }
    Ok(())
}

/// Each expression reads columns of the schema, else refuses with `SchemaFieldNotFound` at the expression; the first
/// one stands at place 1.
#[tactic(auto, unfolding(plan_meaning::specs::Checks::leaf_checks))]
pub fn check_leaves(
    node: Node,
    exprs: &[ExprIR],
    ex: &Arena<AExpr>,
    schema: &Schema,
) -> PolarsResult<()>
    requires { All (λ e. IsExpr ex.now e.node) exprs.now }
    ensures { Says result (first_fault node (leaf_checks (all_named_at ex.now exprs.now) schema.now)) }
{
    check_leaves_from(node, 1, exprs, ex, schema)
}

/// Each expression has a type, else refuses with `SchemaMismatch` at the expression; the first one stands at place 1.
pub fn check_types(
    node: Node,
    exprs: &[ExprIR],
    ex: &Arena<AExpr>,
    schema: &Schema,
) -> PolarsResult<()>
    requires { All (λ e. IsExpr ex.now e.node) exprs.now }
    ensures { Says result (first_fault node (type_checks (all_named_at ex.now exprs.now) schema.now)) }
{
    for (i, expr) in exprs.iter().enumerate() {
        if expr_type(expr.node, ex, schema).is_none() {
            return Err(PolarsError::SchemaMismatch(at(node, 1 + i)));
        }
    }
    Ok(())
}

/// Each expression has a plain type, else refuses with `SchemaMismatch` at the expression; the first one stands at
/// place 1.
pub fn check_plain(
    node: Node,
    exprs: &[ExprIR],
    ex: &Arena<AExpr>,
    schema: &Schema,
) -> PolarsResult<()>
    requires { All (λ e. IsExpr ex.now e.node) exprs.now }
    ensures { Says result (first_fault node (plain_checks (all_named_at ex.now exprs.now) schema.now)) }
{
    for (i, expr) in exprs.iter().enumerate() {
        if !is_plain(expr_type(expr.node, ex, schema)) {
            return Err(PolarsError::SchemaMismatch(at(node, 1 + i)));
        }
    }
    Ok(())
}

/// No expression has the name of one before it, else refuses with `Duplicate` at the expression; the first one stands
/// at place 1. Refuses where memory is short, too.
pub fn check_outputs(
    alloc: Global,
    node: Node,
    exprs: &[ExprIR],
    ex: &Arena<AExpr>,
) -> PolarsResult<()>
    ensures { Says result (first_fault node (once_checks (all_named_at ex.now exprs.now))) }
{
    let mut before = Names::new(alloc);
    for (i, expr) in exprs.iter().enumerate() {
        if !before.add(output_name(&expr.output_name))? {
            return Err(PolarsError::Duplicate(at(node, 1 + i)));
        }
    }
    Ok(())
}

/// Each expression is named as it may be, else refuses with `SchemaMismatch` at the expression; the first one stands at
/// `place`.
pub fn check_namings_from(
    node: Node,
    place: usize,
    exprs: &[ExprIR],
    ex: &Arena<AExpr>,
) -> PolarsResult<()>
    requires { All (λ e. IsExpr ex.now e.node) exprs.now }
    ensures { Says result (first_fault node (each SchemaMismatch place (λ e. is_named e.name (naming e.expr)) (all_named_at ex.now exprs.now))) }
{
    for (i, expr) in exprs.iter().enumerate() {
        if !may_be_named(&expr.output_name, expr.node, ex) {
            return Err(PolarsError::SchemaMismatch(at(node, place.saturating_add(i))));
        }
    }
    Ok(())
}

/// Each expression is named as it may be, else refuses with `SchemaMismatch` at the expression; the first one stands at
/// place 1.
#[tactic(auto, unfolding(plan_meaning::specs::Checks::naming_checks))]
pub fn check_namings(node: Node, exprs: &[ExprIR], ex: &Arena<AExpr>) -> PolarsResult<()>
    requires { All (λ e. IsExpr ex.now e.node) exprs.now }
    ensures { Says result (first_fault node (naming_checks (all_named_at ex.now exprs.now))) }
{
    check_namings_from(node, 1, exprs, ex)
}
