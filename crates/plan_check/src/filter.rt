//! A filter: its predicate has a form, reads columns of the input, is Boolean, and is named as it may be.
ghost use Rattle.std.specs.Prelude.{[], ◌∷◌};
ghost use Rattle.plan_expr.specs.Operands.{IsExpr};
ghost use Rattle.plan_expr.specs.Exprs.{named_at};
ghost use Rattle.plan_ir.specs.Plans.{filter};
ghost use Rattle.plan_meaning.specs.Typing.{filter_checks, first_fault, Says};
ghost use Rattle.plan_meaning.specs.Typed.{IsNodeTyped};

use plan_check_parts::is_boolean;
use plan_core::{Arena, Node, PolarsError, PolarsResult, Schema};
use plan_expr::{AExpr, ExprIR, has_form, may_be_named};
use plan_frame::{expr_type, reads_only};
use plan_schema::at;

/// Checks a filter over the columns of its input. Each fault is at place 1: `InvalidOperation` where the predicate
/// has no form, `SchemaFieldNotFound` where it reads another column, and then `SchemaMismatch` where it isn't Boolean or isn't
/// named as it may be.
pub fn check_filter(
    node: Node,
    predicate: &ExprIR,
    ex: &Arena<AExpr>,
    schema: &Schema,
) -> PolarsResult<()>
    requires { IsExpr ex.now predicate.now.node }
    ensures { Says result (first_fault node (filter_checks (named_at ex.now predicate.now) schema.now)) }
{
    if !has_form(predicate.node, ex) {
        return Err(PolarsError::InvalidOperation(at(node, 1)));
    }
    if !reads_only(predicate.node, ex, schema) {
        return Err(PolarsError::SchemaFieldNotFound(at(node, 1)));
    }
    if !is_boolean(expr_type(predicate.node, ex, schema)) {
        return Err(PolarsError::SchemaMismatch(at(node, 1)));
    }
    if !may_be_named(&predicate.output_name, predicate.node, ex) {
        return Err(PolarsError::SchemaMismatch(at(node, 1)));
    }
    Ok(())
}

/// The columns of a filter over those of its input, or its first fault.
pub fn filter_schema(
    node: Node,
    predicate: &ExprIR,
    ex: &Arena<AExpr>,
    schema: Schema,
) -> PolarsResult<Schema>
    requires { IsExpr ex.now predicate.now.node }
    ensures { IsNodeTyped result node (filter (named_at ex.now predicate.now)) (schema ∷ []) }
{
    check_filter(node, predicate, ex, &schema)?;
    Ok(schema)
}
