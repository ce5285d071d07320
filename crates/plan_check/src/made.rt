//! A selection, and an addition of columns to those of the input: a selection has expressions, and the expressions of both make
//! the stored columns.
ghost use Rattle.std.specs.Prelude.{[], ◌∷◌, All};
ghost use Rattle.plan_core.specs.declared.options.ProjectionOptions.{ProjectionOptions};
ghost use Rattle.plan_expr.specs.Operands.{IsExpr};
ghost use Rattle.plan_expr.specs.Exprs.{all_named_at};
ghost use Rattle.plan_ir.specs.Plans.{hstack, select};
ghost use Rattle.plan_meaning.specs.Typed.{IsNodeTyped};

use plan_check_parts::check_made;
use plan_core::{Arena, Node, PolarsError, PolarsResult, Schema, TryClone};
use plan_expr::{AExpr, ExprIR};
use plan_schema::at;
use std::alloc::Global;

/// The columns of a selection over those of its input, or its first fault.
pub fn select_schema(
    alloc: Global,
    node: Node,
    exprs: &[ExprIR],
    stored: &Schema,
    ex: &Arena<AExpr>,
    schema: &Schema,
) -> PolarsResult<Schema>
    requires { All (λ e. IsExpr ex.now e.node) exprs.now }
    ensures { (options : ProjectionOptions) → IsNodeTyped result node (select (all_named_at ex.now exprs.now) stored.now options) (schema.now ∷ []) }
{
    if exprs.is_empty() {
        return Err(PolarsError::InvalidOperation(at(node, 0)));
    }
    let base = Schema::new(alloc);
    check_made(alloc, node, base, exprs, stored, ex, schema)
}

/// The columns of an addition of columns over those of its input, or its first fault.
pub fn hstack_schema(
    alloc: Global,
    node: Node,
    exprs: &[ExprIR],
    stored: &Schema,
    ex: &Arena<AExpr>,
    schema: &Schema,
) -> PolarsResult<Schema>
    requires { All (λ e. IsExpr ex.now e.node) exprs.now }
    ensures { (options : ProjectionOptions) → IsNodeTyped result node (hstack (all_named_at ex.now exprs.now) stored.now options) (schema.now ∷ []) }
{
    let base = schema.try_clone(alloc)?;
    check_made(alloc, node, base, exprs, stored, ex, schema)
}
