//! The columns that the expressions of a node make: the expressions have forms, read columns of the input and have types there, no
//! two have one name, the stored columns are those that they make, and each is named as it may be.
ghost use Rattle.std.specs.Prelude.{◌≡◌, All, IfOk};
ghost use Rattle.plan_expr.specs.Operands.{IsExpr};
ghost use Rattle.plan_expr.specs.Exprs.{all_named_at};
ghost use Rattle.plan_meaning.specs.Typing.{IsMade};
ghost use Rattle.plan_frame.specs.Made.{made_schema as schema_made};

use crate::columns::check_stored;
use crate::exprs::{check_forms, check_leaves, check_namings, check_outputs, check_types};
use plan_core::{Arena, DataType, Node, PlSmallStr, PolarsResult, Schema};
use plan_expr::{AExpr, ExprIR, output_name};
use plan_frame::expr_type;
use std::alloc::{AllocError, Global};

/// The columns, and those that the expressions make over the schema: each in the place of the one of its name, or last. An
/// expression without a type makes a column of Int64. Refuses for want of memory alone.
pub fn made_schema(
    alloc: Global,
    base: Schema,
    exprs: &[ExprIR],
    ex: &Arena<AExpr>,
    schema: &Schema,
) -> Result<Schema, AllocError>
    requires { All (λ e. IsExpr ex.now e.node) exprs.now }
    ensures { IfOk result (λ made. made ≡ schema_made base (all_named_at ex.now exprs.now) schema.now) }
{
    let mut made = base;
    for expr in exprs {
        let name = PlSmallStr::new(alloc, output_name(&expr.output_name))?;
        let dtype = expr_type(expr.node, ex, schema).unwrap_or(DataType::Int64);
        let _ = made.with_column(name, dtype)?;
    }
    Ok(made)
}

/// Checks the expressions of a node over the columns of its input, and gives the columns of the node. Refuses with
/// their first fault: of form, of columns that they read, of types, of names that come twice, of the stored columns,
/// and then of output names; and where memory is short.
#[tactic(auto, using(plan_schema::proofs::CheckLemmas::fault_append), unfolding(plan_meaning::specs::Typing::made_checks))]
pub fn check_made(
    alloc: Global,
    node: Node,
    base: Schema,
    exprs: &[ExprIR],
    stored: &Schema,
    ex: &Arena<AExpr>,
    schema: &Schema,
) -> PolarsResult<Schema>
    requires { All (λ e. IsExpr ex.now e.node) exprs.now }
    ensures { IsMade result node base (all_named_at ex.now exprs.now) stored.now schema.now }
{
    check_forms(node, exprs, ex)?;
    check_leaves(node, exprs, ex, schema)?;
    check_types(node, exprs, ex, schema)?;
    check_outputs(alloc, node, exprs, ex)?;
    let made = made_schema(alloc, base, exprs, ex, schema)?;
    check_stored(node, stored, &made)?;
    check_namings(node, exprs, ex)?;
    Ok(made)
}
