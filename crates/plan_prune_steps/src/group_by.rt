//! A grouping keeps its keys, and of its aggregates those that are asked, in its own order. It stores the columns of these.
//! It asks its input the asked names that this has, and then the names that the kept aggregates read, and the keys.
//! Asked nothing, it stays as it is, and asks the names that its aggregates and its keys read.
ghost use Rattle.std.specs.Prelude.{◌≡◌, ◌++◌, All, [], ◌∷◌, IfOk, IsTrue};
ghost use Rattle.plan_tree.specs.Stands.{Trees, StandsOnce};
ghost use Rattle.plan_ir.specs.declared.ir.IR.{IR};
ghost use Rattle.plan_expr.specs.Operands.{IsExpr};
ghost use Rattle.plan_expr.specs.Exprs.{all_named_at};
ghost use Rattle.plan_ir.specs.Parts.{inputs_of, is_group_by, plan_shape, roots_of};
ghost use Rattle.plan_meaning.specs.Asked.{grouping_names};
ghost use Rattle.plan_prune_parts.specs.Kept.{is_some_name, names_at, stored_after, with_typed as columns_with};
ghost use Rattle.plan_prune_parts.specs.Places.{StandExprs};
ghost use Rattle.plan_prune_parts.specs.Said.{columns_at};
ghost use Rattle.plan_prune_steps.specs.Steps.{step_of};

use crate::over::over;
use crate::reads::{held_and_read, with_added};
use plan_core::{Arena, Names, Node, Schema};
use plan_expr::{AExpr, ExprIR};
use plan_ir::IR;
use plan_prune_parts::Step;
use plan_prune_parts::exprs::{add_all_names, kept_exprs, with_typed};
use std::alloc::{AllocError, Global};

/// The columns of these keys and aggregates, with the types that they have in the schema.
fn typed(
    alloc: Global,
    keys: &[ExprIR],
    aggs: &[ExprIR],
    schema: &Schema,
) -> Result<Schema, AllocError>
    ensures { IfOk result (λ columns. columns ≡ columns_with [] (names_at (keys.now ++ aggs.now)) schema.now) }
{
    let of_keys = with_typed(alloc, Schema::new(alloc), keys, schema)?;
    with_typed(alloc, of_keys, aggs, schema)
}

/// The columns that a grouping stores that keeps these keys and aggregates.
fn columns(
    alloc: Global,
    schema: Schema,
    keys: &[ExprIR],
    aggs: &[ExprIR],
    asked: &Names,
) -> Result<Schema, AllocError>
    ensures { IfOk result (λ columns. columns ≡ stored_after (is_some_name asked.now) [] (names_at (keys.now ++ aggs.now)) schema) }
{
    if asked.len() == 0 {
        return Ok(schema);
    }
    let columns = typed(alloc, keys, aggs, &schema);
    drop(schema);
    columns
}

/// What a grouping asks that keeps these keys and aggregates.
fn asks(
    alloc: Global,
    asked: &Names,
    keys: &[ExprIR],
    aggs: &[ExprIR],
    input: Node,
    lp: &Arena<IR>,
    ex: &Arena<AExpr>,
) -> Result<Names, AllocError>
    requires keys { All (λ e. IsExpr ex.now e.node) keys.now }
    requires aggs { All (λ e. IsExpr ex.now e.node) aggs.now }
    requires input { (t : Trees IR) × StandsOnce plan_shape lp.now (input ∷ []) t }
    ensures { IfOk result (λ names. names ≡ grouping_names (all_named_at ex.now keys.now) (all_named_at ex.now aggs.now) asked.now (columns_at lp.now ex.now input)) }
{
    let mut names = held_and_read(alloc, asked, aggs, input, lp, ex)?;
    let added = add_all_names(&mut names, keys, ex);
    with_added(names, added)
}

/// The step of a grouping.
pub fn prepare(
    alloc: Global,
    grouping: IR,
    asked: &Names,
    lp: &Arena<IR>,
    ex: &Arena<AExpr>,
) -> Result<Step, AllocError>
    requires kind { IsTrue (is_group_by grouping) }
    requires exprs { StandExprs ex.now (roots_of grouping) }
    requires inputs { (t : Trees IR) × StandsOnce plan_shape lp.now (inputs_of grouping) t }
    ensures { IfOk result (λ step. step ≡ step_of lp.now ex.now asked.now grouping) }
{
    match grouping {
        IR::GroupBy {
            input,
            keys,
            aggs,
            schema,
            maintain_order,
            options,
        } => {
            let aggs = kept_exprs(alloc, aggs, asked)?;
            let (of_keys, of_aggs) = (keys.as_slice(), aggs.as_slice());
            let schema = columns(alloc, schema, of_keys, of_aggs, asked)?;
            let asked = asks(alloc, asked, of_keys, of_aggs, input, lp, ex);
            over(
                input,
                asked,
                IR::GroupBy {
                    input,
                    keys,
                    aggs,
                    schema,
                    maintain_order,
                    options,
                },
            )
        }
        _ => unreachable!(),
    }
}
