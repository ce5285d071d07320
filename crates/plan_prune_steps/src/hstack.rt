//! An addition of columns keeps its asked expressions, in its own order; without any its input takes its place.
//! It stores the columns of its pruned input, and those of the kept expressions beside them.
//! It asks its input the asked names that this has, and then the names that the kept expressions read; keeping none it asks
//! what it is asked. Asked nothing, it stays as it is and asks nothing.
ghost use Rattle.std.specs.Prelude.{◌≡◌, ◌<◌, ◌≤◌, All, List, [], ◌∷◌, IfOk, IsTrue, OnOk, length};
ghost use Rattle.plan_tree.specs.Stands.{Trees, StandsOnce};
ghost use Rattle.plan_expr.specs.declared.aexpr.AExpr.{AExpr};
ghost use Rattle.plan_ir.specs.declared.ir.IR.{IR};
ghost use Rattle.plan_expr.specs.Operands.{IsExpr};
ghost use Rattle.plan_ir.specs.Parts.{inputs_of, is_hstack, plan_shape, roots_of};
ghost use Rattle.plan_expr.specs.Exprs.{all_named_at};
ghost use Rattle.plan_ir.specs.Plans.{bare, plans_at};
ghost use Rattle.plan_meaning.specs.Typing.{first_schema};
ghost use Rattle.plan_schema.specs.Stored.{stored_all};
ghost use Rattle.plan_prune_parts.specs.Kept.{asks_after, names_at, with_stacked, with_typed as columns_with};
ghost use Rattle.plan_prune_parts.specs.Places.{StandExprs};
ghost use Rattle.plan_prune_parts.specs.Said.{columns_at};
ghost use Rattle.plan_prune_steps.specs.Steps.{step_of};

use crate::over::over;
use crate::reads::held_and_read;
use plan_core::{Arena, Items, Names, Node, ProjectionOptions, Schema};
use plan_expr::{AExpr, ExprIR};
use plan_ir::IR;
use plan_prune_parts::Step;
use plan_prune_parts::exprs::{kept_exprs, with_typed};
use plan_schema::stored_schema;
use std::alloc::{AllocError, Global};

/// What an addition asks that keeps these expressions.
fn asks(
    alloc: Global,
    asked: Names,
    exprs: &[ExprIR],
    input: Node,
    lp: &Arena<IR>,
    ex: &Arena<AExpr>,
) -> Result<Names, AllocError>
    requires exprs { All (λ e. IsExpr ex.now e.node) exprs.now }
    requires input { (t : Trees IR) × StandsOnce plan_shape lp.now (input ∷ []) t }
    ensures { IfOk result (λ names. names ≡ asks_after asked (all_named_at ex.now exprs.now) (columns_at lp.now ex.now input)) }
{
    if asked.len() == 0 {
        return Ok(asked);
    }
    if exprs.len() == 0 {
        return Ok(asked);
    }
    let names = held_and_read(alloc, &asked, exprs, input, lp, ex);
    drop(asked);
    names
}

/// The step of an addition.
pub fn prepare(
    alloc: Global,
    addition: IR,
    asked: Names,
    lp: &Arena<IR>,
    ex: &Arena<AExpr>,
) -> Result<Step, AllocError>
    requires kind { IsTrue (is_hstack addition) }
    requires exprs { StandExprs ex.now (roots_of addition) }
    requires inputs { (t : Trees IR) × StandsOnce plan_shape lp.now (inputs_of addition) t }
    ensures { IfOk result (λ step. step ≡ step_of lp.now ex.now asked addition) }
{
    match addition {
        IR::HStack {
            input,
            exprs,
            schema,
            options,
        } => {
            match kept_exprs(alloc, exprs, &asked) {
                Ok(exprs) => {
                    let asked = asks(alloc, asked, exprs.as_slice(), input, lp, ex);
                    over(
                        input,
                        asked,
                        IR::HStack {
                            input,
                            exprs,
                            schema,
                            options,
                        },
                    )
                }
                Err(error) => {
                    drop(schema);
                    drop(asked);
                    Err(error)
                }
            }
        }
        _ => unreachable!(),
    }
}

/// The columns that an addition of these expressions stores over its pruned input.
fn columns(
    alloc: Global,
    schema: &Schema,
    exprs: &[ExprIR],
    input: Node,
    lp: &Arena<IR>,
) -> Result<Schema, AllocError>
    requires { (t : Trees IR) × StandsOnce plan_shape lp.now (input ∷ []) t }
    ensures { IfOk result (λ columns. (ex : List AExpr) → columns ≡ columns_with (columns_at lp.now ex input) (names_at exprs.now) schema.now) }
{
    let base = stored_schema(alloc, input, lp)?.into_schema(alloc)?;
    with_typed(alloc, base, exprs, schema)
}

/// Puts an addition of these expressions at `node`, over the pruned input; where names are asked, over its columns, and
/// without expressions what stands at its number. Refuses for want of memory alone, and then nothing is known of what
/// stands at `node`.
pub fn put(
    alloc: Global,
    node: Node,
    input: Node,
    is_asked: bool,
    exprs: Items<ExprIR>,
    schema: Schema,
    options: ProjectionOptions,
    lp: &mut Arena<IR>,
) -> Result<(), AllocError>
    requires node { node.0 < length lp.old }
    requires input { (t : Trees IR) × StandsOnce plan_shape lp.old (input ∷ []) t }
    ensures placed { OnOk result ((ex : List AExpr) → lp.new ≡ with_stacked is_asked lp.old node input exprs schema options (first_schema (stored_all (bare (plans_at lp.old ex (input ∷ [])))))) }
    ensures grows { length lp.old ≤ length lp.new }
{
    if !is_asked {
        lp.put(
            node,
            IR::HStack {
                input,
                exprs,
                schema,
                options,
            },
        );
        return Ok(());
    }
    if exprs.len() == 0 {
        drop(schema);
        let entry = lp.take(input);
        lp.put(node, entry);
        return Ok(());
    }
    let stored = columns(alloc, &schema, exprs.as_slice(), input, lp);
    drop(schema);
    let schema = stored?;
    lp.put(
        node,
        IR::HStack {
            input,
            exprs,
            schema,
            options,
        },
    );
    Ok(())
}
