//! A selection keeps its asked expressions, in its own order; where these are scalar throughout and another isn't, the first
//! such one too, last, since the height is its. It stores the columns of those that it keeps.
//! Asked nothing, it stays as it is. It asks its input the names that its kept expressions read, each once.
//! A selection of the number of rows alone asks the column that stands in for them, and nothing where there is none.
ghost use Rattle.std.specs.Prelude.{◌≡◌, ℕ, [], All, IfOk, IsTrue, OnOk, if◌then◌else◌, slice_get};
ghost use Rattle.plan_core.specs.Names.{with_names};
ghost use Rattle.plan_core.specs.declared.arena.Node.{Node as NodeType};
ghost use Rattle.plan_expr.specs.Operands.{IsExpr};
ghost use Rattle.plan_expr.specs.Exprs.{all_named_at};
ghost use Rattle.plan_ir.specs.Parts.{IsPlan, inputs_of, is_select, roots_of};
ghost use Rattle.plan_ir.specs.Plans.{op_at};
ghost use Rattle.plan_frame.specs.ExprLists.{all_leaves};
ghost use Rattle.plan_meaning.specs.Counting.{is_count as is_count_op, stand_in_names};
ghost use Rattle.plan_prune_parts.specs.Places.{StandExprs};
ghost use Rattle.plan_prune_parts.specs.Said.{stand_in_at};
ghost use Rattle.plan_prune_steps.specs.Steps.{step_of};
ghost use Rattle.plan_prune_parts.specs.Kept.{selected_at, names_at, is_some_name, stored_after, with_many};

use crate::over::over;
use crate::reads::with_added;
use plan_core::{Arena, Items, Names, Node, PlSmallStr, Schema, TryClone};
use plan_expr::{AExpr, ExprIR};
use plan_frame::{all_scalar, counts_rows};
use plan_ir::IR;
use plan_prune_parts::Step;
use plan_prune_parts::exprs::{add_all_names, asked_exprs, with_typed};
use plan_prune_parts::stand_in::{first_many, stand_in};
use std::alloc::{AllocError, Global};

/// Whether a node counts the rows of its input: a selection of their number alone does.
pub fn is_count(node: &IR, ex: &Arena<AExpr>) -> bool
    requires { StandExprs ex.now (roots_of node.now) }
    ensures { result ≡ is_count_op (op_at ex.now node.now) }
{
    match node {
        IR::Select { expr, .. } => counts_rows(expr.as_slice(), ex),
        _ => false,
    }
}

/// Adds to kept expressions that are scalar throughout the first of all that isn't, if there is one. Refuses for want of memory alone,
/// and then nothing is known of them.
fn add_many(
    alloc: Global,
    kept: &mut Items<ExprIR>,
    exprs: &[ExprIR],
    ex: &Arena<AExpr>,
) -> Result<(), AllocError>
    requires kept { All (λ e. IsExpr ex.now e.node) kept.old }
    requires exprs { All (λ e. IsExpr ex.now e.node) exprs.now }
    ensures { OnOk result (kept.new ≡ with_many ex.now kept.old exprs.now) }
{
    if all_scalar(kept.as_slice(), ex) {
        if let Some(expr) = first_many(exprs, ex) {
            return kept.push(expr.try_clone(alloc)?);
        }
    }
    Ok(())
}

/// The expressions that a selection keeps.
fn keep(
    alloc: Global,
    exprs: Items<ExprIR>,
    asked: &Names,
    ex: &Arena<AExpr>,
) -> Result<Items<ExprIR>, AllocError>
    requires { All (λ e. IsExpr ex.now e.node) exprs }
    ensures { IfOk result (λ kept. kept ≡ selected_at ex.now asked.now exprs) }
{
    if asked.len() == 0 {
        return Ok(exprs);
    }
    let mut kept = asked_exprs(alloc, exprs.as_slice(), asked)?;
    add_many(alloc, &mut kept, exprs.as_slice(), ex)?;
    Ok(kept)
}

/// The columns that a selection stores that keeps these expressions.
fn columns(
    alloc: Global,
    schema: Schema,
    exprs: &[ExprIR],
    asked: &Names,
) -> Result<Schema, AllocError>
    ensures { IfOk result (λ columns. columns ≡ stored_after (is_some_name asked.now) [] (names_at exprs.now) schema) }
{
    if asked.len() == 0 {
        return Ok(schema);
    }
    let columns = with_typed(alloc, Schema::new(alloc), exprs, &schema);
    drop(schema);
    columns
}

/// The names that expressions read, each once.
fn read(alloc: Global, exprs: &[ExprIR], ex: &Arena<AExpr>) -> Result<Names, AllocError>
    requires { All (λ e. IsExpr ex.now e.node) exprs.now }
    ensures { IfOk result (λ names. names ≡ with_names [] (all_leaves (all_named_at ex.now exprs.now))) }
{
    let mut names = Names::new(alloc);
    let added = add_all_names(&mut names, exprs, ex);
    with_added(names, added)
}

/// Adds the name, if there is one. Refuses for want of memory alone.
fn add_found(names: &mut Names, found: &Option<PlSmallStr>) -> Result<(), AllocError>
    ensures { OnOk result (names.new ≡ with_names names.old (stand_in_names found.now)) }
{
    if let Some(name) = found {
        let _ = names.add(name.as_str())?;
    }
    Ok(())
}

/// The name of the column that stands in for the rows of the input; none where there is none.
fn standing_in(
    alloc: Global,
    input: Node,
    lp: &Arena<IR>,
    ex: &Arena<AExpr>,
) -> Result<Names, AllocError>
    requires { IsPlan lp.now ex.now input }
    ensures { IfOk result (λ names. names ≡ stand_in_names (stand_in_at lp.now ex.now input)) }
{
    let found = stand_in(alloc, input, lp, ex)?;
    let mut names = Names::new(alloc);
    let added = add_found(&mut names, &found);
    drop(found);
    with_added(names, added)
}

/// What a selection asks that keeps these expressions: a count of rows the column that stands in for them.
fn asks(
    alloc: Global,
    is_count: bool,
    input: Node,
    exprs: &[ExprIR],
    lp: &Arena<IR>,
    ex: &Arena<AExpr>,
) -> Result<Names, AllocError>
    requires exprs { All (λ e. IsExpr ex.now e.node) exprs.now }
    requires input { IsPlan lp.now ex.now input }
    ensures { IfOk result (λ names. names ≡ (if is_count then stand_in_names (stand_in_at lp.now ex.now input) else with_names [] (all_leaves (all_named_at ex.now exprs.now)))) }
{
    if is_count {
        return standing_in(alloc, input, lp, ex);
    }
    read(alloc, exprs, ex)
}

/// The step of a selection. Refuses for want of memory alone.
pub fn prepare(
    alloc: Global,
    selection: IR,
    asked: &Names,
    lp: &Arena<IR>,
    ex: &Arena<AExpr>,
) -> Result<Step, AllocError>
    requires kind { IsTrue (is_select selection) }
    requires exprs { StandExprs ex.now (roots_of selection) }
    requires inputs { (j : ℕ) (i : NodeType) → slice_get (inputs_of selection) j ≡ Some i → IsPlan lp.now ex.now i }
    ensures { IfOk result (λ step. step ≡ step_of lp.now ex.now asked.now selection) }
{
    match selection {
        IR::Select {
            input,
            expr,
            schema,
            options,
        } => {
            let is_count = counts_rows(expr.as_slice(), ex);
            let expr = keep(alloc, expr, asked, ex)?;
            let schema = columns(alloc, schema, expr.as_slice(), asked)?;
            let asked = asks(alloc, is_count, input, expr.as_slice(), lp, ex);
            over(
                input,
                asked,
                IR::Select {
                    input,
                    expr,
                    schema,
                    options,
                },
            )
        }
        _ => unreachable!(),
    }
}
