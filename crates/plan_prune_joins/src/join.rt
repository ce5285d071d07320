//! A join that is asked names asks each of its sides for what it needs of it, and goes back over the pruned sides, with what puts out
//! the asked columns under their names on top where it puts out others, or some under other names. It needs the columns that the
//! sides had before. Asked nothing it stays as it is over the pruned sides: a side that it puts out is asked nothing, and another what
//! the keys read.
ghost use Rattle.std.specs.Prelude.{◌≡◌, ◌<◌, ◌≤◌, ◌∷◌, [], All, List, IfOk, IsTrue, None, OnOk, Some, length};
ghost use Rattle.plan_core.specs.declared.arena.Node.{Node as NodeType};
ghost use Rattle.plan_tree.specs.Stands.{Trees, StandsOnce};
ghost use Rattle.plan_expr.specs.Exprs.{all_named_at};
ghost use Rattle.plan_expr.specs.Operands.{IsExpr};
ghost use Rattle.plan_ir.specs.declared.ir.IR.{IR};
ghost use Rattle.plan_ir.specs.Parts.{inputs_of, is_join, plan_shape, roots_of};
ghost use Rattle.plan_pruned.specs.JoinPruned.{narrowed_args as args_narrowed};
ghost use Rattle.plan_pruned.specs.Renamed.{IsLonger};
ghost use Rattle.plan_prune_joins.specs.Joined.{IsKept, JoinMade, JoinPut, step_of_join, with_on};
ghost use Rattle.plan_prune_parts.specs.declared.step.Step.TheVariants.{Each};
ghost use Rattle.plan_prune_parts.specs.Places.{StandExprs};

use plan_core::{Arena, Items, Names, Node, ProjectionOptions, Schema};
use plan_expr::{AExpr, ExprIR};
use plan_ir::IR;
use plan_join::JoinOptions;
use plan_prune_parts::cover::put_under;
use plan_prune_parts::{Kept, Origins, Step, Top, asks, asks_unasked, narrowed_args, pruned_join};
use plan_pruned::copied_names;
use plan_schema::stored_schema;
use std::alloc::{AllocError, Global};

/// What is kept of a node from before its inputs are pruned: of a join that is asked names, these and the columns of its sides by the
/// names under which it puts them out; of another node, and asked nothing, nothing. Refuses for want of memory alone.
pub fn keep(
    alloc: Global,
    entry: &IR,
    asked: &Names,
    lp: &Arena<IR>,
    ex: &Arena<AExpr>,
) -> Result<Option<Kept>, AllocError>
    requires exprs { StandExprs ex.now (roots_of entry.now) }
    requires inputs { (t : Trees IR) × StandsOnce plan_shape lp.now (inputs_of entry.now) t }
    ensures { IfOk result (λ kept. IsKept lp.now ex.now asked.now entry.now kept) }
{
    if asked.len() == 0 {
        return Ok(None);
    }
    match entry {
        IR::Join {
            input_left,
            input_right,
            left_on,
            right_on,
            options,
            ..
        } => {
            let left = stored_schema(alloc, *input_left, lp)?;
            let right = stored_schema(alloc, *input_right, lp)?;
            let origins = Origins::new(
                alloc,
                &options.args,
                left_on.as_slice(),
                right_on.as_slice(),
                left.columns(),
                right.columns(),
                ex,
            )?;
            let asked = copied_names(alloc, asked)?;
            Ok(Some(Kept { asked, origins }))
        }
        _ => Ok(None),
    }
}

/// The inputs of a join.
fn sides(alloc: Global, left: Node, right: Node) -> Result<Items<Node>, AllocError>
    ensures { IfOk result (λ inputs. inputs ≡ left ∷ right ∷ []) }
{
    let mut inputs = Items::new(alloc);
    inputs.push(left)?;
    inputs.push(right)?;
    Ok(inputs)
}

/// The step of a join that asks its sides these names.
fn over(
    alloc: Global,
    left: Node,
    right: Node,
    lists: Items<Names>,
    join: IR,
) -> Result<Step, AllocError>
    ensures { IfOk result (λ step. step ≡ Each (left ∷ right ∷ []) lists None None join) }
{
    Ok(Step::Each {
        inputs: sides(alloc, left, right)?,
        asked: lists,
        covered: None,
        kept: None,
        entry: join,
    })
}

/// The step of a join that is asked nothing.
fn prepare_unasked(alloc: Global, join: IR, ex: &Arena<AExpr>) -> Result<Step, AllocError>
    requires kind { IsTrue (is_join join) }
    requires exprs { StandExprs ex.now (roots_of join) }
    ensures { IfOk result (λ step. (lp : List IR) → step ≡ step_of_join lp ex.now [] join) }
{
    match join {
        IR::Join {
            input_left,
            input_right,
            schema,
            left_on,
            right_on,
            options,
        } => {
            let lists = asks_unasked(alloc, right_on.as_slice(), options.args.how, ex)?;
            let join = IR::Join {
                input_left,
                input_right,
                schema,
                left_on,
                right_on,
                options,
            };
            Ok(over(alloc, input_left, input_right, lists, join)?)
        }
        _ => unreachable!(),
    }
}

/// What a join that is asked names is told that goes back over its pruned sides, of which the left one has these columns.
fn told(
    alloc: Global,
    options: JoinOptions,
    asked: &Names,
    right_on: &[ExprIR],
    left: &Schema,
    ex: &Arena<AExpr>,
) -> Result<JoinOptions, AllocError>
    requires { All (λ e. IsExpr ex.now e.node) right_on.now }
    ensures { IfOk result (λ told. told ≡ record options { args = args_narrowed options.args asked.now (all_named_at ex.now right_on.now) left.now }) }
{
    let mut options = options;
    options.args = narrowed_args(alloc, options.args, asked, right_on, left, ex)?;
    Ok(options)
}

/// The step of a join that is asked names, by what is kept of it.
fn prepare_asked(
    alloc: Global,
    join: IR,
    asked: &Names,
    kept: &Kept,
    lp: &Arena<IR>,
    ex: &Arena<AExpr>,
) -> Result<Step, AllocError>
    requires kind { IsTrue (is_join join) }
    requires kept { IsKept lp.now ex.now asked.now join (Some kept.now) }
    requires exprs { StandExprs ex.now (roots_of join) }
    requires inputs { (t : Trees IR) × StandsOnce plan_shape lp.now (inputs_of join) t }
    ensures { IfOk result (λ step. step ≡ step_of_join lp.now ex.now asked.now join) }
{
    match join {
        IR::Join {
            input_left,
            input_right,
            schema,
            left_on,
            right_on,
            options,
        } => {
            let left = stored_schema(alloc, input_left, lp)?;
            let right = stored_schema(alloc, input_right, lp)?;
            let lists = asks(
                alloc,
                asked,
                left_on.as_slice(),
                right_on.as_slice(),
                &options,
                &kept.origins,
                left.columns(),
                right.columns(),
                ex,
            )?;
            let columns = left.columns();
            let options = told(alloc, options, asked, right_on.as_slice(), columns, ex)?;
            let join = IR::Join {
                input_left,
                input_right,
                schema,
                left_on,
                right_on,
                options,
            };
            Ok(over(alloc, input_left, input_right, lists, join)?)
        }
        _ => unreachable!(),
    }
}

/// The step of a join, by what is kept of it. Refuses for want of memory alone.
pub fn prepare(
    alloc: Global,
    join: IR,
    asked: &Names,
    kept: &Option<Kept>,
    lp: &Arena<IR>,
    ex: &Arena<AExpr>,
) -> Result<Step, AllocError>
    requires kind { IsTrue (is_join join) }
    requires kept { IsKept lp.now ex.now asked.now join kept.now }
    requires exprs { StandExprs ex.now (roots_of join) }
    requires inputs { (t : Trees IR) × StandsOnce plan_shape lp.now (inputs_of join) t }
    ensures { IfOk result (λ step. step ≡ step_of_join lp.now ex.now asked.now join) }
{
    match kept {
        Some(kept) => prepare_asked(alloc, join, asked, kept, lp, ex),
        None => prepare_unasked(alloc, join, ex),
    }
}

/// Puts a join at `node`, or at a new number under what goes on top, which takes `node`. Refuses for want of memory alone, and then
/// nothing is known of what stands at `node`.
fn put_top(node: Node, join: IR, top: Top, lp: &mut Arena<IR>) -> Result<(), AllocError>
    requires { node.0 < length lp.old }
    ensures placed { OnOk result (lp.new ≡ with_on top lp.old node join) }
    ensures grows { length lp.old ≤ length lp.new }
{
    match top {
        Top::Nothing => {
            lp.put(node, join);
            Ok(())
        }
        Top::Projection(columns) => put_under(node, join, columns, lp),
        Top::Selection(expr, schema) => {
            let input = lp.add(join)?;
            let options = ProjectionOptions::default();
            lp.put(
                node,
                IR::Select {
                    input,
                    expr,
                    schema,
                    options,
                },
            );
            Ok(())
        }
    }
}

/// A join that was asked names, over its pruned sides, and what goes on top of it. Expressions are only added. Refuses for want of memory
/// alone.
fn joined(
    alloc: Global,
    join: IR,
    kept: Kept,
    lp: &Arena<IR>,
    ex: &mut Arena<AExpr>,
) -> Result<(IR, Top), AllocError>
    requires kind { IsTrue (is_join join) }
    requires exprs { StandExprs ex.old (roots_of join) }
    requires inputs { (t : Trees IR) × StandsOnce plan_shape lp.now (inputs_of join) t }
    ensures made { IfOk result (λ made. JoinMade kept lp.now ex.old ex.new join made.0 made.1) }
    ensures longer { IsLonger ex.old ex.new }
{
    match join {
        IR::Join {
            input_left,
            input_right,
            left_on,
            right_on,
            options,
            ..
        } => {
            let Kept { asked, origins } = kept;
            let left = stored_schema(alloc, input_left, lp)?;
            let right = stored_schema(alloc, input_right, lp)?;
            let made = pruned_join(
                alloc,
                &asked,
                origins,
                left_on.as_slice(),
                right_on.as_slice(),
                options,
                left.columns(),
                right.columns(),
                ex,
            )?;
            let join = IR::Join {
                input_left,
                input_right,
                schema: made.schema,
                left_on,
                right_on,
                options: made.options,
            };
            Ok((join, made.top))
        }
        _ => unreachable!(),
    }
}

/// Puts a join that was asked names at `node`, over its pruned sides, under what goes on top of it. Expressions are only added. Refuses
/// for want of memory alone, and then nothing is known of what stands at `node`.
pub fn put(
    alloc: Global,
    node: Node,
    join: IR,
    kept: Kept,
    lp: &mut Arena<IR>,
    ex: &mut Arena<AExpr>,
) -> Result<(), AllocError>
    requires kind { IsTrue (is_join join) }
    requires node { node.0 < length lp.old }
    requires exprs { StandExprs ex.old (roots_of join) }
    requires inputs { (t : Trees IR) × StandsOnce plan_shape lp.old (inputs_of join) t }
    ensures placed { OnOk result (JoinPut kept lp.old lp.new ex.old ex.new node join) }
    ensures grows { length lp.old ≤ length lp.new }
    ensures longer { IsLonger ex.old ex.new }
{
    let (made, top) = joined(alloc, join, kept, lp, ex)?;
    put_top(node, made, top, lp)
}
