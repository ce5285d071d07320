//! A join over pruned sides.
ghost use Rattle.std.specs.Prelude.{◌≡◌, ◌++◌, [], All, IfOk};
ghost use Rattle.plan_expr.specs.Exprs.{all_named_at};
ghost use Rattle.plan_expr.specs.Operands.{IsExpr};
ghost use Rattle.plan_ir.specs.Parts.{condition_of, list_of};
ghost use Rattle.plan_ir.specs.Plans.{Plan};
ghost use Rattle.plan_join.specs.Naming.{has_right, join_columns, key_columns, left_rest as left_left, right_rest as right_left, with_right};
ghost use Rattle.plan_options.specs.Join.{suffix_of};
ghost use Rattle.plan_join.specs.Told.{column_keys, told_at};
ghost use Rattle.plan_pruned.specs.JoinPruned.{called_now, first_of_each, narrowed_told, topped_if};
ghost use Rattle.plan_prune_parts.specs.Left.{condition_nodes, name_now, put_on, top_nodes, StandFor};
ghost use Rattle.plan_prune_parts.specs.Origins.{origin_in};
ghost use Rattle.plan_pruned.specs.Renamed.{IsLonger};

use crate::condition::options_now;
use crate::names::JoinNames;
use crate::origins::Origins;
use crate::top::{Top, put_on_top};
use plan_core::{Arena, Names, PlSmallStr, Schema, TryClone};
use plan_expr::{AExpr, ExprIR};
use plan_join::{JoinOptions, left_rest, right_name, right_rest};
use plan_options::{JoinArgs, JoinType};
use std::alloc::{AllocError, Global};

/// A join over pruned sides.
#[derive(Drop)]
pub struct PrunedJoin {
    /// What it is told beside its keys.
    pub options: JoinOptions,
    /// Its columns.
    pub schema: Schema,
    /// What goes on top.
    pub top: Top,
}

/// No name comes twice among the columns of a schema, so that they are the first of each. There is nothing to compute.
fn are_first(schema: &Schema)
    ensures { first_of_each schema.now ≡ schema.now }
{
    let _count = schema.len();
}

/// The left columns with the right ones behind them, under the names under which these are put out, of each name the first. Refuses
/// for want of memory alone.
fn first_columns(
    alloc: Global,
    suffix: &str,
    left: &Schema,
    right: &Schema,
) -> Result<Schema, AllocError>
    ensures { IfOk result (λ made. made ≡ first_of_each (with_right suffix.now left.now right.now)) }
{
    are_first(left);
    let mut made = left.try_clone(alloc)?;
    for (name, dtype) in right.iter() {
        let name = right_name(alloc, suffix, left, name)?;
        if made.get(name.as_str()).is_none() {
            made.with_column(name, *dtype)?;
        }
    }
    Ok(made)
}

/// What goes on top of a join of this kind: nothing where it puts out no columns of its right side. Refuses for want of memory alone.
fn top_of(
    alloc: Global,
    how: JoinType,
    asked: &Names,
    names: &JoinNames,
    columns: &Schema,
    ex: &mut Arena<AExpr>,
) -> Result<Top, AllocError>
    ensures top { IfOk result (λ top. (plan : Plan) → put_on ex.new top plan ≡ topped_if (has_right how) (name_now names.now) asked.now columns.now plan) }
    ensures place { IfOk result (λ top. StandFor ex.old ex.new (top_nodes top) []) }
    ensures longer { IsLonger ex.old ex.new }
{
    if matches!(how, JoinType::Semi | JoinType::Anti) {
        return Ok(Top::Nothing);
    }
    put_on_top(alloc, asked, names, columns, ex)
}

/// What the columns of a join are called over pruned sides. The columns of its sides were `origins`. Refuses for want of memory alone.
fn join_names(
    alloc: Global,
    origins: Origins,
    args: &JoinArgs,
    left_on: &[ExprIR],
    left: &Schema,
    ex: &Arena<AExpr>,
) -> Result<JoinNames, AllocError>
    requires { All (λ e. IsExpr ex.now e.node) left_on.now }
    ensures now { IfOk result (λ names. name_now names ≡ called_now args.now (column_keys (all_named_at ex.now left_on.now)) left.now (origin_in origins)) }
    ensures left { IfOk result (λ names. names.left ≡ left_left args.now (key_columns ex.now left_on.now) left.now) }
{
    let rest = left_rest(alloc, args, left_on, left, ex)?;
    let suffix = PlSmallStr::new(alloc, args.suffix())?;
    Ok(JoinNames {
        origins,
        suffix,
        left: rest,
    })
}

/// The columns of a join over pruned sides, of each name the first, where these are the left ones. Refuses for want of memory alone.
fn join_schema(
    alloc: Global,
    args: &JoinArgs,
    right_on: &[ExprIR],
    rest: &Schema,
    right: &Schema,
    ex: &Arena<AExpr>,
) -> Result<Schema, AllocError>
    requires { All (λ e. IsExpr ex.now e.node) right_on.now }
    ensures { IfOk result (λ made. made ≡ first_of_each (with_right (suffix_of args.now) rest.now (right_left args.now (key_columns ex.now right_on.now) right.now))) }
{
    let others = right_rest(alloc, args, right_on, right, ex)?;
    let made = first_columns(alloc, args.suffix(), rest, &others);
    drop(others);
    made
}

/// A join with these columns under the names that its columns have now: what it is told, and what goes on top. Expressions are only
/// appended, and what is new stands over new entries. Refuses for want of memory alone.
fn named_join(
    alloc: Global,
    asked: &Names,
    names: &JoinNames,
    options: JoinOptions,
    schema: Schema,
    ex: &mut Arena<AExpr>,
) -> Result<PrunedJoin, AllocError>
    requires { All (λ e. IsExpr ex.old e.node) (list_of (condition_of options)) }
    ensures told { IfOk result (λ join. told_at ex.new join.options ≡ narrowed_told (name_now names.now) options.args (told_at ex.old options)) }
    ensures schema { IfOk result (λ join. join.schema ≡ schema) }
    ensures top { IfOk result (λ join. (plan : Plan) → put_on ex.new join.top plan ≡ topped_if (has_right options.args.how) (name_now names.now) asked.now join.schema plan) }
    ensures place { IfOk result (λ join. StandFor ex.old ex.new (top_nodes join.top ++ condition_nodes join.options) (condition_nodes options)) }
    ensures longer { IsLonger ex.old ex.new }
{
    let how = options.args.how;
    let options = options_now(alloc, options, names, ex)?;
    let top = top_of(alloc, how, asked, names, &schema, ex)?;
    Ok(PrunedJoin {
        options,
        schema,
        top,
    })
}

/// A join of which names are asked over pruned sides with these columns: what it is told, its condition under the names that its
/// columns have now; its columns, of each name the first; and what goes on top, which is nothing where it puts out no columns of its
/// right side. The columns of its sides were `origins`. Expressions are only appended, and what is new stands over new entries. Refuses
/// for want of memory alone; entries that nothing reaches may have been added then.
pub fn pruned_join(
    alloc: Global,
    asked: &Names,
    origins: Origins,
    left_on: &[ExprIR],
    right_on: &[ExprIR],
    options: JoinOptions,
    left: &Schema,
    right: &Schema,
    ex: &mut Arena<AExpr>,
) -> Result<PrunedJoin, AllocError>
    requires left_keys { All (λ e. IsExpr ex.old e.node) left_on.now }
    requires right_keys { All (λ e. IsExpr ex.old e.node) right_on.now }
    requires condition { All (λ e. IsExpr ex.old e.node) (list_of (condition_of options)) }
    ensures told { IfOk result (λ join. told_at ex.new join.options ≡ narrowed_told (called_now options.args (column_keys (all_named_at ex.old left_on.now)) left.now (origin_in origins)) options.args (told_at ex.old options)) }
    ensures schema { IfOk result (λ join. join.schema ≡ first_of_each (join_columns options.args (column_keys (all_named_at ex.old left_on.now)) (column_keys (all_named_at ex.old right_on.now)) left.now right.now)) }
    ensures top { IfOk result (λ join. (plan : Plan) → put_on ex.new join.top plan ≡ topped_if (has_right options.args.how) (called_now options.args (column_keys (all_named_at ex.old left_on.now)) left.now (origin_in origins)) asked.now join.schema plan) }
    ensures place { IfOk result (λ join. StandFor ex.old ex.new (top_nodes join.top ++ condition_nodes join.options) (condition_nodes options)) }
    ensures longer { IsLonger ex.old ex.new }
{
    let names = join_names(alloc, origins, &options.args, left_on, left, ex)?;
    let schema = join_schema(alloc, &options.args, right_on, &names.left, right, ex)?;
    let join = named_join(alloc, asked, &names, options, schema, ex);
    drop(names);
    join
}
