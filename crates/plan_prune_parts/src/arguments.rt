//! What a join over pruned sides is told of its kind and its names.
ghost use Rattle.std.specs.Prelude.{◌≡◌, ◌&&◌, All, IfOk};
ghost use Rattle.plan_expr.specs.Exprs.{all_named_at};
ghost use Rattle.plan_expr.specs.Operands.{IsExpr};
ghost use Rattle.plan_join.specs.Told.{column_keys};
ghost use Rattle.plan_pruned.specs.JoinPruned.{are_columns, keeps_both as keeps_pairs, keys_unasked, may_drop_right as may_drop, narrowed_args as args_narrowed};

use plan_core::{Arena, Names, Schema};
use plan_expr::{AExpr, ExprIR};
use plan_join::right_name;
use plan_options::{JoinArgs, JoinCoalesce, JoinType};
use std::alloc::{AllocError, Global};

/// Whether a join gives the rows of its left side or those that match, once for each match.
fn may_drop_right(how: JoinType) -> bool
    ensures { result ≡ may_drop how }
{
    matches!(how, JoinType::Inner | JoinType::Left)
}

/// Whether both keys of each pair are to be put out.
fn keeps_both(coalesce: JoinCoalesce) -> bool
    ensures { result ≡ keeps_pairs coalesce }
{
    matches!(coalesce, JoinCoalesce::KeepColumns)
}

/// Whether right keys are columns, and no name is asked under which a join that puts out these left columns puts one of them out.
/// Refuses for want of memory alone.
fn are_unasked(
    alloc: Global,
    args: &JoinArgs,
    asked: &Names,
    right_on: &[ExprIR],
    left: &Schema,
    ex: &Arena<AExpr>,
) -> Result<bool, AllocError>
    requires { All (λ e. IsExpr ex.now e.node) right_on.now }
    ensures { IfOk result (λ unasked. unasked ≡ (are_columns (all_named_at ex.now right_on.now) && keys_unasked args.now asked.now (column_keys (all_named_at ex.now right_on.now)) left.now)) }
{
    for key in right_on {
        let Some(name) = ex.get(key.node).column_name() else {
            return Ok(false);
        };
        let called = right_name(alloc, args.suffix(), left, name)?;
        if asked.contains(called.as_str()) {
            return Ok(false);
        }
    }
    Ok(true)
}

/// What a join that is asked names is told of its kind and its names: what it was, but that an inner or left join that puts out both
/// keys of each pair puts out the left ones alone, where its right keys are columns and no name under which it puts one of them out is
/// asked. Refuses for want of memory alone.
pub fn narrowed_args(
    alloc: Global,
    args: JoinArgs,
    asked: &Names,
    right_on: &[ExprIR],
    left: &Schema,
    ex: &Arena<AExpr>,
) -> Result<JoinArgs, AllocError>
    requires { All (λ e. IsExpr ex.now e.node) right_on.now }
    ensures { IfOk result (λ narrowed. narrowed ≡ args_narrowed args asked.now (all_named_at ex.now right_on.now) left.now) }
{
    let mut args = args;
    if may_drop_right(args.how)
        && keeps_both(args.coalesce)
        && are_unasked(alloc, &args, asked, right_on, left, ex)?
    {
        args.coalesce = JoinCoalesce::CoalesceColumns;
    }
    Ok(args)
}
