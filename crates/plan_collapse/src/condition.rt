//! A cross join by a condition in the place of its run of filters.
ghost use Rattle.std.specs.Prelude.{◌≡◌, List, All, IfOk, option_map};
ghost use Rattle.plan_expr.specs.declared.aexpr.AExpr.{AExpr as AExprType};
ghost use Rattle.plan_expr.specs.Exprs.{expr_at, named_at};
ghost use Rattle.plan_ir.specs.Parts.{condition_of};
ghost use Rattle.plan_join.specs.Told.{condition, told_at};
ghost use Rattle.plan_options.specs.declared.join.JoinCoalesce.TheVariants.{KeepColumns};
ghost use Rattle.plan_pruned.specs.Renamed.{IsLonger};
ghost use Rattle.plan_prune_parts.specs.Places.{StandExprs, TakePlace};
ghost use Rattle.plan_collapse_laws.specs.TakenKeys.{told_now};
ghost use Rattle.plan_collapse.specs.KeysAt.{NamesItself};
ghost use Rattle.plan_collapse.specs.NewJoins.{IsByCondition, new_nodes};

use crate::cross::NewJoin;
use crate::joined::and_all;
use crate::named::named_if;
use plan_core::{Arena, Items, Node};
use plan_expr::{AExpr, ExprIR};
use plan_join::{JoinOptions, JoinTypeOptionsIR};
use plan_options::JoinCoalesce;
use std::alloc::{AllocError, Global};

/// What a cross join is told with this condition, if there is one, in the place of its own: it keeps both columns of each pair, and the
/// rest is as it was.
fn conditioned(predicate: Option<ExprIR>, options: JoinOptions) -> JoinOptions
    ensures told { (ex grown : List AExprType) → told_at grown result ≡ told_now (record options.args { coalesce = KeepColumns }) (option_map condition (option_map (named_at grown) predicate)) (told_at ex options) }
    ensures condition { condition_of result ≡ predicate }
{
    let mut options = options;
    options.args.coalesce = JoinCoalesce::KeepColumns;
    options.options = match predicate {
        Some(predicate) => Some(JoinTypeOptionsIR::Cross { predicate }),
        None => None,
    };
    options
}

/// The cross join by a condition, these expressions joined by And, in the place of its run and its own condition. Expressions are only
/// added. Refuses for want of memory alone.
pub fn by_condition(
    alloc: Global,
    remaining: &[Node],
    options: JoinOptions,
    ex: &mut Arena<AExpr>,
) -> Result<NewJoin, AllocError>
    requires stands { StandExprs ex.old remaining.now }
    requires named { All (λ n. NamesItself (expr_at ex.old n)) remaining.now }
    ensures plan { IfOk result (λ join. IsByCondition ex.old ex.new remaining.now options join) }
    ensures place { IfOk result (λ join. TakePlace ex.old ex.new (new_nodes join) remaining.now) }
    ensures longer { IsLonger ex.old ex.new }
{
    let all = and_all(remaining, ex)?;
    let predicate = named_if(alloc, all, ex)?;
    Ok(NewJoin {
        left_on: Items::new(alloc),
        right_on: Items::new(alloc),
        options: conditioned(predicate, options),
        above: None,
    })
}
