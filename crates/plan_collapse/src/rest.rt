//! The join on keys that minterms are split into, above it what remains of them and its own condition.
ghost use Rattle.std.specs.Prelude.{◌≡◌, ◌++◌, All, IfOk, List, OnOk, map, option_map};
ghost use Rattle.plan_core.specs.Columns.{Columns};
ghost use Rattle.plan_expr.specs.Exprs.{expr_at};
ghost use Rattle.plan_join.specs.Told.{told_at};
ghost use Rattle.plan_meaning.specs.JoinChecks.{conditions};
ghost use Rattle.plan_pruned.specs.Renamed.{IsLonger};
ghost use Rattle.plan_prune_parts.specs.Places.{StandExprs, TakePlace};
ghost use Rattle.plan_collapse_laws.specs.CrossKeys.{Crossed};
ghost use Rattle.plan_collapse.specs.KeysAt.{AreOrigins, NamesItself, split_nodes};
ghost use Rattle.plan_collapse.specs.NewJoins.{IsByKeys, MayBeKeys, new_nodes};

use crate::cross::{NewJoin, on_keys};
use crate::split::Split;
use plan_core::{Arena, Items, Node};
use plan_expr::AExpr;
use plan_join::JoinOptions;
use plan_options::{IEJoinOptions, JoinType};
use plan_prune_parts::Origins;
use std::alloc::{AllocError, Global};

/// Adds numbers. Refuses for want of memory alone.
fn add_all(nodes: &[Node], all: &mut Items<Node>) -> Result<(), AllocError>
    ensures { OnOk result (all.new ≡ all.old ++ nodes.now) }
{
    for node in nodes {
        all.push(*node)?;
    }
    Ok(())
}

/// Two lists of numbers, one after the other. Refuses for want of memory alone.
pub fn both(alloc: Global, first: &[Node], second: &[Node]) -> Result<Items<Node>, AllocError>
    ensures { IfOk result (λ all. all ≡ first.now ++ second.now) }
{
    let mut all = Items::new(alloc);
    add_all(first, &mut all)?;
    add_all(second, &mut all)?;
    Ok(all)
}

/// The join on the keys that minterms are split into, in the place of a cross join with these numbers of its own condition, under a filter
/// by what remains and the condition. Expressions are only added. Refuses for want of memory alone.
pub fn by_keys(
    alloc: Global,
    how: JoinType,
    operators: Option<IEJoinOptions>,
    split: &Split,
    own: &[Node],
    options: JoinOptions,
    origins: &Origins,
    ex: &mut Arena<AExpr>,
) -> Result<NewJoin, AllocError>
    requires stands { StandExprs ex.old (split_nodes split.now ++ own.now) }
    requires keys { MayBeKeys ex.old origins.now split.now.keys }
    requires named { All (λ n. NamesItself (expr_at ex.old n)) (split.now.rest ++ own.now) }
    requires own { map (expr_at ex.old) own.now ≡ map (λ e. e.expr) (conditions (told_at ex.old options).options) }
    ensures plan { IfOk result (λ join. (j : Crossed) → AreOrigins j origins.now → IsByKeys ex.old ex.new j how operators split.now options join) }
    ensures place { IfOk result (λ join. TakePlace ex.old ex.new (new_nodes join) (split_nodes split.now ++ own.now)) }
    ensures longer { IsLonger ex.old ex.new }
{
    let remaining = both(alloc, split.rest.as_slice(), own)?;
    let join = on_keys(
        alloc,
        how,
        operators,
        split.keys.as_slice(),
        remaining.as_slice(),
        options,
        origins,
        ex,
    )?;
    Ok(join)
}
