//! A join in the place of a cross join under a run of filters.
ghost use Rattle.std.specs.Prelude.{◌≡◌, ◌++◌, List, All, IfOk, None, OnOk, map, option_map};
ghost use Rattle.plan_core.specs.declared.arena.Node.{Node as NodeType};
ghost use Rattle.plan_expr.specs.declared.aexpr.AExpr.{AExpr as AExprType};
ghost use Rattle.plan_expr.specs.Exprs.{all_named_at, expr_at};
ghost use Rattle.plan_ir.specs.Parts.{condition_of, list_of};
ghost use Rattle.plan_join.specs.Told.{inequalities, told_at};
ghost use Rattle.plan_pruned.specs.Renamed.{IsLonger};
ghost use Rattle.plan_prune_parts.specs.Places.{StandExprs, TakePlace};
ghost use Rattle.plan_collapse_laws.specs.Collapsed.{keeping as keeping_of};
ghost use Rattle.plan_collapse_laws.specs.CrossKeys.{Crossed, own_expr};
ghost use Rattle.plan_collapse_laws.specs.TakenKeys.{and_all as and_of, self_named as named_by, told_now};
ghost use Rattle.plan_collapse.specs.KeysAt.{AreOrigins, left_nodes, NamesItself, right_nodes, pair_at};
ghost use Rattle.plan_collapse.specs.NewJoins.{IsOnKeys, MayBeKeys, new_nodes};

use crate::copies::right_copies;
use crate::joined::and_all;
use crate::keys::KeyNodes;
use crate::named::{all_self_named, named_if};
use plan_core::{Arena, Items, Node};
use plan_expr::{AExpr, ExprIR};
use plan_join::{JoinOptions, JoinTypeOptionsIR};
use plan_options::{IEJoinOptions, JoinArgs, JoinCoalesce, JoinType};
use plan_prune_parts::Origins;
use std::alloc::{AllocError, Global};

/// A join in the place of a cross join under a run of filters, beside its columns and inputs.
#[derive(Drop)]
pub struct NewJoin {
    /// The keys over the left columns.
    pub left_on: Items<ExprIR>,
    /// The keys over the right columns, as many.
    pub right_on: Items<ExprIR>,
    /// What it is told beside its keys.
    pub options: JoinOptions,
    /// The predicate of a filter above it, if there is one.
    pub above: Option<ExprIR>,
}

/// The numbers of left keys. Refuses for want of memory alone.
fn left_list(alloc: Global, keys: &[KeyNodes]) -> Result<Items<Node>, AllocError>
    ensures { IfOk result (λ ns. ns ≡ left_nodes keys.now) }
{
    let mut nodes = Items::new(alloc);
    for key in keys {
        nodes.push(key.left)?;
    }
    Ok(nodes)
}

/// Adds copies of the right keys under the names of their own side, and an And of what remains; with the left keys they stand in the
/// place of all. Refuses for want of memory alone.
fn add_exprs(
    alloc: Global,
    keys: &[KeyNodes],
    remaining: &[Node],
    origins: &Origins,
    ex: &mut Arena<AExpr>,
) -> Result<(Items<Node>, Option<Node>), AllocError>
    requires { StandExprs ex.old (left_nodes keys.now ++ (right_nodes keys.now ++ remaining.now)) }
    ensures copies { IfOk result (λ made. (j : Crossed) → AreOrigins j origins.now → map (expr_at ex.new) made.0 ≡ map (λ k. own_expr j (expr_at ex.old k.right)) keys.now) }
    ensures all { IfOk result (λ made. option_map (expr_at ex.new) made.1 ≡ and_of (map (expr_at ex.old) remaining.now)) }
    ensures place { IfOk result (λ made. TakePlace ex.old ex.new (left_nodes keys.now ++ (made.0 ++ list_of made.1)) (left_nodes keys.now ++ (right_nodes keys.now ++ remaining.now))) }
    ensures longer { IsLonger ex.old ex.new }
{
    let copies = right_copies(alloc, keys, origins, ex)?;
    let all = and_all(remaining, ex)?;
    Ok((copies, all))
}

/// What a cross join is told, as a join on keys of this kind: it keeps both columns of each pair, null matches nothing, and the rest is
/// as it was.
fn keeping(how: JoinType, operators: Option<IEJoinOptions>, options: JoinOptions) -> JoinOptions
    ensures told { (ex grown : List AExprType) → told_at grown result ≡ told_now (keeping_of how options.args) (option_map inequalities operators) (told_at ex options) }
    ensures condition { condition_of result ≡ None }
{
    let mut options = options;
    options.args.how = how;
    options.args.coalesce = JoinCoalesce::KeepColumns;
    options.args.join_nulls = false;
    options.options = match operators {
        Some(operators) => Some(JoinTypeOptionsIR::IEJoin(operators)),
        None => None,
    };
    options
}

/// A join on keys of the arena, told so, under an expression if there is one; each key and the expression under the name that it gives
/// itself. Refuses for want of memory alone.
fn named_join(
    alloc: Global,
    lefts: &[Node],
    copies: &[Node],
    all: Option<Node>,
    options: JoinOptions,
    ex: &Arena<AExpr>,
) -> Result<NewJoin, AllocError>
    requires stands { StandExprs ex.now (lefts.now ++ (copies.now ++ list_of all)) }
    requires left { All (λ n. NamesItself (expr_at ex.now n)) lefts.now }
    requires right { All (λ n. NamesItself (expr_at ex.now n)) copies.now }
    requires above { All (λ n. NamesItself (expr_at ex.now n)) (list_of all) }
    ensures left { IfOk result (λ join. all_named_at ex.now join.left_on ≡ map (λ n. named_by (expr_at ex.now n)) lefts.now) }
    ensures right { IfOk result (λ join. all_named_at ex.now join.right_on ≡ map (λ n. named_by (expr_at ex.now n)) copies.now) }
    ensures above { IfOk result (λ join. all_named_at ex.now (list_of join.above) ≡ map (λ n. named_by (expr_at ex.now n)) (list_of all)) }
    ensures options { IfOk result (λ join. join.options ≡ options) }
    ensures nodes { IfOk result (λ join. new_nodes join ≡ list_of all ++ ((lefts.now ++ copies.now) ++ map (λ e. e.node) (list_of (condition_of options)))) }
{
    let left_on = all_self_named(alloc, lefts, ex)?;
    let right_on = all_self_named(alloc, copies, ex)?;
    let above = named_if(alloc, all, ex)?;
    Ok(NewJoin {
        left_on,
        right_on,
        options,
        above,
    })
}

/// The join on keys in the place of a cross join, under a filter by what remains of its run with its own condition behind, if anything
/// does; it keeps what the cross join was told, but for its kind, both columns of each pair, and null that matches nothing. The right
/// keys are copies under the names of their own side. Expressions are only added. Refuses for want of memory alone.
pub fn on_keys(
    alloc: Global,
    how: JoinType,
    operators: Option<IEJoinOptions>,
    keys: &[KeyNodes],
    remaining: &[Node],
    options: JoinOptions,
    origins: &Origins,
    ex: &mut Arena<AExpr>,
) -> Result<NewJoin, AllocError>
    requires stands { StandExprs ex.old (left_nodes keys.now ++ (right_nodes keys.now ++ remaining.now)) }
    requires keys { MayBeKeys ex.old origins.now keys.now }
    requires named { All (λ n. NamesItself (expr_at ex.old n)) remaining.now }
    ensures plan { IfOk result (λ join. (j : Crossed) → AreOrigins j origins.now → IsOnKeys ex.old ex.new how operators (map (pair_at ex.old j) keys.now) remaining.now options join) }
    ensures place { IfOk result (λ join. TakePlace ex.old ex.new (new_nodes join) (left_nodes keys.now ++ (right_nodes keys.now ++ remaining.now))) }
    ensures longer { IsLonger ex.old ex.new }
{
    let (copies, all) = add_exprs(alloc, keys, remaining, origins, ex)?;
    let lefts = left_list(alloc, keys)?;
    let options = keeping(how, operators, options);
    let join = named_join(alloc, lefts.as_slice(), copies.as_slice(), all, options, ex)?;
    Ok(join)
}
