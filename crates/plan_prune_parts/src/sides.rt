//! What a join asks of its sides.
ghost use Rattle.std.specs.Prelude.{◌≡◌, [], ◌∷◌, All, IfNone, IfOk, IfSome, OnOk};
ghost use Rattle.plan_core.specs.Names.{with_names};
ghost use Rattle.plan_expr.specs.Exprs.{all_named_at};
ghost use Rattle.plan_expr.specs.Leaves.{Name};
ghost use Rattle.plan_expr.specs.Operands.{IsExpr};
ghost use Rattle.plan_frame.specs.ExprLists.{all_leaves};
ghost use Rattle.plan_ir.specs.Parts.{condition_of, list_of};
ghost use Rattle.plan_join.specs.Naming.{has_right};
ghost use Rattle.plan_join.specs.Told.{told_at};
ghost use Rattle.plan_meaning.specs.JoinAsked.{left_asked, needed_of, of_side, origin_of, right_asked, side_asked, side_names as names_of_side, unasked_right};
ghost use Rattle.plan_meaning.specs.JoinChecks.{conditions};
ghost use Rattle.plan_prune_parts.specs.Origins.{origin_in};

use crate::origins::Origins;
use plan_core::{Arena, Items, Names, PlSmallStr, Schema, TryClone};
use plan_expr::{AExpr, ExprIR, aexpr_to_leaf_names};
use plan_join::{JoinOptions, JoinTypeOptionsIR, Side};
use plan_options::JoinType;
use plan_pruned::{add_listed, listed_names};
use std::alloc::{AllocError, Global};

/// The names of the columns of keys, each once, in walk order.
fn key_names(alloc: Global, keys: &[ExprIR], ex: &Arena<AExpr>) -> Result<Names, AllocError>
    requires { All (λ e. IsExpr ex.now e.node) keys.now }
    ensures { IfOk result (λ names. names ≡ with_names [] (all_leaves (all_named_at ex.now keys.now))) }
{
    let mut names = Names::new(alloc);
    for key in keys {
        let leaves = aexpr_to_leaf_names(alloc, key.node, ex)?;
        add_listed(&mut names, leaves.as_slice())?;
    }
    Ok(names)
}

/// The names that the condition of a join reads, in walk order.
fn condition_names(
    alloc: Global,
    options: &JoinOptions,
    ex: &Arena<AExpr>,
) -> Result<Items<PlSmallStr>, AllocError>
    requires { All (λ e. IsExpr ex.now e.node) (list_of (condition_of options.now)) }
    ensures { IfOk result (λ names. names ≡ all_leaves (conditions (told_at ex.now options.now).options)) }
{
    match &options.options {
        Some(JoinTypeOptionsIR::Cross { predicate }) => {
            aexpr_to_leaf_names(alloc, predicate.node, ex)
        }
        _ => Ok(Items::new(alloc)),
    }
}

/// The names that a join needs of its own columns: those that its condition reads, in walk order, and then the asked ones.
fn needed_names(
    alloc: Global,
    options: &JoinOptions,
    asked: &Names,
    ex: &Arena<AExpr>,
) -> Result<Items<PlSmallStr>, AllocError>
    requires { All (λ e. IsExpr ex.now e.node) (list_of (condition_of options.now)) }
    ensures { IfOk result (λ names. names ≡ needed_of (told_at ex.now options.now) asked.now) }
{
    let mut names = condition_names(alloc, options, ex)?;
    let list = listed_names(alloc, asked)?;
    for name in list.as_slice() {
        names.push(name.try_clone(alloc)?)?;
    }
    Ok(names)
}

/// The column that is put out under a name, if it is one of this side.
fn own_name<'a>(side: Side, origins: &'a Origins, name: &'a str) -> Option<&'a str>
    ensures some { IfSome result (λ own. of_side side (origin_in origins.now name.now) ≡ own.now ∷ []) }
    ensures none { IfNone result (of_side side (origin_in origins.now name.now) ≡ []) }
{
    let (of, own) = origins.get(name)?;
    if of == side { Some(own) } else { None }
}

/// Adds the column that is put out under a name, if it is one of this side.
fn add_own(names: &mut Names, side: Side, origins: &Origins, name: &str) -> Result<(), AllocError>
    ensures { OnOk result (names.new ≡ with_names names.old (of_side side (origin_in origins.now name.now))) }
{
    if let Some(own) = own_name(side, origins, name) {
        names.add(own)?;
    }
    Ok(())
}

/// Adds what a needed name asks of a side: itself where the side has it, and the column that is put out under it where that is of
/// this side.
fn add_asked(
    names: &mut Names,
    side: Side,
    origins: &Origins,
    columns: &Schema,
    name: &str,
) -> Result<(), AllocError>
    ensures { OnOk result (names.new ≡ with_names names.old (names_of_side side (origin_in origins.now) columns.now name.now)) }
{
    if columns.get(name).is_some() {
        names.add(name)?;
    }
    add_own(names, side, origins, name)
}

/// What is asked of a side: what its keys read, and then name by name what each needed name asks; each once.
fn side_names(
    alloc: Global,
    side: Side,
    keys: &[ExprIR],
    origins: &Origins,
    columns: &Schema,
    needed: &[PlSmallStr],
    ex: &Arena<AExpr>,
) -> Result<Names, AllocError>
    requires { All (λ e. IsExpr ex.now e.node) keys.now }
    ensures { IfOk result (λ names. names ≡ side_asked side (all_named_at ex.now keys.now) (origin_in origins.now) columns.now needed.now) }
{
    let mut names = key_names(alloc, keys, ex)?;
    for name in needed {
        add_asked(&mut names, side, origins, columns, name.as_str())?;
    }
    Ok(names)
}

/// What a join that is asked names asks of its left side, and what of its right side. It is told from which of their columns it takes
/// those that it puts out. Refuses for want of memory alone.
pub fn asks(
    alloc: Global,
    asked: &Names,
    left_on: &[ExprIR],
    right_on: &[ExprIR],
    options: &JoinOptions,
    origins: &Origins,
    left: &Schema,
    right: &Schema,
    ex: &Arena<AExpr>,
) -> Result<Items<Names>, AllocError>
    requires left_keys { All (λ e. IsExpr ex.now e.node) left_on.now }
    requires right_keys { All (λ e. IsExpr ex.now e.node) right_on.now }
    requires condition { All (λ e. IsExpr ex.now e.node) (list_of (condition_of options.now)) }
    requires origins { (a : Name) → origin_in origins.now a ≡ origin_of (all_named_at ex.now left_on.now) (all_named_at ex.now right_on.now) (told_at ex.now options.now) left.now right.now a }
    ensures { IfOk result (λ lists. lists ≡
        left_asked (all_named_at ex.now left_on.now) (all_named_at ex.now right_on.now) (told_at ex.now options.now) asked.now left.now right.now
        ∷ right_asked (all_named_at ex.now left_on.now) (all_named_at ex.now right_on.now) (told_at ex.now options.now) asked.now left.now right.now
        ∷ []) }
{
    let needed = needed_names(alloc, options, asked, ex)?;
    let needed = needed.as_slice();
    let mut lists = Items::new(alloc);
    lists.push(side_names(alloc, Side::Left, left_on, origins, left, needed, ex)?)?;
    lists.push(side_names(alloc, Side::Right, right_on, origins, right, needed, ex)?)?;
    Ok(lists)
}

/// What a join that is asked nothing asks of its left side, and what of its right side: nothing, but of the right side what the keys
/// read where it puts out no columns of that side. Refuses for want of memory alone.
pub fn asks_unasked(
    alloc: Global,
    right_on: &[ExprIR],
    how: JoinType,
    ex: &Arena<AExpr>,
) -> Result<Items<Names>, AllocError>
    requires { All (λ e. IsExpr ex.now e.node) right_on.now }
    ensures { IfOk result (λ lists. lists ≡ [] ∷ unasked_right (has_right how) (all_named_at ex.now right_on.now) ∷ []) }
{
    let mut lists = Items::new(alloc);
    lists.push(Names::new(alloc))?;
    if matches!(how, JoinType::Semi | JoinType::Anti) {
        lists.push(key_names(alloc, right_on, ex)?)?;
    } else {
        lists.push(Names::new(alloc))?;
    }
    Ok(lists)
}
