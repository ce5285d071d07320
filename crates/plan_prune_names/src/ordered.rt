//! The names of the columns of a plan, in their order.
ghost use Rattle.std.specs.Prelude.{◌≡◌, List, [], ◌∷◌, IfOk, IsTrue, map};
ghost use Rattle.plan_core.specs.Columns.{Columns, names_of};
ghost use Rattle.plan_tree.specs.Stands.{Trees, StandsOnce};
ghost use Rattle.plan_expr.specs.declared.aexpr.AExpr.{AExpr};
ghost use Rattle.plan_ir.specs.declared.ir.IR.{IR as IRType};
ghost use Rattle.plan_ir.specs.Parts.{plan_shape};
ghost use Rattle.plan_meaning.specs.Functions.{count_name as named_by, function_schema, renamed as renamed_by, unpivoted_names};
ghost use Rattle.plan_prune_parts.specs.Said.{columns_at};
ghost use Rattle.plan_prune_names.specs.ByName.{keeps_columns as keeps};
ghost use Rattle.plan_prune_names.specs.Known.{Hold};

use crate::walk::input_shown;
use plan_core::{Arena, Items, Node, PlSmallStr, Schema, TryClone};
use plan_ir::{FunctionIR, IR, UnpivotArgsIR};
use plan_schema::{Renaming, count_name, stored_schema, value_name, variable_name};
use std::alloc::{AllocError, Global};

/// A name before others. Refuses for want of memory alone.
fn with_first(
    alloc: Global,
    name: &PlSmallStr,
    names: &[PlSmallStr],
) -> Result<Items<PlSmallStr>, AllocError>
    ensures { IfOk result (λ more. more ≡ name.now ∷ names.now) }
{
    let mut more = Items::new(alloc);
    more.push(name.try_clone(alloc)?)?;
    for other in names {
        more.push(other.try_clone(alloc)?)?;
    }
    Ok(more)
}

/// What names become once columns have other names. Refuses for want of memory alone.
fn renamed(
    alloc: Global,
    existing: &[PlSmallStr],
    new: &[PlSmallStr],
    names: &[PlSmallStr],
) -> Result<Items<PlSmallStr>, AllocError>
    ensures { IfOk result (λ now. now ≡ map (renamed_by existing.now new.now) names.now) }
{
    let renaming = Renaming::new(alloc, existing, new)?;
    let mut now = Items::new(alloc);
    for name in names {
        now.push(PlSmallStr::new(alloc, renaming.now(name.as_str()))?)?;
    }
    Ok(now)
}

/// The names of the columns of an unpivot. Refuses for want of memory alone.
fn unpivoted(alloc: Global, args: &UnpivotArgsIR) -> Result<Items<PlSmallStr>, AllocError>
    ensures { IfOk result (λ names. names ≡ unpivoted_names args.now) }
{
    let mut names = args.index.try_clone(alloc)?;
    names.push(variable_name(alloc, args)?)?;
    names.push(value_name(alloc, args)?)?;
    Ok(names)
}

/// The only name of a count of rows. Refuses for want of memory alone.
fn counted(alloc: Global, alias: &Option<PlSmallStr>) -> Result<Items<PlSmallStr>, AllocError>
    ensures { IfOk result (λ names. names ≡ named_by alias.now ∷ []) }
{
    let mut names = Items::new(alloc);
    names.push(count_name(alloc, alias)?)?;
    Ok(names)
}

/// Whether a function keeps the columns of its input, in their order.
fn keeps_columns(function: &FunctionIR) -> bool
    ensures { result ≡ keeps function.now }
{
    matches!(
        function,
        FunctionIR::RowIndex { .. } | FunctionIR::Explode { .. } | FunctionIR::Rename { .. }
    )
}

/// The names of the columns that a function gives where no check on it fails, by those of its input, which it is told if it keeps them.
/// Refuses for want of memory alone.
fn given_names(
    alloc: Global,
    function: &FunctionIR,
    names: Items<PlSmallStr>,
) -> Result<Items<PlSmallStr>, AllocError>
    ensures { IfOk result (λ given. (s : Columns) → (IsTrue (keeps function.now) → names_of s ≡ names) → given ≡ names_of (function_schema function.now s)) }
{
    match function {
        FunctionIR::RowIndex { name, .. } => with_first(alloc, name, names.as_slice()),
        FunctionIR::Rename { existing, new, .. } => {
            renamed(alloc, existing.as_slice(), new.as_slice(), names.as_slice())
        }
        FunctionIR::Unpivot { args } => unpivoted(alloc, args),
        FunctionIR::Explode { .. } => Ok(names),
        FunctionIR::FastCount { alias, .. } => counted(alloc, alias),
    }
}

/// The names of columns. Refuses for want of memory alone.
fn stored_names(alloc: Global, columns: &Schema) -> Result<Items<PlSmallStr>, AllocError>
    ensures { IfOk result (λ names. names ≡ names_of columns.now) }
{
    let mut names = Items::new(alloc);
    for i in 0..columns.len() {
        if let Some((name, _)) = columns.get_at_index(i) {
            names.push(PlSmallStr::new(alloc, name)?)?;
        }
    }
    Ok(names)
}

/// The names of the columns that the plan at a number says it has, in order. It is told on how many functions at the top of the plan
/// no check fails. Refuses for want of memory alone.
pub fn names_at(
    alloc: Global,
    node: Node,
    lp: &Arena<IR>,
    count: usize,
) -> Result<Items<PlSmallStr>, AllocError>
    requires stands { (t : Trees IRType) × StandsOnce plan_shape lp.now (node ∷ []) t }
    requires hold { Hold lp.now node count }
    ensures { IfOk result (λ names. (ex : List AExpr) → names ≡ names_of (columns_at lp.now ex node)) }
{
    let entry = lp.get(node);
    if let Some(input) = input_shown(entry) {
        return names_at(alloc, input, lp, count);
    }
    if let IR::MapFunction { input, function } = entry {
        if count > 0 {
            let mut below = Items::new(alloc);
            if keeps_columns(function) {
                below = names_at(alloc, *input, lp, count - 1)?;
            }
            return given_names(alloc, function, below);
        }
    }
    let stored = stored_schema(alloc, node, lp)?;
    stored_names(alloc, stored.columns())
}
