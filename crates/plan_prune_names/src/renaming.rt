//! What a renaming asks its input.
ghost use Rattle.std.specs.Prelude.{◌≡◌, List, [], ◌∷◌, IfNone, IfOk, IfSome, IsFalse, IsTrue, None, OnOk, Some, false, length};
ghost use Rattle.std.specs.List.{filter_map};
ghost use Rattle.plan_core.specs.Columns.{Columns, names_of};
ghost use Rattle.plan_core.specs.Names.{AreDistinct, has};
ghost use Rattle.plan_tree.specs.Stands.{Trees, StandsOnce};
ghost use Rattle.plan_expr.specs.declared.aexpr.AExpr.{AExpr};
ghost use Rattle.plan_ir.specs.Parts.{plan_shape};
ghost use Rattle.plan_meaning.specs.Asked.{function_names};
ghost use Rattle.plan_meaning.specs.Functions.{former, renamed};
ghost use Rattle.plan_prune_names.specs.Known.{KnowsAt, Shows, type_in};
ghost use Rattle.plan_prune_parts.specs.Said.{columns_at};
ghost use Rattle.plan_prune_names.specs.Renaming.{AreFree, old_in, own_at, own_in};

use crate::known_columns::KnownColumns;
use crate::places::Places;
use crate::walk::know;
use plan_core::{Arena, Names, Node, PlSmallStr};
use plan_ir::{FunctionIR, IR};
use plan_pruned::needed_names;
use plan_schema::{set_of, stored_schema};
use std::alloc::{AllocError, Global};

/// The name, if a column has it.
fn own<'a>(name: &'a str, columns: &KnownColumns) -> Option<&'a str>
    ensures some { IfSome result (λ a. own_in (type_in columns.now) name.now ≡ Some a.now) }
    ensures none { IfNone result (own_in (type_in columns.now) name.now ≡ None) }
{
    if columns.get(name).is_some() {
        return Some(name);
    }
    None
}

/// The column that moves to a name, if one does: the one whose old name stands at the place of this new one.
fn moved_from<'a>(
    name: &str,
    existing: &'a [PlSmallStr],
    new: &Places,
    columns: &KnownColumns,
) -> Option<&'a str>
    requires { length existing.now ≡ length new.now }
    ensures some { IfSome result (λ a. own_at existing.now new.now (type_in columns.now) name.now ≡ Some a.now) }
    ensures none { IfNone result (own_at existing.now new.now (type_in columns.now) name.now ≡ None) }
{
    match new.get(name) {
        None => None,
        Some(place) => own(existing[place].as_str(), columns),
    }
}

/// The column that has this name once columns have moved from some names to others.
fn old_name<'a>(
    name: &'a str,
    existing: &'a [PlSmallStr],
    old: &Places,
    new: &Places,
    columns: &KnownColumns,
) -> Option<&'a str>
    requires same { length existing.now ≡ length new.now }
    requires old { old.now ≡ existing.now }
    ensures some { IfSome result (λ a. old_in existing.now new.now (type_in columns.now) name.now ≡ Some a.now) }
    ensures none { IfNone result (old_in existing.now new.now (type_in columns.now) name.now ≡ None) }
{
    if let Some(before) = moved_from(name, existing, new, columns) {
        return Some(before);
    }
    if old.get(name).is_some() {
        return None;
    }
    own(name, columns)
}

/// The columns that have these names once columns have moved from distinct names to distinct names. Refuses for want of memory alone.
fn old_names(
    alloc: Global,
    asked: &Names,
    existing: &[PlSmallStr],
    old: &Places,
    new: &Places,
    columns: &KnownColumns,
) -> Result<Names, AllocError>
    requires same { length existing.now ≡ length new.now }
    requires old { old.now ≡ existing.now }
    requires distinct { AreDistinct existing.now × AreDistinct new.now }
    requires free { AreFree existing.now new.now (type_in columns.now) }
    ensures { IfOk result (λ names. (s : Columns) → Shows columns.now s → names ≡ filter_map (former (renamed existing.now new.now) (names_of s)) asked.now) }
{
    let mut names = Names::new(alloc);
    for i in 0..asked.len() {
        if let Some(name) = asked.get_at_index(i) {
            if let Some(before) = old_name(name, existing, old, new, columns) {
                let _ = names.add(before)?;
            }
        }
    }
    Ok(names)
}

/// Whether a column may get a name: none has it that stays.
fn is_free(name: &str, old: &Places, columns: &KnownColumns) -> bool
    ensures free { IsTrue result → has old.now name.now ≡ false → type_in columns.now name.now ≡ None }
    ensures taken { IsFalse result → has old.now name.now ≡ false }
{
    columns.get(name).is_none() || old.get(name).is_some()
}

/// Whether no column that stays has a name that another one gets.
fn are_free(
    existing: &[PlSmallStr],
    new: &[PlSmallStr],
    old: &Places,
    columns: &KnownColumns,
) -> bool
    requires same { length existing.now ≡ length new.now }
    requires old { old.now ≡ existing.now }
    requires distinct { AreDistinct new.now }
    ensures { IsTrue result → AreFree existing.now new.now (type_in columns.now) }
{
    for i in 0..existing.len() {
        if columns.get(existing[i].as_str()).is_some() && !is_free(new[i].as_str(), old, columns) {
            return false;
        }
    }
    true
}

/// The places of the names of a list, if none comes twice. Refuses for want of memory alone.
fn distinct_places(alloc: Global, names: &[PlSmallStr]) -> Result<Option<Places>, AllocError>
    ensures { IfOk result (λ made. IfSome made (λ places. (places ≡ names.now) × AreDistinct names.now)) }
{
    let set = set_of(alloc, names)?;
    if set.len() != names.len() {
        return Ok(None);
    }
    Ok(Some(Places::of(alloc, &set)?))
}

/// What a renaming whose places are known asks for these names over some columns, if no column that stays has a name that another one
/// gets. Refuses for want of memory alone.
fn asked_of(
    alloc: Global,
    asked: &Names,
    existing: &[PlSmallStr],
    new: &[PlSmallStr],
    old: &Places,
    moved: &Places,
    columns: &KnownColumns,
) -> Result<Option<Names>, AllocError>
    requires same { length existing.now ≡ length new.now }
    requires old { (old.now ≡ existing.now) × AreDistinct existing.now }
    requires moved { (moved.now ≡ new.now) × AreDistinct new.now }
    ensures { IfOk result (λ made. IfSome made (λ names. (s : Columns) → Shows columns.now s → names ≡ filter_map (former (renamed existing.now new.now) (names_of s)) asked.now)) }
{
    if !are_free(existing, new, old, columns) {
        return Ok(None);
    }
    Ok(Some(old_names(alloc, asked, existing, old, moved, columns)?))
}

/// What a renaming asks for these names over some columns, where it moves columns from distinct names to distinct names that no column
/// which stays has. Refuses for want of memory alone.
fn told_by_places(
    alloc: Global,
    asked: &Names,
    existing: &[PlSmallStr],
    new: &[PlSmallStr],
    columns: &KnownColumns,
) -> Result<Option<Names>, AllocError>
    ensures { IfOk result (λ made. IfSome made (λ names. (s : Columns) → Shows columns.now s → names ≡ filter_map (former (renamed existing.now new.now) (names_of s)) asked.now)) }
{
    if existing.len() != new.len() {
        return Ok(None);
    }
    let Some(old) = distinct_places(alloc, existing)? else {
        return Ok(None);
    };
    let Some(moved) = distinct_places(alloc, new)? else {
        return Ok(None);
    };
    asked_of(alloc, asked, existing, new, &old, &moved, columns)
}

/// What a function asks its input for these names, by all columns of the input. Refuses for want of memory alone.
fn needed_at(
    alloc: Global,
    asked: &Names,
    function: &FunctionIR,
    input: Node,
    lp: &Arena<IR>,
) -> Result<Names, AllocError>
    requires { (t : Trees IR) × StandsOnce plan_shape lp.now (input ∷ []) t }
    ensures { IfOk result (λ names. (ex : List AExpr) → names ≡ function_names function.now asked.now (columns_at lp.now ex input)) }
{
    let stored = stored_schema(alloc, input, lp)?;
    Ok(needed_names(alloc, function, asked, stored.columns())?)
}

/// What is told of a renaming, else what all columns of the input say. Refuses for want of memory alone.
fn told_or(
    alloc: Global,
    told: Option<Names>,
    asked: &Names,
    function: &FunctionIR,
    input: Node,
    lp: &Arena<IR>,
) -> Result<Names, AllocError>
    requires told { IfSome told (λ names. (ex : List AExpr) → names ≡ function_names function.now asked.now (columns_at lp.now ex input)) }
    requires input { (t : Trees IR) × StandsOnce plan_shape lp.now (input ∷ []) t }
    ensures { IfOk result (λ names. (ex : List AExpr) → names ≡ function_names function.now asked.now (columns_at lp.now ex input)) }
{
    match told {
        Some(names) => Ok(names),
        None => needed_at(alloc, asked, function, input, lp),
    }
}

/// What a renaming asks for these names over some columns, where that is told name by name. Refuses for want of memory alone.
fn told_by_names(
    alloc: Global,
    asked: &Names,
    function: &FunctionIR,
    columns: &KnownColumns,
) -> Result<Option<Names>, AllocError>
    ensures { IfOk result (λ told. IfSome told (λ names. (s : Columns) → Shows columns.now s → names ≡ function_names function.now asked.now s)) }
{
    match function {
        FunctionIR::Rename { existing, new, .. } => {
            told_by_places(alloc, asked, existing.as_slice(), new.as_slice(), columns)
        }
        _ => Ok(None),
    }
}

/// What a renaming asks the plan at a number for these names: the columns that get them, in the order of the names, by what is known
/// of its columns. Refuses for want of memory alone.
pub fn renamed_names(
    alloc: Global,
    asked: &Names,
    function: &FunctionIR,
    input: Node,
    lp: &Arena<IR>,
    columns: &mut KnownColumns,
) -> Result<Names, AllocError>
    requires stands { (t : Trees IR) × StandsOnce plan_shape lp.now (input ∷ []) t }
    requires known { KnowsAt columns.old lp.now (input ∷ []) }
    ensures names { IfOk result (λ names. (ex : List AExpr) → names ≡ function_names function.now asked.now (columns_at lp.now ex input)) }
    ensures known { OnOk result (KnowsAt columns.new lp.now (input ∷ [])) }
{
    know(alloc, input, lp, columns)?;
    let told = told_by_names(alloc, asked, function, columns)?;
    told_or(alloc, told, asked, function, input, lp)
}
