//! The asked names that an input has, found from the columns of the input where these are fewer.
ghost use Rattle.std.specs.Prelude.{◌≡◌, ◌++◌, ℕ, List, [], ◌∷◌, Contains, IfOk, OnOk, Some, true, filter, is_some, slice_get};
ghost use Rattle.std.specs.List.Sorted.{IsPermutation, IsSorted};
ghost use Rattle.std.specs.Ordering.{nat_cmp};
ghost use Rattle.plan_core.specs.Columns.{names_of};
ghost use Rattle.plan_core.specs.Names.{AreDistinct};
ghost use Rattle.plan_tree.specs.Stands.{Trees, StandsOnce};
ghost use Rattle.plan_expr.specs.declared.aexpr.AExpr.{AExpr};
ghost use Rattle.plan_expr.specs.Leaves.{Name};
ghost use Rattle.plan_ir.specs.Parts.{plan_shape};
ghost use Rattle.plan_pruned.specs.Pruned.{held_names};
ghost use Rattle.plan_prune_names.specs.Known.{type_in};
ghost use Rattle.plan_prune_parts.specs.Said.{columns_at};
ghost use Rattle.plan_prune_names.specs.Places.{places_in};

use crate::known::known;
use crate::known_columns::KnownColumns;
use crate::places::Places;
use crate::walk::know;
use plan_core::{Arena, Names, Node};
use plan_ir::IR;
use std::alloc::{AllocError, Global};

/// Adds the place of a name, if it has one. Refuses for want of memory alone.
fn add_place(found: &mut Vec<usize>, places: &Places, name: &str) -> Result<(), AllocError>
    ensures { OnOk result (found.new.items ≡ found.old.items ++ places_in places.now (name.now ∷ [])) }
{
    if let Some(place) = places.get(name) {
        found.push(place)?;
    }
    Ok(())
}

/// Adds the places of the names of columns. Refuses for want of memory alone.
fn add_places(
    found: &mut Vec<usize>,
    places: &Places,
    columns: &KnownColumns,
) -> Result<(), AllocError>
    ensures { OnOk result (found.new.items ≡ found.old.items ++ places_in places.now (names_of columns.now.types)) }
{
    for i in 0..columns.len() {
        if let Some(name) = columns.name_at(i) {
            add_place(found, places, name)?;
        }
    }
    Ok(())
}

/// The places of the names of columns, rising. Refuses for want of memory alone.
fn places_of(
    alloc: Global,
    places: &Places,
    columns: &KnownColumns,
) -> Result<Vec<usize>, AllocError>
    ensures found { IfOk result (λ found. IsPermutation (places_in places.now (names_of columns.now.types)) found.items) }
    ensures rising { IfOk result (λ found. IsSorted nat_cmp found.items) }
{
    let mut found = Vec::new(alloc);
    add_places(&mut found, places, columns)?;
    found.sort_unstable();
    Ok(found)
}

/// The names that are columns, in their order; each of them stands at one of these places. Refuses for want of memory alone.
fn known_at_places(
    alloc: Global,
    names: &Names,
    found: &[usize],
    columns: &KnownColumns,
) -> Result<Names, AllocError>
    requires distinct { AreDistinct names.now }
    requires rising { IsSorted nat_cmp found.now }
    requires all { (j : ℕ) (a : Name) → slice_get names.now j ≡ Some a → is_some (type_in columns.now a) ≡ true → Contains found.now j }
    ensures { IfOk result (λ known. known ≡ filter (λ a. is_some (type_in columns.now a)) names.now) }
{
    let mut known = Names::new(alloc);
    for place in found {
        if let Some(name) = names.get_at_index(*place) {
            if columns.get(name).is_some() {
                let _ = known.add(name)?;
            }
        }
    }
    Ok(known)
}

/// The names that are columns, in their order, found from the columns. Refuses for want of memory alone.
fn known_by_columns(
    alloc: Global,
    names: &Names,
    places: &Places,
    columns: &KnownColumns,
) -> Result<Names, AllocError>
    requires distinct { AreDistinct names.now }
    requires places { places.now ≡ names.now }
    ensures { IfOk result (λ known. known ≡ filter (λ a. is_some (type_in columns.now a)) names.now) }
{
    let found = places_of(alloc, places, columns)?;
    known_at_places(alloc, names, found.as_slice(), columns)
}

/// The names that are columns, in their order: by the names, or by the columns where these are fewer. Refuses for want of memory alone.
fn known_by_fewer(
    alloc: Global,
    names: &Names,
    places: &Places,
    columns: &KnownColumns,
) -> Result<Names, AllocError>
    requires places { places.now ≡ names.now }
    ensures { IfOk result (λ known. known ≡ filter (λ a. is_some (type_in columns.now a)) names.now) }
{
    if names.len() <= columns.len() {
        return known(alloc, names, columns);
    }
    known_by_columns(alloc, names, places, columns)
}

/// The names that the plan at a number says it has, of those that are asked, in the asked order; asked nothing, none. It goes
/// over the asked names, or over the columns where these are fewer. Refuses for want of memory alone.
pub fn known_with(
    alloc: Global,
    asked: &Names,
    places: &Places,
    input: Node,
    lp: &Arena<IR>,
) -> Result<Names, AllocError>
    requires places { places.now ≡ asked.now }
    requires input { (t : Trees IR) × StandsOnce plan_shape lp.now (input ∷ []) t }
    ensures { IfOk result (λ names. (ex : List AExpr) → names ≡ held_names asked.now (columns_at lp.now ex input)) }
{
    if asked.len() == 0 {
        return Ok(Names::new(alloc));
    }
    let mut columns = KnownColumns::new(alloc);
    know(alloc, input, lp, &mut columns)?;
    Ok(known_by_fewer(alloc, asked, places, &columns)?)
}
