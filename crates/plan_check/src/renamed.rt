//! Columns that get other names in place: those that do are taken out, one after another, and put back in the opposite order, each
//! where it stood. So names can be swapped, and a column that isn't named is not touched.
ghost use Rattle.std.specs.Prelude.{◌≡◌, ◌≤◌, Bool, List, ℕ, [], ◌∷◌, length, IfOk, OnOk};
ghost use Rattle.plan_core.specs.Columns.{Columns, HasDistinctNames};
ghost use Rattle.plan_ir.specs.declared.functions.FunctionIR.TheVariants.{Rename};
ghost use Rattle.plan_frame.specs.Reshaped.{renamed_columns};
ghost use Rattle.plan_meaning.specs.Functions.{renamed};
ghost use Rattle.plan_check.specs.InPlace.{IsChanged};
ghost use Rattle.plan_check.specs.Renamed.{HavePlaces, MakeUp, all_free as are_all_free, can_rename, is_free as can_move, is_once as comes_once, put_back};

use plan_core::{DataType, Items, Names, PlSmallStr, Schema};
use plan_schema::set_of;
use std::alloc::{AllocError, Global};

/// A column that is taken out: the place where it stood, the name that it gets, and its type.
#[derive(Drop)]
struct TakenColumn {
    index: usize,
    name: PlSmallStr,
    dtype: DataType,
}

/// Whether an old name is no column, or the new name is one of the old ones, or no column.
fn is_free(old_names: &Names, old: &str, new: &str, columns: &Schema) -> bool
    ensures { result ≡ can_move old_names.now columns.now old.now new.now }
{
    columns.get(old).is_none() || old_names.contains(new) || columns.get(new).is_none()
}

/// Whether each old name is no column, or the new name at its place is one of the old ones, or no column.
fn all_free(
    old_names: &Names,
    existing: &[PlSmallStr],
    new: &[PlSmallStr],
    columns: &Schema,
) -> bool
    ensures { result ≡ are_all_free old_names.now columns.now existing.now new.now }
{
    for (old, name) in existing.iter().zip(new) {
        if !is_free(old_names, old.as_str(), name.as_str(), columns) {
            return false;
        }
    }
    true
}

/// Whether no name comes twice. Refuses for want of memory alone.
fn is_once(alloc: Global, names: &[PlSmallStr]) -> Result<bool, AllocError>
    ensures { IfOk result (λ once. once ≡ comes_once names.now) }
{
    if names.len() < 2 {
        return Ok(true);
    }
    Ok(set_of(alloc, names)?.len() == names.len())
}

/// Whether columns can get other names in place: there are as many new names as old ones, none comes twice, and a column gets a
/// name that is one of the old ones, or no column. Refuses for want of memory alone.
fn fits(
    alloc: Global,
    existing: &[PlSmallStr],
    new: &[PlSmallStr],
    columns: &Schema,
) -> Result<bool, AllocError>
    ensures { IfOk result (λ fits. fits ≡ can_rename existing.now new.now columns.now) }
{
    if existing.len() != new.len() {
        return Ok(false);
    }
    let old_names = set_of(alloc, existing)?;
    let once = old_names.len() == existing.len() && is_once(alloc, new)?;
    Ok(once && all_free(&old_names, existing, new, columns))
}

/// Takes a column out, if it is there, to be put back under another name. Refuses for want of memory alone, and then nothing is
/// known of the columns.
fn take_column(
    alloc: Global,
    old: &str,
    new: &str,
    taken: &mut Items<TakenColumn>,
    columns: &mut Schema,
) -> Result<(), AllocError>
    ensures { OnOk result ((old_names new_names : List (List ℕ)) (made : Columns) → MakeUp taken.old columns.old (renamed (old.now ∷ old_names) (new.now ∷ new_names)) made → MakeUp taken.new columns.new (renamed old_names new_names) made) }
{
    // The length is what says that no name comes twice.
    let _len = columns.len();
    let Some(index) = columns.index_of(old) else {
        return Ok(());
    };
    let name = PlSmallStr::new(alloc, new)?;
    let Some(dtype) = columns.shift_remove(old) else {
        unreachable!();
    };
    taken.push(TakenColumn { index, name, dtype })?;
    Ok(())
}

/// Takes out the columns that get other names, in the order of the old names. Refuses for want of memory alone, and then nothing is
/// known of the columns.
fn take_columns(
    alloc: Global,
    existing: &[PlSmallStr],
    new: &[PlSmallStr],
    columns: &mut Schema,
) -> Result<Items<TakenColumn>, AllocError>
    ensures places { IfOk result (λ taken. HavePlaces taken (length columns.new)) }
    ensures made { IfOk result (λ taken. put_back taken columns.new ≡ renamed_columns (renamed existing.now new.now) columns.old) }
{
    let mut taken = Items::new(alloc);
    for (old, name) in existing.iter().zip(new) {
        take_column(alloc, old.as_str(), name.as_str(), &mut taken, columns)?;
    }
    Ok(taken)
}

/// Puts columns back that were taken out, the last one first. Refuses for want of memory alone, and then nothing is known of the
/// columns.
fn put_columns(taken: Items<TakenColumn>, columns: &mut Schema) -> Result<(), AllocError>
    requires places { HavePlaces taken (length columns.old) }
    requires distinct { HasDistinctNames (put_back taken columns.old) }
    ensures { OnOk result (columns.new ≡ put_back taken columns.old) }
{
    let mut taken = taken;
    while let Some(column) = taken.pop() {
        columns.insert_at_index(column.index, column.name, column.dtype)?;
    }
    Ok(())
}

/// More old names than these are faster to rename by a schema made anew, since each column that is taken out moves those behind it.
const FEW: usize = 64;

/// Gives columns other names. Says whether it does: where there are few old names, as many new ones, none comes twice on either side, and
/// a column gets a name that is one of the old ones, or no column. If not, the columns stay. Refuses for want of memory alone, and then
/// nothing is known of the columns.
pub fn rename(
    alloc: Global,
    existing: &[PlSmallStr],
    new: &[PlSmallStr],
    columns: &mut Schema,
) -> Result<bool, AllocError>
    ensures changed { IfOk result (λ fits. (swapping : Bool) → IsChanged fits (Rename existing.now new.now swapping) columns.old columns.new) }
    ensures few { IfOk result (λ fits. length existing.now ≤ 64 → fits ≡ can_rename existing.now new.now columns.old) }
{
    if existing.len() > FEW {
        return Ok(false);
    }
    if !fits(alloc, existing, new, columns)? {
        return Ok(false);
    }
    // The length is what says that no name comes twice.
    let _len = columns.len();
    let taken = take_columns(alloc, existing, new, columns)?;
    put_columns(taken, columns)?;
    Ok(true)
}
