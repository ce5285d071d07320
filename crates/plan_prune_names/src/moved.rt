//! What renamings change of the columns below them.
ghost use Rattle.std.specs.Prelude.{◌≡◌, [], Bool, IfOk, IsFalse, IsTrue, None, OnOk, Some, length, map};
ghost use Rattle.plan_core.specs.Columns.{Columns};
ghost use Rattle.plan_core.specs.Names.{AreDistinct, with_names};
ghost use Rattle.plan_core.specs.declared.data_type.DataType.{DataType as Dtype};
ghost use Rattle.plan_expr.specs.Leaves.{Name};
ghost use Rattle.plan_ir.specs.declared.functions.FunctionIR.TheVariants.{Rename};
ghost use Rattle.plan_schema.specs.Stored.{given_by};
ghost use Rattle.plan_prune_names.specs.ByName.{at_name, left_of, put_on};
ghost use Rattle.plan_prune_names.specs.Known.{IsMade, IsOver, type_in};

use crate::known_columns::KnownColumns;
use plan_core::{DataType, PlSmallStr};
use plan_schema::set_of;
use std::alloc::{AllocError, Global};

/// Whether no name of a list comes twice. Refuses for want of memory alone.
pub fn are_distinct(alloc: Global, names: &[PlSmallStr]) -> Result<bool, AllocError>
    ensures distinct { IfOk result (λ distinct. IsTrue distinct → AreDistinct names.now × (with_names [] names.now ≡ names.now)) }
    ensures twice { IfOk result (λ distinct. IsFalse distinct → with_names [] names.now ≡ names.now → ⊥) }
{
    if names.len() < 2 {
        return Ok(true);
    }
    Ok(set_of(alloc, names)?.len() == names.len())
}

/// Takes columns away, and gives the types that they had, one for one. Refuses for want of memory alone.
fn take_out(
    alloc: Global,
    names: &[PlSmallStr],
    columns: &mut KnownColumns,
) -> Result<Vec<Option<DataType>>, AllocError>
    requires { AreDistinct names.now }
    ensures types { IfOk result (λ types. types.items ≡ map (type_in columns.old) names.now) }
    ensures over { OnOk result (IsOver columns.old columns.new) }
    ensures left { IfOk result (λ _. (a : Name) → type_in columns.new a ≡ left_of names.now (type_in columns.old) a) }
{
    let mut types = Vec::new(alloc);
    for name in names {
        types.push(columns.set(alloc, name.as_str(), None)?)?;
    }
    Ok(types)
}

/// Gives names types of their own, one for one, those that have one. Says whether no column has such a name; if not, nothing is known
/// of the columns. Refuses for want of memory alone.
fn put_in(
    alloc: Global,
    names: &[PlSmallStr],
    types: &[Option<DataType>],
    columns: &mut KnownColumns,
) -> Result<bool, AllocError>
    requires distinct { AreDistinct names.now }
    requires same { length types.now ≡ length names.now }
    ensures over { OnOk result (IsOver columns.old columns.new) }
    ensures put { IfOk result (λ fits. IsTrue fits → ((a : Name) → type_in columns.new a ≡ put_on names.now types.now (type_in columns.old) a) × ((a : Name) (d : Dtype) → at_name names.now types.now a ≡ Some (Some d) → type_in columns.old a ≡ None)) }
{
    for i in 0..names.len() {
        if let Some(dtype) = types[i] {
            let before = columns.set(alloc, names[i].as_str(), Some(dtype))?;
            if before.is_some() {
                return Ok(false);
            }
        }
    }
    Ok(true)
}

/// Moves columns from distinct names to distinct names. Says whether no other column has one of these; if not, nothing is known of the
/// columns. Refuses for want of memory alone.
fn move_all(
    alloc: Global,
    existing: &[PlSmallStr],
    new: &[PlSmallStr],
    columns: &mut KnownColumns,
) -> Result<bool, AllocError>
    requires old { AreDistinct existing.now × (with_names [] existing.now ≡ existing.now) }
    requires new { AreDistinct new.now × (with_names [] new.now ≡ new.now) }
    requires same { length existing.now ≡ length new.now }
    ensures over { OnOk result (IsOver columns.old columns.new) }
    ensures made { IfOk result (λ fits. IsTrue fits → (swapping : Bool) → IsMade (Rename existing.now new.now swapping) columns.old columns.new) }
{
    let types = take_out(alloc, existing, columns)?;
    put_in(alloc, new, types.as_slice(), columns)
}

/// Gives columns other names. Says whether it does: where there are as many new names as old ones, none comes twice, and no column that
/// stays has a name that another one gets. If not, nothing is known of the columns. Refuses for want of memory alone.
pub fn rename(
    alloc: Global,
    existing: &[PlSmallStr],
    new: &[PlSmallStr],
    columns: &mut KnownColumns,
) -> Result<bool, AllocError>
    ensures over { OnOk result (IsOver columns.old columns.new) }
    ensures made { IfOk result (λ fits. IsTrue fits → (swapping : Bool) → IsMade (Rename existing.now new.now swapping) columns.old columns.new) }
{
    if existing.len() != new.len()
        || !are_distinct(alloc, existing)?
        || !are_distinct(alloc, new)?
    {
        return Ok(false);
    }
    move_all(alloc, existing, new, columns)
}
