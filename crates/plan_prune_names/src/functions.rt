//! What functions change of the columns below them.
ghost use Rattle.std.specs.Prelude.{◌≡◌, Option, ℕ, IfOk, IsTrue, OnOk};
ghost use Rattle.std.specs.List.{list_all};
ghost use Rattle.plan_core.specs.Columns.{Columns};
ghost use Rattle.plan_ir.specs.declared.functions.FunctionIR.TheVariants.{Explode, RowIndex};
ghost use Rattle.plan_expr.specs.Leaves.{Name};
ghost use Rattle.plan_meaning.specs.Typing.{is_list_type};
ghost use Rattle.plan_schema.specs.Stored.{given_by};
ghost use Rattle.plan_prune_names.specs.ByName.{item_in, with_items};
ghost use Rattle.plan_prune_names.specs.Known.{IsMade, IsOver, type_in};

use crate::known_columns::KnownColumns;
use crate::moved::rename;
use crate::replaced::replace;
use plan_core::{DataType, Node, PlSmallStr};
use plan_ir::FunctionIR;
use std::alloc::{AllocError, Global};

/// Puts the number of the rows before the columns. Says whether that can be; if not, nothing is known of the columns. Refuses for
/// want of memory alone.
fn number(alloc: Global, name: &PlSmallStr, columns: &mut KnownColumns) -> Result<bool, AllocError>
    ensures over { OnOk result (IsOver columns.old columns.new) }
    ensures made { IfOk result (λ fits. IsTrue fits → (offset : Option ℕ) → IsMade (RowIndex name.now offset) columns.old columns.new) }
{
    let taken = columns.set(alloc, name.as_str(), Some(DataType::Int64))?;
    Ok(taken.is_none())
}

/// Whether a column is there, and has lists.
fn has_lists(name: &str, columns: &KnownColumns) -> bool
    ensures { result ≡ is_list_type (type_in columns.now name.now) }
{
    match columns.get(name) {
        None => false,
        Some(dtype) => dtype.plain_type().is_none(),
    }
}

/// Whether all these columns are there, and have lists.
fn all_have_lists(names: &[PlSmallStr], columns: &KnownColumns) -> bool
    ensures { result ≡ list_all (λ a. is_list_type (type_in columns.now a)) names.now }
{
    names.iter().all(|name| has_lists(name.as_str(), columns))
}

/// The type of the values in a column's lists, the column's own where it has no lists; none where it isn't there.
fn item_type(dtype: Option<DataType>) -> Option<DataType>
    ensures { result ≡ item_in dtype }
{
    match dtype {
        Some(DataType::List(plain)) => Some(DataType::from(plain)),
        other => other,
    }
}

/// Takes lists apart. Refuses for want of memory alone.
fn take_apart(
    alloc: Global,
    names: &[PlSmallStr],
    columns: &mut KnownColumns,
) -> Result<(), AllocError>
    ensures over { OnOk result (IsOver columns.old columns.new) }
    ensures types { OnOk result ((a : Name) → type_in columns.new a ≡ with_items names.now (type_in columns.old) a) }
{
    for name in names {
        let dtype = item_type(columns.get(name.as_str()));
        columns.set(alloc, name.as_str(), dtype)?;
    }
    Ok(())
}

/// Takes the lists of these columns apart. Says whether that can be; if not, the columns stay. Refuses for want of memory alone.
fn explode(
    alloc: Global,
    names: &[PlSmallStr],
    columns: &mut KnownColumns,
) -> Result<bool, AllocError>
    ensures over { OnOk result (IsOver columns.old columns.new) }
    ensures made { IfOk result (λ fits. IsTrue fits → IsMade (Explode names.now) columns.old columns.new) }
{
    if !all_have_lists(names, columns) {
        return Ok(false);
    }
    take_apart(alloc, names, columns)?;
    Ok(true)
}

/// Changes the columns as a function does. Says whether it does; if not, nothing is known of the columns. Refuses for want of memory
/// alone.
pub fn change(
    alloc: Global,
    node: Node,
    function: &FunctionIR,
    columns: &mut KnownColumns,
) -> Result<bool, AllocError>
    ensures over { OnOk result (IsOver columns.old columns.new) }
    ensures made { IfOk result (λ fits. IsTrue fits → IsMade function.now columns.old columns.new) }
{
    match function {
        FunctionIR::RowIndex { name, .. } => number(alloc, name, columns),
        FunctionIR::Explode { columns: names } => explode(alloc, names.as_slice(), columns),
        FunctionIR::Rename { existing, new, .. } => {
            rename(alloc, existing.as_slice(), new.as_slice(), columns)
        }
        _ => replace(alloc, node, function, columns),
    }
}
