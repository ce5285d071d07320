//! The columns of an unpivot, and how they are named.
ghost use Rattle.std.specs.Prelude.{◌≡◌, IfOk, unwrap_or};
ghost use Rattle.plan_core.specs.Columns.{names_of};
ghost use Rattle.plan_meaning.specs.Functions.{value_name as value_called, value_names as values_named, variable_name as variable_called};

use crate::names::set_of;
use plan_core::{Items, PlSmallStr, Schema, TryClone};
use plan_ir::UnpivotArgsIR;
use std::alloc::{AllocError, Global};

/// A name, or the other where it is absent. Refuses for want of memory alone.
pub fn name_or(
    alloc: Global,
    name: &Option<PlSmallStr>,
    other: &str,
) -> Result<PlSmallStr, AllocError>
    ensures { IfOk result (λ a. a ≡ unwrap_or name.now other.now) }
{
    match name {
        Some(name) => name.try_clone(alloc),
        None => PlSmallStr::new(alloc, other),
    }
}

/// The name of the column with the names of an unpivot's value columns. Refuses for want of memory alone.
pub fn variable_name(alloc: Global, args: &UnpivotArgsIR) -> Result<PlSmallStr, AllocError>
    ensures { IfOk result (λ a. a ≡ variable_called args.now) }
{
    name_or(alloc, &args.variable_name, "variable")
}

/// The name of the column with their values. Refuses for want of memory alone.
pub fn value_name(alloc: Global, args: &UnpivotArgsIR) -> Result<PlSmallStr, AllocError>
    ensures { IfOk result (λ a. a ≡ value_called args.now) }
{
    name_or(alloc, &args.value_name, "value")
}

/// The columns of an input that an unpivot makes one of, in order: those that are told, else all that it doesn't repeat. Refuses
/// for want of memory alone.
pub fn value_names(
    alloc: Global,
    args: &UnpivotArgsIR,
    schema: &Schema,
) -> Result<Items<PlSmallStr>, AllocError>
    ensures { IfOk result (λ names. names ≡ values_named args.now (names_of schema.now)) }
{
    if args.on.len() != 0 {
        return args.on.try_clone(alloc);
    }
    let index = set_of(alloc, args.index.as_slice())?;
    let mut names = Items::new(alloc);
    for (name, _) in schema.iter() {
        if !index.contains(name) {
            names.push(PlSmallStr::new(alloc, name)?)?;
        }
    }
    Ok(names)
}
