//! What functions that give columns of their own make of the columns below them.
ghost use Rattle.std.specs.Prelude.{◌≡◌, IfOk, IsTrue, None, OnOk, true};
ghost use Rattle.plan_core.specs.Columns.{Columns, type_of};
ghost use Rattle.plan_core.specs.Names.{has};
ghost use Rattle.plan_expr.specs.Leaves.{Name};
ghost use Rattle.plan_schema.specs.Stored.{given_by, wants_memory};
ghost use Rattle.plan_prune_names.specs.Known.{IsMade, IsOver, Shows, type_in};

use crate::known_columns::KnownColumns;
use plan_core::{DataType, Node, PlSmallStr, PolarsError, Schema};
use plan_ir::FunctionIR;
use plan_schema::function_schema;
use std::alloc::{AllocError, Global};

/// Whether a fault is want of memory.
fn is_memory(fault: &PolarsError) -> bool
    ensures { result ≡ wants_memory fault.now }
{
    matches!(fault, PolarsError::OutOfMemory)
}

/// The columns that a function gives over some; none where a check on it fails. Refuses for want of memory alone.
fn given(
    alloc: Global,
    node: Node,
    function: &FunctionIR,
    columns: &Schema,
) -> Result<Schema, AllocError>
    ensures { IfOk result (λ schema. schema ≡ given_by function.now columns.now) }
{
    match function_schema(alloc, node, function, columns) {
        Ok(schema) => Ok(schema),
        Err(fault) if is_memory(&fault) => Err(AllocError),
        Err(_) => Ok(Schema::new(alloc)),
    }
}

/// Adds the columns of these names. Says whether all are there; if not, nothing is known of what was added. Refuses for want of memory
/// alone.
fn add_named(
    alloc: Global,
    names: &[PlSmallStr],
    columns: &KnownColumns,
    part: &mut Schema,
) -> Result<bool, AllocError>
    ensures named { IfOk result (λ all. IsTrue all → (a : Name) → has names.now a ≡ true → type_of part.new a ≡ type_in columns.now a) }
    ensures stays { IfOk result (λ all. IsTrue all → (a : Name) → type_of part.old a ≡ type_in columns.now a → type_of part.new a ≡ type_in columns.now a) }
{
    for name in names {
        let Some(dtype) = columns.get(name.as_str()) else {
            return Ok(false);
        };
        let _ = part.with_column(PlSmallStr::new(alloc, name.as_str())?, dtype)?;
    }
    Ok(true)
}

/// Adds the columns that a function with columns of its own reads. Says whether these tell what it gives; if not, nothing is known of
/// what was added. Refuses for want of memory alone.
fn add_read(
    alloc: Global,
    function: &FunctionIR,
    columns: &KnownColumns,
    part: &mut Schema,
) -> Result<bool, AllocError>
    ensures { IfOk result (λ told. IsTrue told → (s : Columns) → Shows columns.now s → given_by function.now part.new ≡ given_by function.now s) }
{
    match function {
        FunctionIR::Unpivot { args } => {
            if args.on.len() == 0 {
                return Ok(false);
            }
            let is_told = add_named(alloc, args.on.as_slice(), columns, part)?;
            let is_repeated = add_named(alloc, args.index.as_slice(), columns, part)?;
            Ok(is_told && is_repeated)
        }
        FunctionIR::FastCount { .. } => Ok(true),
        _ => Ok(false),
    }
}

/// Gives columns where there are none. Refuses for want of memory alone.
fn put_all(alloc: Global, made: &Schema, columns: &mut KnownColumns) -> Result<(), AllocError>
    requires { (a : Name) → type_in columns.old a ≡ None }
    ensures over { OnOk result (IsOver columns.old columns.new) }
    ensures shows { OnOk result (Shows columns.new made.now) }
{
    for i in 0..made.len() {
        if let Some((name, dtype)) = made.get_at_index(i) {
            columns.set(alloc, name, Some(*dtype))?;
        }
    }
    Ok(())
}

/// Changes the columns as a function does that gives columns of its own. Says whether it does; if not, the columns stay. Refuses for
/// want of memory alone.
pub fn replace(
    alloc: Global,
    node: Node,
    function: &FunctionIR,
    columns: &mut KnownColumns,
) -> Result<bool, AllocError>
    ensures over { OnOk result (IsOver columns.old columns.new) }
    ensures made { IfOk result (λ fits. IsTrue fits → IsMade function.now columns.old columns.new) }
{
    let mut part = Schema::new(alloc);
    if !add_read(alloc, function, columns, &mut part)? {
        return Ok(false);
    }
    let made = given(alloc, node, function, &part)?;
    if made.len() == 0 {
        return Ok(false);
    }
    columns.clear(alloc)?;
    put_all(alloc, &made, columns)?;
    Ok(true)
}
