//! The names that functions need of their input.
ghost use Rattle.std.specs.Prelude.{◌≡◌, IfOk, filter as filter_list};
ghost use Rattle.std.specs.List.{filter_map};
ghost use Rattle.plan_core.specs.Columns.{names_of};
ghost use Rattle.plan_core.specs.Names.{has};
ghost use Rattle.plan_meaning.specs.Asked.{function_names, unpivot_names as names_unpivoted};
ghost use Rattle.plan_meaning.specs.Functions.{former, renamed};

use crate::names::{add_listed, copied_names};
use plan_core::{Names, PlSmallStr, Schema};
use plan_ir::{FunctionIR, UnpivotArgsIR};
use plan_schema::Renaming;
use std::alloc::{AllocError, Global};

/// The names that are columns, in their order. Refuses for want of memory alone.
pub fn known_names(alloc: Global, names: &Names, columns: &Schema) -> Result<Names, AllocError>
    ensures { IfOk result (λ known. known ≡ filter_list (has (names_of columns.now)) names.now) }
{
    let mut known = Names::new(alloc);
    for i in 0..names.len() {
        if let Some(name) = names.get_at_index(i) {
            if columns.get(name).is_some() {
                let _ = known.add(name)?;
            }
        }
    }
    Ok(known)
}

/// The names of columns that become the names by a renaming, in the order of these.
fn former_names(
    alloc: Global,
    existing: &[PlSmallStr],
    new: &[PlSmallStr],
    names: &Names,
    columns: &Schema,
) -> Result<Names, AllocError>
    ensures { IfOk result (λ formers. formers ≡ filter_map (former (renamed existing.now new.now) (names_of columns.now)) names.now) }
{
    let back = Renaming::new(alloc, existing, new)?.back(alloc, columns)?;
    let mut formers = Names::new(alloc);
    for i in 0..names.len() {
        if let Some(name) = names.get_at_index(i) {
            if let Some(former) = back.get(name) {
                let _ = formers.add(former)?;
            }
        }
    }
    Ok(formers)
}

/// The names that an unpivot needs: those of the columns that it repeats, and then those of its value columns, each once; none where it
/// tells no value columns.
fn unpivot_names(alloc: Global, args: &UnpivotArgsIR) -> Result<Names, AllocError>
    ensures { IfOk result (λ names. names ≡ names_unpivoted args.now) }
{
    let mut names = Names::new(alloc);
    if args.on.len() == 0 {
        return Ok(names);
    }
    add_listed(&mut names, args.index.as_slice())?;
    add_listed(&mut names, args.on.as_slice())?;
    Ok(names)
}

/// The names that a function of which these are asked needs of its input, which has these columns: a renaming those that become
/// the asked names, a numbering of the rows the asked names that are columns, in the order of the asked names; an unpivot what it names, where it
/// tells value columns; an explode the asked names, and then its columns; a count of the rows of files none. Refuses for want of memory alone.
pub fn needed_names(
    alloc: Global,
    function: &FunctionIR,
    asked: &Names,
    columns: &Schema,
) -> Result<Names, AllocError>
    ensures { IfOk result (λ names. names ≡ function_names function.now asked.now columns.now) }
{
    match function {
        FunctionIR::Rename { existing, new, .. } => {
            former_names(alloc, existing.as_slice(), new.as_slice(), asked, columns)
        }
        FunctionIR::RowIndex { .. } => known_names(alloc, asked, columns),
        FunctionIR::Unpivot { args } => unpivot_names(alloc, args),
        FunctionIR::FastCount { .. } => Ok(Names::new(alloc)),
        FunctionIR::Explode { columns } => {
            let mut names = copied_names(alloc, asked)?;
            add_listed(&mut names, columns.as_slice())?;
            Ok(names)
        }
    }
}
