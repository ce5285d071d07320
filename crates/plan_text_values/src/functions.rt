//! The objects of functions of whole frames, as JSON values.
ghost use Rattle.std.specs.Prelude.{◌≡◌, IfOk};
ghost use Rattle.serde_json.specs.View.{view};
ghost use Rattle.plan_text_pieces.specs.Values.{nullable_data, number_data};
ghost use Rattle.plan_text_pieces.specs.Functions.{count_data, explode_data, frame_function_data, numbering_data, rename_data, told_data, unpivot_data};

use crate::members::{only, put_names, put_optional_name, put_text};
use crate::scan_sources::sources;
use crate::values::names;
use plan_core::PlSmallStr;
use plan_ir::{FunctionIR, UnpivotArgsIR};
use plan_scan::{FileScan, ScanSources};
use plan_text_pieces::{done, frame_function_name};
use serde_json::{Map, Value, put};
use std::alloc::{AllocError, Global};

/// The object of a renaming.
#[tactic(auto, unfolding(plan_text_pieces::specs::Functions::rename_data))]
fn rename(
    alloc: Global,
    existing: &[PlSmallStr],
    new: &[PlSmallStr],
    swapping: bool,
) -> Result<Value, AllocError>
    ensures { IfOk result (λ v. view v ≡ rename_data existing.now new.now swapping) }
{
    let mut map = Map::new(alloc);
    done!(put_names(&mut map, alloc, "existing", existing));
    done!(put_names(&mut map, alloc, "new", new));
    done!(put(&mut map, alloc, "swapping", Value::Bool(swapping)));
    Ok(Value::Object(map))
}

/// A number, or null.
fn optional_number(given: Option<u32>) -> Value
    ensures { view result ≡ nullable_data number_data given }
{
    match given {
        None => Value::Null,
        Some(number) => Value::from(number),
    }
}

/// The object of a numbering of rows.
#[tactic(auto, unfolding(plan_text_pieces::specs::Functions::numbering_data))]
fn numbering(alloc: Global, name: &str, offset: Option<u32>) -> Result<Value, AllocError>
    ensures { IfOk result (λ v. view v ≡ numbering_data name.now offset) }
{
    let mut map = Map::new(alloc);
    done!(put_text(&mut map, alloc, "name", name));
    done!(put(&mut map, alloc, "offset", optional_number(offset)));
    Ok(Value::Object(map))
}

/// The object of an unpivot.
#[tactic(auto, unfolding(plan_text_pieces::specs::Functions::unpivot_data))]
fn unpivot(alloc: Global, args: &UnpivotArgsIR) -> Result<Value, AllocError>
    ensures { IfOk result (λ v. view v ≡ unpivot_data args.now) }
{
    let mut map = Map::new(alloc);
    done!(put_names(&mut map, alloc, "index", args.index.as_slice()));
    done!(put_names(&mut map, alloc, "on", args.on.as_slice()));
    done!(put_optional_name(&mut map, alloc, "value_name", &args.value_name));
    done!(put_optional_name(&mut map, alloc, "variable_name", &args.variable_name));
    Ok(Value::Object(map))
}

/// The object of an explode.
#[tactic(auto, unfolding(plan_text_pieces::specs::Functions::explode_data))]
fn explode(alloc: Global, columns: &[PlSmallStr]) -> Result<Value, AllocError>
    ensures { IfOk result (λ v. view v ≡ explode_data columns.now) }
{
    let columns = done!(names(alloc, columns));
    only(alloc, "columns", columns)
}

/// The object of a count of the rows of files.
#[tactic(auto, unfolding(plan_text_pieces::specs::Functions::count_data))]
fn count(
    alloc: Global,
    from: &ScanSources,
    format: &FileScan,
    alias: &Option<PlSmallStr>,
) -> Result<Value, AllocError>
    ensures { IfOk result (λ v. view v ≡ count_data from.now format.now alias.now) }
{
    let sources = done!(sources(alloc, from));
    let mut map = Map::new(alloc);
    done!(put(&mut map, alloc, "sources", sources));
    done!(put_optional_name(&mut map, alloc, "alias", alias));
    done!(put_text(&mut map, alloc, "kind", format.name()));
    Ok(Value::Object(map))
}

/// The object of what a function is told.
fn told(alloc: Global, function: &FunctionIR) -> Result<Value, AllocError>
    ensures { IfOk result (λ v. view v ≡ told_data function.now) }
{
    match function {
        FunctionIR::Rename {
            existing,
            new,
            swapping,
        } => rename(alloc, existing.as_slice(), new.as_slice(), *swapping),
        FunctionIR::RowIndex { name, offset } => numbering(alloc, name.as_str(), *offset),
        FunctionIR::Unpivot { args } => unpivot(alloc, args),
        FunctionIR::Explode { columns } => explode(alloc, columns.as_slice()),
        FunctionIR::FastCount {
            sources,
            scan_type,
            alias,
        } => count(alloc, sources, scan_type, alias),
    }
}

/// The object of a function, under its name.
#[tactic(auto, unfolding(plan_text_pieces::specs::Functions::frame_function_data))]
pub fn frame_function(alloc: Global, function: &FunctionIR) -> Result<Value, AllocError>
    ensures { IfOk result (λ v. view v ≡ frame_function_data function.now) }
{
    let told = done!(told(alloc, function));
    only(alloc, frame_function_name(function), told)
}
