//! The readers of functions of whole frames.
ghost use Rattle.serde_json.specs.View.{view};
ghost use Rattle.plan_doc_parts.specs.Gives.{Gives};
ghost use Rattle.plan_doc_scans.specs.Functions.{count_of, rename_of, numbering_of, unpivot_args_of, unpivot_of, explode_of, frame_function_of};

use crate::scans::files;
use plan_doc_parts::{
    Fault, name_at, names_at, object, only, optional_name_at, optional_number_at, read, truth_at,
};
use plan_ir::{FunctionIR, UnpivotArgsIR};
use serde_json::Value;
use std::alloc::Global;

/// The renaming of an object.
#[tactic(auto, using(plan_doc_parts::proofs::NoneLemmas::bind_none), unfolding(crate::specs::Functions::rename_of))]
fn rename(alloc: Global, value: &Value) -> Result<FunctionIR, Fault>
    ensures { Gives result (rename_of (view value.now)) }
{
    let object = read!(object(value, &["existing", "new", "swapping"]));
    let swapping = read!(truth_at(object, "swapping"));
    let existing = read!(names_at(alloc, object, "existing"));
    let new = read!(names_at(alloc, object, "new"));
    Ok(FunctionIR::Rename {
        existing,
        new,
        swapping,
    })
}

/// The numbering of rows of an object.
#[tactic(auto, using(plan_doc_parts::proofs::NoneLemmas::bind_none), unfolding(crate::specs::Functions::numbering_of))]
fn numbering(alloc: Global, value: &Value) -> Result<FunctionIR, Fault>
    ensures { Gives result (numbering_of (view value.now)) }
{
    let object = read!(object(value, &["name", "offset"]));
    let offset = read!(optional_number_at(object, "offset"));
    let name = read!(name_at(alloc, object, "name"));
    Ok(FunctionIR::RowIndex { name, offset })
}

/// What is unpivoted, and the names of what comes of it, from the object of an unpivot.
#[tactic(auto, unfolding(crate::specs::Functions::unpivot_args_of))]
fn unpivot_args(alloc: Global, object: &Value) -> Result<UnpivotArgsIR, Fault>
    ensures { Gives result (unpivot_args_of (view object.now)) }
{
    let index = names_at(alloc, object, "index")?;
    let on = names_at(alloc, object, "on")?;
    let value_name = optional_name_at(alloc, object, "value_name")?;
    let variable_name = optional_name_at(alloc, object, "variable_name")?;
    Ok(UnpivotArgsIR {
        on,
        index,
        variable_name,
        value_name,
    })
}

/// The unpivot of an object.
#[tactic(auto, unfolding(crate::specs::Functions::unpivot_of))]
fn unpivot(alloc: Global, value: &Value) -> Result<FunctionIR, Fault>
    ensures { Gives result (unpivot_of (view value.now)) }
{
    let object = read!(object(value, &["index", "on", "value_name", "variable_name"]));
    let args = read!(unpivot_args(alloc, object));
    Ok(FunctionIR::Unpivot { args })
}

/// The explode of an object.
#[tactic(auto, unfolding(crate::specs::Functions::explode_of))]
fn explode(alloc: Global, value: &Value) -> Result<FunctionIR, Fault>
    ensures { Gives result (explode_of (view value.now)) }
{
    let object = read!(object(value, &["columns"]));
    let columns = read!(names_at(alloc, object, "columns"));
    Ok(FunctionIR::Explode { columns })
}

/// The count of the rows of files of an object.
#[tactic(auto, unfolding(crate::specs::Functions::count_of))]
fn count(alloc: Global, value: &Value) -> Result<FunctionIR, Fault>
    ensures { Gives result (count_of (view value.now)) }
{
    let object = read!(object(value, &["alias", "kind", "sources"]));
    let alias = read!(optional_name_at(alloc, object, "alias"));
    let (sources, scan_type) = read!(files(alloc, object));
    Ok(FunctionIR::FastCount {
        sources,
        scan_type,
        alias,
    })
}

/// The function that stands under its name in an object of one key.
pub fn frame_function(alloc: Global, value: &Value) -> Result<FunctionIR, Fault>
    ensures { Gives result (frame_function_of (view value.now)) }
{
    if value.get("Rename").is_some() {
        return rename(alloc, read!(only(value, "Rename")));
    }
    if value.get("RowIndex").is_some() {
        return numbering(alloc, read!(only(value, "RowIndex")));
    }
    if value.get("Unpivot").is_some() {
        return unpivot(alloc, read!(only(value, "Unpivot")));
    }
    if value.get("Explode").is_some() {
        return explode(alloc, read!(only(value, "Explode")));
    }
    if value.get("FastCount").is_some() {
        return count(alloc, read!(only(value, "FastCount")));
    }
    Err(Fault::Form)
}
