//! The readers of nodes that give rows of their input: slices, filters, sorts and distinct rows.
ghost use Rattle.serde_json.specs.View.{view};
ghost use Rattle.plan_doc_parts.specs.Gives.{Gives, Shows};
ghost use Rattle.plan_doc_parts.specs.Members.{object_of};
ghost use Rattle.plan_doc_nodes.specs.Rows.{slice_node_of, filter_of, sort_keys, sort_options_of, sort_of, keep_of, distinct_keys, distinct_options_of, distinct_of};

use plan_doc_parts::{
    Fault, field, integer_at, link_at, number_at, object, optional_names_at, optional_slice_at,
    output_at, outputs_at, read, text, truth_at, truths_at,
};
use plan_ir::IR;
use plan_options::{DistinctOptionsIR, SortMultipleOptions, UniqueKeepStrategy};
use serde_json::Value;
use std::alloc::Global;

/// The slice of an entry.
#[tactic(auto, unfolding(crate::specs::Rows::slice_node_of))]
pub fn slice_node(value: &Value) -> Result<IR, Fault>
    ensures { Gives result (slice_node_of (view value.now)) }
{
    let object = read!(object(value, &["input", "len", "offset", "op"]));
    let input = read!(link_at(object, "input"));
    let offset = read!(integer_at(object, "offset"));
    let len = read!(number_at(object, "len"));
    Ok(IR::Slice { input, offset, len })
}

/// The filter of an entry.
#[tactic(auto, unfolding(crate::specs::Rows::filter_of))]
pub fn filter(alloc: Global, value: &Value) -> Result<IR, Fault>
    ensures { Gives result (filter_of (view value.now)) }
{
    let object = read!(object(value, &["input", "op", "predicate"]));
    let input = read!(link_at(object, "input"));
    let predicate = read!(output_at(alloc, object, "predicate"));
    Ok(IR::Filter { input, predicate })
}

/// An object with the keys of a sort and no other.
#[tactic(auto, unfolding(crate::specs::Rows::sort_keys))]
fn sort_object(value: &Value) -> Result<&Value, Fault>
    ensures { Shows (λ v. view v.now) result (object_of sort_keys (view value.now)) }
{
    object(
        value,
        &[
            "by",
            "descending",
            "input",
            "maintain_order",
            "nulls_last",
            "op",
            "slice",
        ],
    )
}

/// How rows are sorted, from the object of a sort: several threads may sort, and all rows are put out.
#[tactic(auto, using(plan_doc_parts::proofs::NoneLemmas::bind_none), unfolding(crate::specs::Rows::sort_options_of))]
fn sort_options(alloc: Global, object: &Value) -> Result<SortMultipleOptions, Fault>
    ensures { Gives result (sort_options_of (view object.now)) }
{
    let maintain_order = read!(truth_at(object, "maintain_order"));
    let descending = read!(truths_at(alloc, object, "descending"));
    let nulls_last = read!(truths_at(alloc, object, "nulls_last"));
    Ok(SortMultipleOptions {
        descending,
        nulls_last,
        multithreaded: true,
        maintain_order,
        limit: None,
    })
}

/// The sort of an entry.
#[tactic(auto, using(plan_doc_parts::proofs::NoneLemmas::bind_none), unfolding(crate::specs::Rows::sort_of))]
pub fn sort(alloc: Global, value: &Value) -> Result<IR, Fault>
    ensures { Gives result (sort_of (view value.now)) }
{
    let object = read!(sort_object(value));
    let input = read!(link_at(object, "input"));
    let slice = read!(optional_slice_at(object, "slice"));
    let by_column = read!(outputs_at(alloc, object, "by"));
    let sort_options = read!(sort_options(alloc, object));
    Ok(IR::Sort {
        input,
        by_column,
        slice,
        sort_options,
    })
}

/// Which row of those that are the same is kept, by its name.
#[tactic(auto, unfolding(crate::specs::Rows::keep_of, crate::specs::Rows::keep_named))]
fn keep(value: &Value) -> Result<UniqueKeepStrategy, Fault>
    ensures { Gives result (keep_of (view value.now)) }
{
    match read!(text(value)) {
        "First" => Ok(UniqueKeepStrategy::First),
        "Last" => Ok(UniqueKeepStrategy::Last),
        "Any" => Ok(UniqueKeepStrategy::Any),
        "None" => Ok(UniqueKeepStrategy::None),
        _ => Err(Fault::Form),
    }
}

/// An object with the keys of distinct rows and no other.
#[tactic(auto, unfolding(crate::specs::Rows::distinct_keys))]
fn distinct_object(value: &Value) -> Result<&Value, Fault>
    ensures { Shows (λ v. view v.now) result (object_of distinct_keys (view value.now)) }
{
    object(
        value,
        &["input", "keep", "maintain_order", "op", "slice", "subset"],
    )
}

/// Which rows are distinct, and which of them are kept, from the object of distinct rows.
#[tactic(auto, using(plan_doc_parts::proofs::NoneLemmas::bind_none), unfolding(crate::specs::Rows::distinct_options_of))]
fn distinct_options(alloc: Global, object: &Value) -> Result<DistinctOptionsIR, Fault>
    ensures { Gives result (distinct_options_of (view object.now)) }
{
    let maintain_order = read!(truth_at(object, "maintain_order"));
    let keep_strategy = read!(keep(read!(field(object, "keep"))));
    let slice = read!(optional_slice_at(object, "slice"));
    let subset = read!(optional_names_at(alloc, object, "subset"));
    Ok(DistinctOptionsIR {
        subset,
        maintain_order,
        keep_strategy,
        slice,
    })
}

/// The distinct rows of an entry.
#[tactic(auto, unfolding(crate::specs::Rows::distinct_of))]
pub fn distinct(alloc: Global, value: &Value) -> Result<IR, Fault>
    ensures { Gives result (distinct_of (view value.now)) }
{
    let object = read!(distinct_object(value));
    let input = read!(link_at(object, "input"));
    let options = read!(distinct_options(alloc, object));
    Ok(IR::Distinct { input, options })
}
