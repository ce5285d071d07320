//! The readers of nodes over any number of inputs: unions, and concatenations side by side.
ghost use Rattle.serde_json.specs.View.{view};
ghost use Rattle.plan_doc_parts.specs.Gives.{Gives, Shows};
ghost use Rattle.plan_doc_parts.specs.Members.{object_of};
ghost use Rattle.plan_doc_nodes.specs.Several.{union_keys, union_options_of, union_of, hconcat_of};

use plan_doc_parts::{Fault, columns_at, links_at, object, optional_slice_at, read, truth_at};
use plan_ir::IR;
use plan_options::{HConcatOptions, UnionOptions};
use serde_json::Value;
use std::alloc::Global;

/// An object with the keys of a union and no other.
#[tactic(auto, unfolding(crate::specs::Several::union_keys))]
fn union_object(value: &Value) -> Result<&Value, Fault>
    ensures { Shows (λ v. view v.now) result (object_of union_keys (view value.now)) }
{
    object(
        value,
        &[
            "flattened",
            "inputs",
            "maintain_order",
            "op",
            "parallel",
            "rechunk",
            "slice",
        ],
    )
}

/// How inputs are put together, from the object of a union; what a document can't say is as by default.
#[tactic(auto, unfolding(crate::specs::Several::union_options_of))]
fn union_options(object: &Value) -> Result<UnionOptions, Fault>
    ensures { Gives result (union_options_of (view object.now)) }
{
    let slice = read!(optional_slice_at(object, "slice"));
    let parallel = read!(truth_at(object, "parallel"));
    let flattened_by_opt = read!(truth_at(object, "flattened"));
    let rechunk = read!(truth_at(object, "rechunk"));
    let maintain_order = read!(truth_at(object, "maintain_order"));
    Ok(UnionOptions {
        slice,
        parallel,
        flattened_by_opt,
        rechunk,
        maintain_order,
        ..UnionOptions::default()
    })
}

/// The union of an entry, however many its inputs are.
#[tactic(auto, using(plan_doc_parts::proofs::NoneLemmas::bind_none), unfolding(crate::specs::Several::union_of))]
pub fn union(alloc: Global, value: &Value) -> Result<IR, Fault>
    ensures { Gives result (union_of (view value.now)) }
{
    let object = read!(union_object(value));
    let options = read!(union_options(object));
    let inputs = read!(links_at(alloc, object, "inputs"));
    Ok(IR::Union { inputs, options })
}

/// The concatenation side by side of an entry, however many its inputs are.
#[tactic(auto, using(plan_doc_parts::proofs::NoneLemmas::bind_none), unfolding(crate::specs::Several::hconcat_of))]
pub fn hconcat(alloc: Global, value: &Value) -> Result<IR, Fault>
    ensures { Gives result (hconcat_of (view value.now)) }
{
    let object = read!(object(value, &["inputs", "op", "parallel", "schema"]));
    let parallel = read!(truth_at(object, "parallel"));
    let inputs = read!(links_at(alloc, object, "inputs"));
    let schema = read!(columns_at(alloc, object, "schema"));
    Ok(IR::HConcat {
        inputs,
        schema,
        options: HConcatOptions { parallel },
    })
}
