//! The readers of nodes that choose or make columns: projections, selections, additions and groupings.
ghost use Rattle.serde_json.specs.View.{view};
ghost use Rattle.plan_doc_parts.specs.Gives.{Gives, Shows};
ghost use Rattle.plan_doc_parts.specs.Members.{object_of};
ghost use Rattle.plan_doc_nodes.specs.Columns.{simple_projection_of, made_keys, made_of, select_of, hstack_of, group_by_keys, grouped_of, group_by_of};

use plan_core::{Items, ProjectionOptions, Schema};
use plan_doc_parts::{
    Fault, columns_at, link_at, object, optional_slice_at, options_at, outputs_at, read, truth_at,
};
use plan_expr::ExprIR;
use plan_ir::IR;
use plan_options::GroupbyOptions;
use serde_json::Value;
use std::alloc::Global;

/// The projection of an entry.
#[tactic(auto, using(plan_doc_parts::proofs::NoneLemmas::bind_none), unfolding(crate::specs::Columns::simple_projection_of))]
pub fn simple_projection(alloc: Global, value: &Value) -> Result<IR, Fault>
    ensures { Gives result (simple_projection_of (view value.now)) }
{
    let object = read!(object(value, &["columns", "input", "op"]));
    let input = read!(link_at(object, "input"));
    let columns = read!(columns_at(alloc, object, "columns"));
    Ok(IR::SimpleProjection { input, columns })
}

/// An object with the keys of a node that makes columns.
#[tactic(auto, unfolding(crate::specs::Columns::made_keys))]
fn made_object(value: &Value) -> Result<&Value, Fault>
    ensures { Shows (λ v. view v.now) result (object_of made_keys (view value.now)) }
{
    object(value, &["exprs", "input", "op", "options", "schema"])
}

/// The columns that a node makes.
#[tactic(auto, using(plan_doc_parts::proofs::NoneLemmas::bind_none), unfolding(crate::specs::Columns::made_of))]
fn made(alloc: Global, object: &Value) -> Result<(Items<ExprIR>, Schema, ProjectionOptions), Fault>
    ensures { Gives result (made_of (view object.now)) }
{
    let options = read!(options_at(object, "options"));
    let exprs = read!(outputs_at(alloc, object, "exprs"));
    let schema = read!(columns_at(alloc, object, "schema"));
    Ok((exprs, schema, options))
}

/// The selection of an entry.
#[tactic(auto, unfolding(crate::specs::Columns::select_of))]
pub fn select(alloc: Global, value: &Value) -> Result<IR, Fault>
    ensures { Gives result (select_of (view value.now)) }
{
    let object = read!(made_object(value));
    let input = read!(link_at(object, "input"));
    let (expr, schema, options) = read!(made(alloc, object));
    Ok(IR::Select {
        input,
        expr,
        schema,
        options,
    })
}

/// The addition of columns of an entry.
#[tactic(auto, unfolding(crate::specs::Columns::hstack_of))]
pub fn hstack(alloc: Global, value: &Value) -> Result<IR, Fault>
    ensures { Gives result (hstack_of (view value.now)) }
{
    let object = read!(made_object(value));
    let input = read!(link_at(object, "input"));
    let (exprs, schema, options) = read!(made(alloc, object));
    Ok(IR::HStack {
        input,
        exprs,
        schema,
        options,
    })
}

/// An object with the keys of a grouping and no other.
#[tactic(auto, unfolding(crate::specs::Columns::group_by_keys))]
fn group_by_object(value: &Value) -> Result<&Value, Fault>
    ensures { Shows (λ v. view v.now) result (object_of group_by_keys (view value.now)) }
{
    object(
        value,
        &[
            "aggs",
            "input",
            "keys",
            "maintain_order",
            "op",
            "schema",
            "slice",
        ],
    )
}

/// The keys, the aggregates and the columns of a grouping.
#[tactic(auto, unfolding(crate::specs::Columns::grouped_of))]
fn grouped(alloc: Global, object: &Value) -> Result<(Items<ExprIR>, Items<ExprIR>, Schema), Fault>
    ensures { Gives result (grouped_of (view object.now)) }
{
    let keys = read!(outputs_at(alloc, object, "keys"));
    let aggs = read!(outputs_at(alloc, object, "aggs"));
    let schema = read!(columns_at(alloc, object, "schema"));
    Ok((keys, aggs, schema))
}

/// The grouping of an entry.
#[tactic(auto, using(plan_doc_parts::proofs::NoneLemmas::bind_none), unfolding(crate::specs::Columns::group_by_of))]
pub fn group_by(alloc: Global, value: &Value) -> Result<IR, Fault>
    ensures { Gives result (group_by_of (view value.now)) }
{
    let object = read!(group_by_object(value));
    let input = read!(link_at(object, "input"));
    let maintain_order = read!(truth_at(object, "maintain_order"));
    let slice = read!(optional_slice_at(object, "slice"));
    let (keys, aggs, schema) = read!(grouped(alloc, object));
    Ok(IR::GroupBy {
        input,
        keys,
        aggs,
        schema,
        maintain_order,
        options: GroupbyOptions { slice },
    })
}
