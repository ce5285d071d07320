//! The readers of joins.
ghost use Rattle.serde_json.specs.View.{view};
ghost use Rattle.plan_doc_parts.specs.Gives.{Gives, Shows};
ghost use Rattle.plan_doc_parts.specs.Members.{object_of, at};
ghost use Rattle.plan_doc_parts.specs.Parts.{nullable};
ghost use Rattle.plan_doc_nodes.specs.Joins.{how_of, coalesce_of, order_of, inequality_of, inequalities_of, condition_of, kind_options_of, parallel_of, naming_of, join_args_of, join_options_of, join_keys, key_pairs_of, join_of};

use plan_core::{Items, PlSmallStr};
use plan_doc_parts::{
    Fault, columns_at, entries, field, link_at, object, only, optional_name_at, optional_slice_at,
    output, outputs_at, read, text, truth, truth_at, two,
};
use plan_expr::ExprIR;
use plan_ir::IR;
use plan_join::{JoinOptions, JoinTypeOptionsIR};
use plan_options::{
    IEJoinOptions, InequalityOperator, JoinArgs, JoinCoalesce, JoinType, MaintainOrderJoin,
};
use serde_json::Value;
use std::alloc::Global;

/// Which pairs of rows a join gives, by its name.
#[tactic(auto, unfolding(crate::specs::Joins::how_of, crate::specs::Joins::how_named))]
fn how(value: &Value) -> Result<JoinType, Fault>
    ensures { Gives result (how_of (view value.now)) }
{
    match read!(text(value)) {
        "Inner" => Ok(JoinType::Inner),
        "Left" => Ok(JoinType::Left),
        "Right" => Ok(JoinType::Right),
        "Full" => Ok(JoinType::Full),
        "Cross" => Ok(JoinType::Cross),
        "Semi" => Ok(JoinType::Semi),
        "Anti" => Ok(JoinType::Anti),
        "IEJoin" => Ok(JoinType::IEJoin),
        _ => Err(Fault::Form),
    }
}

/// Whether a pair of key columns is put out as one, by its name.
#[tactic(auto, unfolding(crate::specs::Joins::coalesce_of, crate::specs::Joins::coalesce_named))]
fn coalesce(value: &Value) -> Result<JoinCoalesce, Fault>
    ensures { Gives result (coalesce_of (view value.now)) }
{
    match read!(text(value)) {
        "JoinSpecific" => Ok(JoinCoalesce::JoinSpecific),
        "CoalesceColumns" => Ok(JoinCoalesce::CoalesceColumns),
        "KeepColumns" => Ok(JoinCoalesce::KeepColumns),
        _ => Err(Fault::Form),
    }
}

/// Which order of its inputs a join keeps, by its name.
#[tactic(auto, unfolding(crate::specs::Joins::order_of, crate::specs::Joins::order_named))]
fn order(value: &Value) -> Result<MaintainOrderJoin, Fault>
    ensures { Gives result (order_of (view value.now)) }
{
    match read!(text(value)) {
        "None" => Ok(MaintainOrderJoin::None),
        "Left" => Ok(MaintainOrderJoin::Left),
        "Right" => Ok(MaintainOrderJoin::Right),
        "LeftRight" => Ok(MaintainOrderJoin::LeftRight),
        "RightLeft" => Ok(MaintainOrderJoin::RightLeft),
        _ => Err(Fault::Form),
    }
}

/// An inequality, by its name.
#[tactic(auto, unfolding(crate::specs::Joins::inequality_of, crate::specs::Joins::inequality_named))]
fn inequality(value: &Value) -> Result<InequalityOperator, Fault>
    ensures { Gives result (inequality_of (view value.now)) }
{
    match read!(text(value)) {
        "Lt" => Ok(InequalityOperator::Lt),
        "LtEq" => Ok(InequalityOperator::LtEq),
        "Gt" => Ok(InequalityOperator::Gt),
        "GtEq" => Ok(InequalityOperator::GtEq),
        _ => Err(Fault::Form),
    }
}

/// The inequalities of an array of one or two.
#[tactic(auto, unfolding(crate::specs::Joins::inequalities_of))]
fn inequalities(value: &Value) -> Result<JoinTypeOptionsIR, Fault>
    ensures { Gives result (inequalities_of (view value.now)) }
{
    match read!(entries(value)) {
        [first] => Ok(JoinTypeOptionsIR::IEJoin(IEJoinOptions {
            operator1: read!(inequality(first)),
            operator2: None,
        })),
        [first, second] => Ok(JoinTypeOptionsIR::IEJoin(IEJoinOptions {
            operator1: read!(inequality(first)),
            operator2: Some(read!(inequality(second))),
        })),
        _ => Err(Fault::Form),
    }
}

/// The condition of a cross join.
#[tactic(auto, unfolding(crate::specs::Joins::condition_of))]
fn condition(alloc: Global, value: &Value) -> Result<JoinTypeOptionsIR, Fault>
    ensures { Gives result (condition_of (view value.now)) }
{
    let predicate = read!(output(alloc, value));
    Ok(JoinTypeOptionsIR::Cross { predicate })
}

/// What only some kinds of joins are told: what stands under its name in an object of one key.
fn kind_options(alloc: Global, value: &Value) -> Result<JoinTypeOptionsIR, Fault>
    ensures { Gives result (kind_options_of (view value.now)) }
{
    if value.get("cross").is_some() {
        return condition(alloc, read!(only(value, "cross")));
    }
    if value.get("ie").is_some() {
        return inequalities(read!(only(value, "ie")));
    }
    Err(Fault::Form)
}

/// Under a key null, or what only some kinds of joins are told.
#[tactic(auto, using(plan_doc_parts::proofs::NullLemmas::nullable_null, plan_doc_parts::proofs::NullLemmas::nullable_other), unfolding(plan_doc_parts::specs::Members::at))]
fn optional_kind_options_at(
    alloc: Global,
    object: &Value,
    key: &str,
) -> Result<Option<JoinTypeOptionsIR>, Fault>
    ensures { Gives result (at key.now (nullable kind_options_of) (view object.now)) }
{
    let value = read!(field(object, key));
    if value.is_null() {
        return Ok(None);
    }
    Ok(Some(read!(kind_options(alloc, value))))
}

/// Whether the sides of a join may be computed at once, and whether they are.
#[tactic(auto, unfolding(crate::specs::Joins::parallel_of))]
fn parallel(value: &Value) -> Result<(bool, bool), Fault>
    ensures { Gives result (parallel_of (view value.now)) }
{
    let (allow_value, force_value) = read!(two(value));
    let allow_parallel = read!(truth(allow_value));
    let force_parallel = read!(truth(force_value));
    Ok((allow_parallel, force_parallel))
}

/// How a join names its columns, from the object of the join: whether pairs of keys are put out as one, and the suffix.
#[tactic(auto, unfolding(crate::specs::Joins::naming_of))]
fn naming(alloc: Global, object: &Value) -> Result<(JoinCoalesce, Option<PlSmallStr>), Fault>
    ensures { Gives result (naming_of (view object.now)) }
{
    let coalesce = read!(coalesce(read!(field(object, "coalesce"))));
    let suffix = read!(optional_name_at(alloc, object, "suffix"));
    Ok((coalesce, suffix))
}

/// Which rows a join gives, in which order, and how it names its columns, from the object of the join.
#[tactic(auto, using(plan_doc_parts::proofs::NoneLemmas::bind_none), unfolding(crate::specs::Joins::join_args_of))]
fn join_args(alloc: Global, object: &Value) -> Result<JoinArgs, Fault>
    ensures { Gives result (join_args_of (view object.now)) }
{
    let how = read!(how(read!(field(object, "how"))));
    let join_nulls = read!(truth_at(object, "join_nulls"));
    let maintain_order = read!(order(read!(field(object, "maintain_order"))));
    let slice = read!(optional_slice_at(object, "slice"));
    let (coalesce, suffix) = read!(naming(alloc, object));
    Ok(JoinArgs {
        how,
        coalesce,
        suffix,
        join_nulls,
        maintain_order,
        slice,
    })
}

/// What a join is told beside its keys, from the object of the join.
#[tactic(auto, unfolding(crate::specs::Joins::join_options_of))]
fn join_options(alloc: Global, object: &Value) -> Result<JoinOptions, Fault>
    ensures { Gives result (join_options_of (view object.now)) }
{
    let (allow_parallel, force_parallel) = read!(parallel(read!(field(object, "parallel"))));
    let args = read!(join_args(alloc, object));
    let options = read!(optional_kind_options_at(alloc, object, "options"));
    Ok(JoinOptions {
        allow_parallel,
        force_parallel,
        args,
        options,
    })
}

/// An object with the keys of a join and no other.
#[tactic(auto, unfolding(crate::specs::Joins::join_keys))]
fn join_object(value: &Value) -> Result<&Value, Fault>
    ensures { Shows (λ v. view v.now) result (object_of join_keys (view value.now)) }
{
    object(
        value,
        &[
            "coalesce",
            "how",
            "join_nulls",
            "left",
            "left_on",
            "maintain_order",
            "op",
            "options",
            "parallel",
            "right",
            "right_on",
            "schema",
            "slice",
            "suffix",
        ],
    )
}

/// The left and the right keys of a join.
#[tactic(auto, unfolding(crate::specs::Joins::key_pairs_of))]
fn key_pairs(alloc: Global, object: &Value) -> Result<(Items<ExprIR>, Items<ExprIR>), Fault>
    ensures { Gives result (key_pairs_of (view object.now)) }
{
    let left_on = read!(outputs_at(alloc, object, "left_on"));
    let right_on = read!(outputs_at(alloc, object, "right_on"));
    Ok((left_on, right_on))
}

/// The join of an entry.
#[tactic(auto, unfolding(crate::specs::Joins::join_of))]
pub fn join(alloc: Global, value: &Value) -> Result<IR, Fault>
    ensures { Gives result (join_of (view value.now)) }
{
    let object = read!(join_object(value));
    let input_left = read!(link_at(object, "left"));
    let input_right = read!(link_at(object, "right"));
    let schema = read!(columns_at(alloc, object, "schema"));
    let keys = read!(key_pairs(alloc, object));
    let options = read!(join_options(alloc, object));
    let (left_on, right_on) = keys;
    Ok(IR::Join {
        input_left,
        input_right,
        schema,
        left_on,
        right_on,
        options,
    })
}
