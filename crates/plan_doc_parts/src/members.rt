//! Objects, and what stands under their keys.
ghost use Rattle.std.specs.Prelude.{◌≡◌, map};
ghost use Rattle.serde_json.specs.Find.{get};
ghost use Rattle.serde_json.specs.View.{view};
ghost use Rattle.plan_doc_parts.specs.Gives.{Gives, Shows};
ghost use Rattle.plan_doc_parts.specs.Members.{object_of, at, only_of, count_of, has_keys as has_keys_of};
ghost use Rattle.plan_doc_parts.specs.Parts.{number_of, numbers_of, link_of, links_of, truth_of, integer_of, truths_of, name_of, names_of, columns_of, output_of, outputs_of, options_of};

use crate::fault::Fault;
use crate::parts::{
    columns, integer, link, links, name, names, number, numbers, options, output, outputs, truth,
    truths,
};
use plan_core::{Items, Node, PlSmallStr, ProjectionOptions, Schema};
use plan_expr::ExprIR;
use serde_json::Value;
use std::alloc::Global;

/// How many members an object has.
fn member_count(value: &Value) -> Result<usize, Fault>
    ensures { Gives result (count_of (view value.now)) }
{
    match value.as_object() {
        Some(members) => Ok(members.len()),
        None => Err(Fault::Form),
    }
}

/// Whether a value has each of these keys; it may have others.
fn has_keys(value: &Value, keys: &[&str]) -> bool
    ensures { result ≡ has_keys_of (map (λ k. k.now) keys.now) (view value.now) }
{
    match keys {
        [] => true,
        [first, rest @ ..] => value.get(*first).is_some() && has_keys(value, rest),
    }
}

/// The value itself, where it is an object with these keys and no other; else `Form`. No key is given twice.
#[tactic(auto, unfolding(crate::specs::Members::object_of))]
pub fn object<'a>(value: &'a Value, keys: &[&str]) -> Result<&'a Value, Fault>
    ensures { Shows (λ v. view v.now) result (object_of (map (λ k. k.now) keys.now) (view value.now)) }
{
    let count = member_count(value)?;
    if count != keys.len() {
        return Err(Fault::Form);
    }
    if !has_keys(value, keys) {
        return Err(Fault::Form);
    }
    Ok(value)
}

/// The value under a key of an object; `Form` where the value is no object or lacks the key.
pub fn field<'a>(value: &'a Value, key: &str) -> Result<&'a Value, Fault>
    ensures { Shows (λ v. view v.now) result (get key.now (view value.now)) }
{
    value.get(key).ok_or(Fault::Form)
}

/// The value under the one key of an object; `Form` where the value is no object, or has another key.
#[tactic(auto, unfolding(crate::specs::Members::only_of))]
pub fn only<'a>(value: &'a Value, key: &str) -> Result<&'a Value, Fault>
    ensures { Shows (λ v. view v.now) result (only_of key.now (view value.now)) }
{
    field(object(value, &[key])?, key)
}

/// The number of a node or an expression under a key; whether such an entry is there isn't asked. `Form` where the key
/// is absent or something else stands there.
#[tactic(auto, unfolding(crate::specs::Members::at))]
pub fn link_at(object: &Value, key: &str) -> Result<Node, Fault>
    ensures { Gives result (at key.now link_of (view object.now)) }
{
    link(field(object, key)?)
}

/// The whole number of 64 signed bits under a key. `Form` where the key is absent or something else stands there.
#[tactic(auto, unfolding(crate::specs::Members::at))]
pub fn integer_at(object: &Value, key: &str) -> Result<i64, Fault>
    ensures { Gives result (at key.now integer_of (view object.now)) }
{
    integer(field(object, key)?)
}

/// The whole number from 0 to 4294967295 under a key. `Form` where the key is absent or something else stands there.
#[tactic(auto, unfolding(crate::specs::Members::at))]
pub fn number_at(object: &Value, key: &str) -> Result<u32, Fault>
    ensures { Gives result (at key.now number_of (view object.now)) }
{
    number(field(object, key)?)
}

/// The array of whole numbers from 0 to 4294967295 under a key. `Form` where the key is absent or something else stands
/// there, and `Memory` where memory is short.
#[tactic(auto, unfolding(crate::specs::Members::at))]
pub fn numbers_at(alloc: Global, object: &Value, key: &str) -> Result<Items<u32>, Fault>
    ensures { Gives result (at key.now numbers_of (view object.now)) }
{
    numbers(alloc, field(object, key)?)
}

/// The truth value under a key. `Form` where the key is absent or something else stands there.
#[tactic(auto, unfolding(crate::specs::Members::at))]
pub fn truth_at(object: &Value, key: &str) -> Result<bool, Fault>
    ensures { Gives result (at key.now truth_of (view object.now)) }
{
    truth(field(object, key)?)
}

/// The text under a key, as a name. `Form` where the key is absent or something else stands there, and `Memory` where
/// memory is short.
#[tactic(auto, unfolding(crate::specs::Members::at))]
pub fn name_at(alloc: Global, object: &Value, key: &str) -> Result<PlSmallStr, Fault>
    ensures { Gives result (at key.now name_of (view object.now)) }
{
    name(alloc, field(object, key)?)
}

/// The array of names under a key. `Form` where the key is absent or something else stands there, and `Memory` where
/// memory is short.
#[tactic(auto, unfolding(crate::specs::Members::at))]
pub fn names_at(alloc: Global, object: &Value, key: &str) -> Result<Items<PlSmallStr>, Fault>
    ensures { Gives result (at key.now names_of (view object.now)) }
{
    names(alloc, field(object, key)?)
}

/// The array of names with types under a key, no name twice. `Form` where the key is absent or something else stands
/// there, and `Memory` where memory is short.
#[tactic(auto, unfolding(crate::specs::Members::at))]
pub fn columns_at(alloc: Global, object: &Value, key: &str) -> Result<Schema, Fault>
    ensures { Gives result (at key.now columns_of (view object.now)) }
{
    columns(alloc, field(object, key)?)
}

/// The expression with its output name under a key. `Form` where the key is absent or something else stands there, and
/// `Memory` where memory is short.
#[tactic(auto, unfolding(crate::specs::Members::at))]
pub fn output_at(alloc: Global, object: &Value, key: &str) -> Result<ExprIR, Fault>
    ensures { Gives result (at key.now output_of (view object.now)) }
{
    output(alloc, field(object, key)?)
}

/// The array of numbers of nodes or of expressions under a key. `Form` where the key is absent or something else stands
/// there, and `Memory` where memory is short.
#[tactic(auto, unfolding(crate::specs::Members::at))]
pub fn links_at(alloc: Global, object: &Value, key: &str) -> Result<Items<Node>, Fault>
    ensures { Gives result (at key.now links_of (view object.now)) }
{
    links(alloc, field(object, key)?)
}

/// The array of truth values under a key. `Form` where the key is absent or something else stands there, and `Memory`
/// where memory is short.
#[tactic(auto, unfolding(crate::specs::Members::at))]
pub fn truths_at(alloc: Global, object: &Value, key: &str) -> Result<Items<bool>, Fault>
    ensures { Gives result (at key.now truths_of (view object.now)) }
{
    truths(alloc, field(object, key)?)
}

/// The array of expressions with their output names under a key. `Form` where the key is absent or something else
/// stands there, and `Memory` where memory is short.
#[tactic(auto, unfolding(crate::specs::Members::at))]
pub fn outputs_at(alloc: Global, object: &Value, key: &str) -> Result<Items<ExprIR>, Fault>
    ensures { Gives result (at key.now outputs_of (view object.now)) }
{
    outputs(alloc, field(object, key)?)
}

/// What a node that makes columns may do, under a key. `Form` where the key is absent or something else stands there.
#[tactic(auto, unfolding(crate::specs::Members::at))]
pub fn options_at(object: &Value, key: &str) -> Result<ProjectionOptions, Fault>
    ensures { Gives result (at key.now options_of (view object.now)) }
{
    options(field(object, key)?)
}
