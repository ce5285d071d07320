//! The readers of parts that may be null.
ghost use Rattle.serde_json.specs.View.{view};
ghost use Rattle.plan_doc_parts.specs.Gives.{Gives};
ghost use Rattle.plan_doc_parts.specs.Members.{at};
ghost use Rattle.plan_doc_parts.specs.Parts.{number_of, name_of, names_of, nullable, columns_of, output_of, slice_of};

use crate::fault::Fault;
use crate::members::field;
use crate::parts::{columns, name, names, number, output, slice};
use plan_core::{Items, PlSmallStr, Schema};
use plan_expr::ExprIR;
use serde_json::Value;
use std::alloc::Global;

/// Under a key null, or a number. `Form` where the key is absent or something else stands there.
#[tactic(auto, using(crate::proofs::NullLemmas::nullable_null, crate::proofs::NullLemmas::nullable_other), unfolding(crate::specs::Members::at))]
pub fn optional_number_at(object: &Value, key: &str) -> Result<Option<u32>, Fault>
    ensures { Gives result (at key.now (nullable number_of) (view object.now)) }
{
    let value = field(object, key)?;
    if value.is_null() {
        return Ok(None);
    }
    Ok(Some(number(value)?))
}

/// Under a key null, or a name. `Form` where the key is absent or something else stands there, and `Memory` where
/// memory is short.
#[tactic(auto, using(crate::proofs::NullLemmas::nullable_null, crate::proofs::NullLemmas::nullable_other), unfolding(crate::specs::Members::at))]
pub fn optional_name_at(
    alloc: Global,
    object: &Value,
    key: &str,
) -> Result<Option<PlSmallStr>, Fault>
    ensures { Gives result (at key.now (nullable name_of) (view object.now)) }
{
    let value = field(object, key)?;
    if value.is_null() {
        return Ok(None);
    }
    Ok(Some(name(alloc, value)?))
}

/// Under a key null, or the first row and how many rows. `Form` where the key is absent or something else stands there.
#[tactic(auto, using(crate::proofs::NullLemmas::nullable_null, crate::proofs::NullLemmas::nullable_other), unfolding(crate::specs::Members::at))]
pub fn optional_slice_at(object: &Value, key: &str) -> Result<Option<(i64, usize)>, Fault>
    ensures { Gives result (at key.now (nullable slice_of) (view object.now)) }
{
    let value = field(object, key)?;
    if value.is_null() {
        return Ok(None);
    }
    Ok(Some(slice(value)?))
}

/// Under a key null, or an expression with its output name. `Form` where the key is absent or something else stands
/// there, and `Memory` where memory is short.
#[tactic(auto, using(crate::proofs::NullLemmas::nullable_null, crate::proofs::NullLemmas::nullable_other), unfolding(crate::specs::Members::at))]
pub fn optional_output_at(alloc: Global, object: &Value, key: &str) -> Result<Option<ExprIR>, Fault>
    ensures { Gives result (at key.now (nullable output_of) (view object.now)) }
{
    let value = field(object, key)?;
    if value.is_null() {
        return Ok(None);
    }
    Ok(Some(output(alloc, value)?))
}

/// Under a key null, or names. `Form` where the key is absent or something else stands there, and `Memory` where memory
/// is short.
#[tactic(auto, using(crate::proofs::NullLemmas::nullable_null, crate::proofs::NullLemmas::nullable_other), unfolding(crate::specs::Members::at))]
pub fn optional_names_at(
    alloc: Global,
    object: &Value,
    key: &str,
) -> Result<Option<Items<PlSmallStr>>, Fault>
    ensures { Gives result (at key.now (nullable names_of) (view object.now)) }
{
    let value = field(object, key)?;
    if value.is_null() {
        return Ok(None);
    }
    Ok(Some(names(alloc, value)?))
}

/// Under a key null, or names with types. `Form` where the key is absent or something else stands there, and `Memory`
/// where memory is short.
#[tactic(auto, using(crate::proofs::NullLemmas::nullable_null, crate::proofs::NullLemmas::nullable_other), unfolding(crate::specs::Members::at))]
pub fn optional_columns_at(
    alloc: Global,
    object: &Value,
    key: &str,
) -> Result<Option<Schema>, Fault>
    ensures { Gives result (at key.now (nullable columns_of) (view object.now)) }
{
    let value = field(object, key)?;
    if value.is_null() {
        return Ok(None);
    }
    Ok(Some(columns(alloc, value)?))
}
