//! The readers of typed values.
ghost use Rattle.serde_json.specs.View.{view};
ghost use Rattle.plan_doc_parts.specs.Gives.{Gives};
ghost use Rattle.plan_doc_parts.specs.Values.{typed_single_of, single_value_of, single_values_of, typed_value_of, any_value_of, any_values_of};

use crate::arrays::each;
use crate::fault::Fault;
use crate::parts::{entries, integer, name, truth};
use plan_core::{DataType, Items, PlainType};
use plan_table::{AnyValue, PlainValue};
use serde_json::Value;
use std::alloc::Global;

/// A single value of the type.
fn typed_single(alloc: Global, plain: PlainType, value: &Value) -> Result<PlainValue, Fault>
    ensures { Gives result (typed_single_of plain (view value.now)) }
{
    match plain {
        PlainType::Int64 => Ok(PlainValue::Int64(integer(value)?)),
        PlainType::String => Ok(PlainValue::String(name(alloc, value)?)),
        PlainType::Boolean => Ok(PlainValue::Boolean(truth(value)?)),
    }
}

/// Null, or a single value of the type.
fn single_value(alloc: Global, plain: PlainType, value: &Value) -> Result<PlainValue, Fault>
    ensures { Gives result (single_value_of plain (view value.now)) }
{
    if value.is_null() {
        return Ok(PlainValue::Null);
    }
    typed_single(alloc, plain, value)
}

/// An array of single values, each null or of the type.
#[tactic(auto, unfolding(crate::specs::Values::single_values_of))]
fn single_values(alloc: Global, plain: PlainType, value: &Value) -> Result<Items<PlainValue>, Fault>
    ensures { Gives result (single_values_of plain (view value.now)) }
{
    let entries = entries(value)?;
    each(alloc, entries, |entry| single_value(alloc, plain, entry))
}

/// A value of the type.
fn typed_value(alloc: Global, dtype: DataType, value: &Value) -> Result<AnyValue, Fault>
    ensures { Gives result (typed_value_of dtype (view value.now)) }
{
    match dtype {
        DataType::Int64 => Ok(AnyValue::Int64(integer(value)?)),
        DataType::String => Ok(AnyValue::String(name(alloc, value)?)),
        DataType::Boolean => Ok(AnyValue::Boolean(truth(value)?)),
        DataType::List(plain) => Ok(AnyValue::List(single_values(alloc, plain, value)?)),
    }
}

/// Null, or a value of the type. `Form` for any other value, and `Memory` where memory is short.
pub fn any_value(alloc: Global, dtype: DataType, value: &Value) -> Result<AnyValue, Fault>
    ensures { Gives result (any_value_of dtype (view value.now)) }
{
    if value.is_null() {
        return Ok(AnyValue::Null);
    }
    typed_value(alloc, dtype, value)
}

/// An array of values, each null or of the type. `Form` for any other value, and `Memory` where memory is short.
#[tactic(auto, unfolding(crate::specs::Values::any_values_of))]
pub fn any_values(alloc: Global, dtype: DataType, value: &Value) -> Result<Items<AnyValue>, Fault>
    ensures { Gives result (any_values_of dtype (view value.now)) }
{
    let entries = entries(value)?;
    each(alloc, entries, |entry| any_value(alloc, dtype, entry))
}
