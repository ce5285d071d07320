//! What stands in columns, as JSON values.
ghost use Rattle.std.specs.Prelude.{◌≡◌, IfOk};
ghost use Rattle.serde_json.specs.View.{view};
ghost use Rattle.plan_text_pieces.specs.Cells.{single_data, value_data};
ghost use Rattle.plan_text_pieces.specs.Values.{list_data};

use crate::lists::each;
use plan_table::{AnyValue, PlainValue};
use serde_json::Value;
use std::alloc::{AllocError, Global};

/// A single value: null, a whole number, a text or a truth value.
fn single(alloc: Global, value: &PlainValue) -> Result<Value, AllocError>
    ensures { IfOk result (λ v. view v ≡ single_data value.now) }
{
    match value {
        PlainValue::Null => Ok(Value::Null),
        PlainValue::Int64(number) => Ok(Value::from(*number)),
        PlainValue::String(text) => Value::try_from_str(alloc, text.as_str()),
        PlainValue::Boolean(truth) => Ok(Value::Bool(*truth)),
    }
}

/// The array of single values, in order.
fn singles(alloc: Global, values: &[PlainValue]) -> Result<Value, AllocError>
    ensures { IfOk result (λ v. view v ≡ list_data single_data values.now) }
{
    let written = each(alloc, values, |value| single(alloc, value))?;
    Ok(Value::Array(written))
}

/// A value: null, a whole number, a text, a truth value, or an array of such.
pub fn cell(alloc: Global, value: &AnyValue) -> Result<Value, AllocError>
    ensures { IfOk result (λ v. view v ≡ value_data value.now) }
{
    match value {
        AnyValue::Null => Ok(Value::Null),
        AnyValue::Int64(number) => Ok(Value::from(*number)),
        AnyValue::String(text) => Value::try_from_str(alloc, text.as_str()),
        AnyValue::Boolean(truth) => Ok(Value::Bool(*truth)),
        AnyValue::List(values) => singles(alloc, values.as_slice()),
    }
}
