//! The values that texts spell.
ghost use Rattle.std.specs.Prelude.{◌≡◌, IfOk};
ghost use Rattle.plan_hive.specs.Values.{number_of as number_spelled, spelled, truth_of as truth_spelled, value_as};

use plan_core::{DataType, PlSmallStr, TryClone};
use plan_table::AnyValue;
use std::alloc::{AllocError, Global};

/// The truth value that a text spells: `true` or `false`.
pub(crate) fn truth_of(text: &str) -> Option<bool>
    ensures { result ≡ truth_spelled text.now }
{
    text.parse().ok()
}

/// The whole number that a text spells: digits with a `-` or nothing before them, if it fits 64 signed bits.
pub(crate) fn number_of(text: &str) -> Option<i64>
    ensures { result ≡ number_spelled text.now }
{
    if text.starts_with('+') {
        return None;
    }
    text.parse().ok()
}

/// The value of a type that a text spells, if it does.
fn value_of(
    alloc: Global,
    dtype: DataType,
    text: &PlSmallStr,
) -> Result<Option<AnyValue>, AllocError>
    ensures { IfOk result (λ r. r ≡ spelled dtype text.now) }
{
    match dtype {
        DataType::Int64 => match number_of(text.as_str()) {
            None => Ok(None),
            Some(number) => Ok(Some(AnyValue::Int64(number))),
        },
        DataType::String => Ok(Some(AnyValue::String(text.try_clone(alloc)?))),
        DataType::Boolean => match truth_of(text.as_str()) {
            None => Ok(None),
            Some(truth) => Ok(Some(AnyValue::Boolean(truth))),
        },
        DataType::List(_) => Ok(None),
    }
}

/// The value of a type that a text spells, if it does; null where there is no text.
pub(crate) fn read_value(
    alloc: Global,
    dtype: DataType,
    text: &Option<PlSmallStr>,
) -> Result<Option<AnyValue>, AllocError>
    ensures { IfOk result (λ r. r ≡ value_as dtype text.now) }
{
    match text {
        None => Ok(Some(AnyValue::Null)),
        Some(text) => value_of(alloc, dtype, text),
    }
}
