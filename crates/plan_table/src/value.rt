//! The values of tables.
ghost use Rattle.std.specs.Prelude.{◌≡◌, IfOk};

use plan_core::{Items, PlSmallStr, TryClone};
use std::alloc::{AllocError, Global};

/// A single value, which is no list.
#[derive(Drop, PartialEq, Eq, Hash, Debug)]
pub enum PlainValue {
    /// No value.
    Null,
    /// A whole number of 64 signed bits.
    Int64(i64),
    /// A text.
    String(PlSmallStr),
    /// A truth value.
    Boolean(bool),
}

impl TryClone for PlainValue {
    fn try_clone(&self, alloc: Global) -> Result<Self, AllocError>
        ensures { IfOk result (λ r. r ≡ self.now) }
    {
        match self {
            PlainValue::Null => Ok(PlainValue::Null),
            PlainValue::Int64(number) => Ok(PlainValue::Int64(*number)),
            PlainValue::String(text) => Ok(PlainValue::String(text.try_clone(alloc)?)),
            PlainValue::Boolean(truth) => Ok(PlainValue::Boolean(*truth)),
        }
    }
}

/// A value in a row of a column.
#[derive(Drop, PartialEq, Eq, Hash, Debug)]
pub enum AnyValue {
    /// No value.
    Null,
    /// A whole number of 64 signed bits.
    Int64(i64),
    /// A text.
    String(PlSmallStr),
    /// A truth value.
    Boolean(bool),
    /// A list of single values, in order.
    List(Items<PlainValue>),
}

impl TryClone for AnyValue {
    fn try_clone(&self, alloc: Global) -> Result<Self, AllocError>
        ensures { IfOk result (λ r. r ≡ self.now) }
    {
        match self {
            AnyValue::Null => Ok(AnyValue::Null),
            AnyValue::Int64(number) => Ok(AnyValue::Int64(*number)),
            AnyValue::String(text) => Ok(AnyValue::String(text.try_clone(alloc)?)),
            AnyValue::Boolean(truth) => Ok(AnyValue::Boolean(*truth)),
            AnyValue::List(values) => Ok(AnyValue::List(values.try_clone(alloc)?)),
        }
    }
}
