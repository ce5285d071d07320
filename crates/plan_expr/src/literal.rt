//! Values that are written out.
ghost use Rattle.std.specs.Prelude.{◌≡◌, IfOk};

use plan_core::{PlSmallStr, PlainType, TryClone};
use std::alloc::{AllocError, Global};

/// A value that is written out.
#[derive(Drop, PartialEq, Eq, Debug)]
pub enum LiteralValue {
    /// No value, of a type.
    Null(PlainType),
    /// A whole number of 64 signed bits.
    Int64(i64),
    /// A text.
    String(PlSmallStr),
    /// A truth value.
    Boolean(bool),
}

impl TryClone for LiteralValue {
    fn try_clone(&self, alloc: Global) -> Result<Self, AllocError>
        ensures { IfOk result (λ r. r ≡ self.now) }
    {
        match self {
            LiteralValue::Null(plain) => Ok(LiteralValue::Null(*plain)),
            LiteralValue::Int64(number) => Ok(LiteralValue::Int64(*number)),
            LiteralValue::String(text) => Ok(LiteralValue::String(text.try_clone(alloc)?)),
            LiteralValue::Boolean(truth) => Ok(LiteralValue::Boolean(*truth)),
        }
    }
}
