//! A column of a table.
ghost use Rattle.std.specs.Prelude.{◌≡◌, IfOk};

use crate::value::AnyValue;
use plan_core::{DataType, Items, PlSmallStr, TryClone};
use std::alloc::{AllocError, Global};

/// A column: its name, its type, and its values from the first row on.
#[derive(Drop, PartialEq, Eq, Debug)]
pub struct Column {
    /// The name.
    pub name: PlSmallStr,
    /// The type of the values.
    pub dtype: DataType,
    /// The values, one a row: each null or of the type.
    pub values: Items<AnyValue>,
}

impl TryClone for Column {
    fn try_clone(&self, alloc: Global) -> Result<Self, AllocError>
        ensures { IfOk result (λ r. r ≡ self.now) }
    {
        Ok(Column {
            name: self.name.try_clone(alloc)?,
            dtype: self.dtype,
            values: self.values.try_clone(alloc)?,
        })
    }
}
