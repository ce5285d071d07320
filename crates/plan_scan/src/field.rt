//! A column of a schema by itself.
ghost use Rattle.std.specs.Prelude.{◌≡◌, IfOk};

use plan_core::{DataType, PlSmallStr, TryClone};
use std::alloc::{AllocError, Global};

/// A column of a schema: its name and its type.
#[derive(Drop, PartialEq, Eq, Debug)]
pub struct Field {
    /// The name.
    pub name: PlSmallStr,
    /// The type of the values.
    pub dtype: DataType,
}

impl TryClone for Field {
    fn try_clone(&self, alloc: Global) -> Result<Self, AllocError>
        ensures { IfOk result (λ r. r ≡ self.now) }
    {
        Ok(Field {
            name: self.name.try_clone(alloc)?,
            dtype: self.dtype,
        })
    }
}
