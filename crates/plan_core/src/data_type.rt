//! The types of columns.
ghost use Rattle.std.specs.Prelude.{◌≡◌, IfOk};
ghost use Rattle.plan_core.specs.Columns.{plain_type_of};

use crate::try_clone::TryClone;
use std::alloc::{AllocError, Global};

/// The type of a column.
#[derive(Clone, Copy, PartialEq, Eq, Hash, Debug)]
pub enum DataType {
    /// Whole numbers of 64 bits.
    Int64,
    /// Text.
    String,
    /// Truth values.
    Boolean,
    /// Lists of such values.
    List(PlainType),
}

impl DataType {
    /// The type of a single value, if the values of the column are no lists.
    pub fn plain_type(self) -> Option<PlainType>
        ensures { result ≡ plain_type_of self }
    {
        match self {
            DataType::Int64 => Some(PlainType::Int64),
            DataType::String => Some(PlainType::String),
            DataType::Boolean => Some(PlainType::Boolean),
            DataType::List(_) => None,
        }
    }
}

impl TryClone for DataType {
    fn try_clone(&self, alloc: Global) -> Result<Self, AllocError>
        ensures { IfOk result (λ r. r ≡ self.now) }
    {
        let _ = alloc;
        Ok(*self)
    }
}

/// The type of a single value, which is no list.
#[derive(Clone, Copy, PartialEq, Eq, Hash, Debug)]
pub enum PlainType {
    /// A whole number of 64 bits.
    Int64,
    /// A text.
    String,
    /// A truth value.
    Boolean,
}

impl From<PlainType> for DataType {
    ghost use Rattle.std.specs.Prelude.{◌≡◌};
    ghost use Rattle.plan_core.specs.Columns.{plain};

    ghost from_gives = { λ t r. r ≡ plain t };

    /// The type of a column of such values.
    fn from(plain: PlainType) -> Self {
        match plain {
            PlainType::Int64 => DataType::Int64,
            PlainType::String => DataType::String,
            PlainType::Boolean => DataType::Boolean,
        }
    }
}
