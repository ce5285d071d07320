//! Why a call refuses.
ghost use Rattle.std.specs.Prelude.{◌≡◌};

use crate::arena::Node;
use std::alloc::AllocError;
use thiserror::Error;

/// Where a fault lies: a plan node, or none outside plans, and a place that is counted from 0.
/// A place above 4294967295 is given as 4294967295.
#[derive(Clone, Copy, PartialEq, Eq, Debug)]
pub struct At {
    /// The plan node, where the fault lies in a plan.
    pub node: Option<Node>,
    /// The place in the node, or of the item outside plans.
    pub place: u32,
}

/// Why a call refused.
#[derive(Clone, Copy, PartialEq, Eq, Debug, Error)]
pub enum PolarsError {
    /// A named column is absent.
    #[error("a column is not found")]
    SchemaFieldNotFound(At),
    /// A name comes twice where names are distinct.
    #[error("a name stands twice")]
    Duplicate(At),
    /// Types or schemas disagree.
    #[error("types or schemas differ")]
    SchemaMismatch(At),
    /// The operation has no such form.
    #[error("the operation has no such form")]
    InvalidOperation(At),
    /// A number leads nowhere, or leads twice to one place.
    #[error("a number leads nowhere, or twice to one place")]
    ComputeError(At),
    /// There was not enough memory.
    #[error("out of memory")]
    OutOfMemory,
}

/// What a call gives that may refuse.
pub type PolarsResult<T> = Result<T, PolarsError>;

impl From<AllocError> for PolarsError {
    ghost use Rattle.std.specs.Prelude.{◌≡◌};
    ghost use Rattle.plan_core.specs.declared.error.PolarsError.TheVariants.{OutOfMemory as out_of_memory};

    ghost from_gives = { λ _ r. r ≡ out_of_memory };

    // The only cause of an `AllocError` is memory.
    fn from(_error: AllocError) -> Self {
        PolarsError::OutOfMemory
    }
}
