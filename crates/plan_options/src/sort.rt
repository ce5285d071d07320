//! The options of sorts.
ghost use Rattle.std.specs.Prelude.{◌≡◌, IfOk};

use plan_core::{Items, TryClone};
use std::alloc::{AllocError, Global};

/// How rows are sorted by several keys.
#[derive(Drop, PartialEq, Eq, Debug)]
pub struct SortMultipleOptions {
    /// Whether greater values come first: by each key, or one value for all keys.
    pub descending: Items<bool>,
    /// Whether nulls come last: by each key, or one value for all keys.
    pub nulls_last: Items<bool>,
    /// Whether several threads may sort.
    pub multithreaded: bool,
    /// Whether rows with the same keys stay in the order of the input.
    pub maintain_order: bool,
    /// How many rows are put out; all of them where it is absent.
    pub limit: Option<u32>,
}

impl TryClone for SortMultipleOptions {
    fn try_clone(&self, alloc: Global) -> Result<Self, AllocError>
        ensures { IfOk result (λ r. r ≡ self.now) }
    {
        Ok(SortMultipleOptions {
            descending: self.descending.try_clone(alloc)?,
            nulls_last: self.nulls_last.try_clone(alloc)?,
            multithreaded: self.multithreaded,
            maintain_order: self.maintain_order,
            limit: self.limit,
        })
    }
}
