//! The options of distinct rows.
ghost use Rattle.std.specs.Prelude.{◌≡◌, IfOk};

use plan_core::{Items, PlSmallStr, TryClone};
use std::alloc::{AllocError, Global};

/// Which row of those that are the same is kept.
#[derive(Clone, Copy, PartialEq, Eq, Hash, Debug)]
pub enum UniqueKeepStrategy {
    /// The first.
    First,
    /// The last.
    Last,
    /// None, but of those that are alone.
    None,
    /// Any of them.
    Any,
}

// Any of them.
impl Default for UniqueKeepStrategy {
    ghost use Rattle.std.specs.Prelude.{◌≡◌};
    ghost use Rattle.plan_options.specs.Distinct.{default_keep};

    ghost is_default = { λ keep. keep ≡ default_keep };

    fn default() -> Self {
        UniqueKeepStrategy::Any
    }
}

/// The column of a name.
#[derive(Drop, PartialEq, Eq, Debug)]
pub struct Selector(pub PlSmallStr);

impl TryClone for Selector {
    fn try_clone(&self, alloc: Global) -> Result<Self, AllocError>
        ensures { IfOk result (λ r. r ≡ self.now) }
    {
        Ok(Selector(self.0.try_clone(alloc)?))
    }
}

/// What a caller asks of distinct rows.
#[derive(Drop, PartialEq, Eq, Debug)]
pub struct DistinctOptionsDSL {
    /// The columns in which rows are the same; all of them where it is absent.
    pub subset: Option<Items<Selector>>,
    /// Whether the rows that are kept stand in the order of the input.
    pub maintain_order: bool,
    /// Which row of those that are the same is kept.
    pub keep_strategy: UniqueKeepStrategy,
}

// Any of the rows that are the same in all columns, in any order.
impl Default for DistinctOptionsDSL {
    ghost use Rattle.std.specs.Prelude.{◌≡◌};
    ghost use Rattle.plan_options.specs.Distinct.{default_distinct};

    ghost is_default = { λ options. options ≡ default_distinct };

    fn default() -> Self {
        DistinctOptionsDSL {
            subset: None,
            maintain_order: false,
            keep_strategy: UniqueKeepStrategy::Any,
        }
    }
}

impl TryClone for DistinctOptionsDSL {
    fn try_clone(&self, alloc: Global) -> Result<Self, AllocError>
        ensures { IfOk result (λ r. r ≡ self.now) }
    {
        Ok(DistinctOptionsDSL {
            subset: self.subset.try_clone(alloc)?,
            maintain_order: self.maintain_order,
            keep_strategy: self.keep_strategy,
        })
    }
}

/// Which rows of a plan's node are distinct, and which of them are kept.
#[derive(Drop, PartialEq, Eq, Debug)]
pub struct DistinctOptionsIR {
    /// The names of the columns in which rows are the same; all of them where it is absent.
    pub subset: Option<Items<PlSmallStr>>,
    /// Whether the rows that are kept stand in the order of the input.
    pub maintain_order: bool,
    /// Which row of those that are the same is kept.
    pub keep_strategy: UniqueKeepStrategy,
    /// The first row that is put out, and how many rows; all of them where it is absent.
    pub slice: Option<(i64, usize)>,
}

impl TryClone for DistinctOptionsIR {
    fn try_clone(&self, alloc: Global) -> Result<Self, AllocError>
        ensures { IfOk result (λ r. r ≡ self.now) }
    {
        Ok(DistinctOptionsIR {
            subset: self.subset.try_clone(alloc)?,
            maintain_order: self.maintain_order,
            keep_strategy: self.keep_strategy,
            slice: self.slice,
        })
    }
}
