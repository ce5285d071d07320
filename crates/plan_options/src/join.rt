//! The options of joins.
ghost use Rattle.std.specs.Prelude.{◌≡◌, IfOk};

use plan_core::{PlSmallStr, TryClone};
use std::alloc::{AllocError, Global};

/// Which pairs of rows a join gives, and which rows without a pair.
#[derive(Clone, Copy, PartialEq, Eq, Hash, Debug)]
pub enum JoinType {
    /// The pairs whose keys are equal.
    Inner,
    /// These, and each left row without a pair.
    Left,
    /// These, and each right row without a pair.
    Right,
    /// These, and each row of either side without a pair.
    Full,
    /// All pairs, or those that meet a predicate.
    Cross,
    /// The left rows that have a pair.
    Semi,
    /// The left rows that have no pair.
    Anti,
    /// The pairs whose keys meet inequalities.
    IEJoin,
}

/// Whether a pair of key columns is put out as one.
#[derive(Clone, Copy, PartialEq, Eq, Hash, Debug)]
pub enum JoinCoalesce {
    /// As is usual for the join.
    JoinSpecific,
    /// They are put out as one.
    CoalesceColumns,
    /// Both are kept.
    KeepColumns,
}

// As is usual for the join.
impl Default for JoinCoalesce {
    ghost use Rattle.std.specs.Prelude.{◌≡◌};
    ghost use Rattle.plan_options.specs.Join.{default_coalesce};

    ghost is_default = { λ coalesce. coalesce ≡ default_coalesce };

    fn default() -> Self {
        JoinCoalesce::JoinSpecific
    }
}

/// Which order of the inputs the rows of a join keep.
#[derive(Clone, Copy, PartialEq, Eq, Hash, Debug)]
pub enum MaintainOrderJoin {
    /// None: any order will do.
    None,
    /// That of the left side.
    Left,
    /// That of the right side.
    Right,
    /// That of the left side, and then that of the right.
    LeftRight,
    /// That of the right side, and then that of the left.
    RightLeft,
}

// Any order will do.
impl Default for MaintainOrderJoin {
    ghost use Rattle.std.specs.Prelude.{◌≡◌};
    ghost use Rattle.plan_options.specs.Join.{default_order};

    ghost is_default = { λ order. order ≡ default_order };

    fn default() -> Self {
        MaintainOrderJoin::None
    }
}

/// How a left key stands to the right key of its pair.
#[derive(Clone, Copy, PartialEq, Eq, Hash, Debug)]
pub enum InequalityOperator {
    /// It is less.
    Lt,
    /// It is less or equal.
    LtEq,
    /// It is greater.
    Gt,
    /// It is greater or equal.
    GtEq,
}

/// The inequalities that the keys of a join meet.
#[derive(Clone, Copy, PartialEq, Eq, Hash, Debug)]
pub struct IEJoinOptions {
    /// That of the first pair of keys.
    pub operator1: InequalityOperator,
    /// That of the second pair of keys, where there is one.
    pub operator2: Option<InequalityOperator>,
}

/// What a join does beside its keys.
#[derive(Drop, PartialEq, Eq, Debug)]
pub struct JoinArgs {
    /// Which pairs of rows it gives, and which rows without a pair.
    pub how: JoinType,
    /// Whether a pair of key columns is put out as one.
    pub coalesce: JoinCoalesce,
    /// What is put behind the name of a right column whose name the left side has; absent, `_right`.
    pub suffix: Option<PlSmallStr>,
    /// Whether null is equal to null.
    pub join_nulls: bool,
    /// Which order of the inputs the rows keep.
    pub maintain_order: MaintainOrderJoin,
    /// The first row that is put out, and how many rows; all of them where it is absent.
    pub slice: Option<(i64, usize)>,
}

impl JoinArgs {
    ghost use Rattle.plan_options.specs.Join.{suffix_of, coalesces};

    /// What is put behind the name of a right column whose name the left side has: the suffix, or
    /// `_right` where it is absent.
    pub fn suffix(&self) -> &str
        ensures { result.now ≡ suffix_of self.now }
    {
        match &self.suffix {
            Some(suffix) => suffix.as_str(),
            None => "_right",
        }
    }

    /// Whether the join puts each pair of key columns out as one: a left, inner or right join unless
    /// columns are kept, and a full join where it is told so.
    pub fn should_coalesce(&self) -> bool
        ensures { result ≡ coalesces self.now.how self.now.coalesce }
    {
        match self.how {
            JoinType::Inner | JoinType::Left | JoinType::Right => {
                !matches!(self.coalesce, JoinCoalesce::KeepColumns)
            }
            JoinType::Full => matches!(self.coalesce, JoinCoalesce::CoalesceColumns),
            JoinType::Cross | JoinType::Semi | JoinType::Anti | JoinType::IEJoin => false,
        }
    }
}

impl TryClone for JoinArgs {
    fn try_clone(&self, alloc: Global) -> Result<Self, AllocError>
        ensures { IfOk result (λ r. r ≡ self.now) }
    {
        Ok(JoinArgs {
            how: self.how,
            coalesce: self.coalesce,
            suffix: self.suffix.try_clone(alloc)?,
            join_nulls: self.join_nulls,
            maintain_order: self.maintain_order,
            slice: self.slice,
        })
    }
}
