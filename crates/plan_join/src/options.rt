//! What a join is told beside its keys.
ghost use Rattle.std.specs.Prelude.{◌≡◌, IfOk};

use plan_core::TryClone;
use plan_expr::ExprIR;
use plan_options::{IEJoinOptions, JoinArgs};
use std::alloc::{AllocError, Global};

/// What only some kinds of joins are told.
#[derive(Drop, PartialEq, Eq, Debug)]
pub enum JoinTypeOptionsIR {
    /// The inequalities that the keys of a join by inequalities meet.
    IEJoin(IEJoinOptions),
    /// What the pairs of a cross join meet.
    Cross {
        /// A condition on a pair of rows, over the columns that the join puts out.
        predicate: ExprIR,
    },
}

impl TryClone for JoinTypeOptionsIR {
    fn try_clone(&self, alloc: Global) -> Result<Self, AllocError>
        ensures { IfOk result (λ r. r ≡ self.now) }
    {
        match self {
            JoinTypeOptionsIR::IEJoin(operators) => Ok(JoinTypeOptionsIR::IEJoin(*operators)),
            JoinTypeOptionsIR::Cross { predicate } => Ok(JoinTypeOptionsIR::Cross {
                predicate: predicate.try_clone(alloc)?,
            }),
        }
    }
}

/// What a join is told beside its keys.
#[derive(Drop, PartialEq, Eq, Debug)]
pub struct JoinOptions {
    /// Whether its sides may be computed at once. Nothing depends on it.
    pub allow_parallel: bool,
    /// Whether they are. Nothing depends on it.
    pub force_parallel: bool,
    /// Which pairs of rows it gives, in which order, and how it names its columns.
    pub args: JoinArgs,
    /// What only its kind is told, if anything.
    pub options: Option<JoinTypeOptionsIR>,
}

impl TryClone for JoinOptions {
    fn try_clone(&self, alloc: Global) -> Result<Self, AllocError>
        ensures { IfOk result (λ r. r ≡ self.now) }
    {
        Ok(JoinOptions {
            allow_parallel: self.allow_parallel,
            force_parallel: self.force_parallel,
            args: self.args.try_clone(alloc)?,
            options: self.options.try_clone(alloc)?,
        })
    }
}
