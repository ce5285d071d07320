//! The plans that a chain of passes leaves, one after another.
ghost use Rattle.std.specs.Prelude.{◌≡◌, ◌++◌, ◌∷◌, [], OnErr, OnOk};

use plan_core::Items;
use plan_ir::PlanCopy;
use std::alloc::{AllocError, Global};
use std::marker::Model;

/// A pass over a plan. They are listed in the order in which they run.
#[derive(Clone, Copy, PartialEq, Eq, Debug)]
pub enum Pass {
    /// None yet: the plan as it was given.
    Given,
    /// Sorts whose order nothing observes are left out, and nodes are marked that need no order.
    Order,
    /// The plan is pruned to the columns that it needs.
    Prune,
    /// A plan that tells the number of the rows of files alone becomes a count of them.
    Count,
    /// Additions of columns that stand directly on one another become few.
    Cluster,
    /// Rules are called until none of them finds its pattern.
    Rules,
}

/// What a pass left.
#[derive(Drop)]
pub struct Step {
    /// The pass.
    pub pass: Pass,
    /// The plan that it left.
    pub plan: PlanCopy,
    /// How often a rule whose kind isn't `Other` put something in the place of something; 0 for every pass but `Rules`.
    pub replaced: u64,
}

/// What passes left, one after another. A contract sees the list of the steps.
#[derive(Drop)]
pub struct Trail {
    items: Items<Step>,
}

impl Model for Trail {
    ghost use Rattle.std.specs.Prelude.{List};
    ghost use Rattle.plan_top.specs.declared.trail.Step.{Step};

    ghost Value = { List Step };

    ghost view = { λ trail. trail.items };
}

impl Trail {
    /// A trail without steps.
    pub fn new(alloc: Global) -> Self
        ensures { result ≡ [] }
    {
        Trail {
            items: Items::new(alloc),
        }
    }

    /// The steps, in the order in which the passes ran.
    pub fn steps(&self) -> &[Step]
        ensures { result.now ≡ self.now }
    {
        self.items.as_slice()
    }

    /// Appends a step. Refuses for want of memory alone.
    pub(crate) fn push(&mut self, step: Step) -> Result<(), AllocError>
        ensures pushed { OnOk result (self.new ≡ self.old ++ step ∷ []) }
        ensures unchanged { OnErr result (self.new ≡ self.old) }
    {
        self.items.push(step)
    }
}
