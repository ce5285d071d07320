//! What the columns of a join are called over pruned sides.
ghost use Rattle.std.specs.Prelude.{◌≡◌, IfOk, map};
ghost use Rattle.plan_prune_parts.specs.Left.{name_now};

use crate::origins::Origins;
use plan_core::{Items, PlSmallStr, Schema};
use plan_join::{Side, right_name};
use std::alloc::{AllocError, Global};

/// What the columns of a join are called over pruned sides.
#[derive(Drop)]
pub struct JoinNames {
    /// The columns of its sides, by the names under which it put them out.
    pub origins: Origins,
    /// What is put behind the name of a right column whose name a left one has.
    pub suffix: PlSmallStr,
    /// The left columns that it puts out now.
    pub left: Schema,
}

impl JoinNames {
    /// What a name is called now: the name of the column that was put out under it, with the suffix where that is a right one and a
    /// left one has its name; a name under which none was put out stays. Refuses for want of memory alone.
    pub fn now(&self, alloc: Global, name: &str) -> Result<PlSmallStr, AllocError>
        ensures { IfOk result (λ now. now ≡ name_now self.now name.now) }
    {
        match self.origins.get(name) {
            Some((Side::Left, own)) => PlSmallStr::new(alloc, own),
            Some((Side::Right, own)) => right_name(alloc, self.suffix.as_str(), &self.left, own),
            None => PlSmallStr::new(alloc, name),
        }
    }

    /// What names are called now, at their places. Refuses for want of memory alone.
    pub fn all_now(
        &self,
        alloc: Global,
        names: &[PlSmallStr],
    ) -> Result<Items<PlSmallStr>, AllocError>
        ensures { IfOk result (λ now. now ≡ map (name_now self.now) names.now) }
    {
        let mut now = Items::new(alloc);
        for name in names {
            now.push(self.now(alloc, name.as_str())?)?;
        }
        Ok(now)
    }
}
