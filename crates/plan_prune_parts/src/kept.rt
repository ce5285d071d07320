//! What is kept of a join while its sides are pruned.

use crate::Origins;
use plan_core::Names;

/// What is kept of a join that is asked names, from before its sides are pruned.
#[derive(Drop)]
pub struct Kept {
    /// The names that are asked of it.
    pub asked: Names,
    /// The columns of its sides, by the names under which it puts them out.
    pub origins: Origins,
}
