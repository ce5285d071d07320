//! What a table is found by.

use plan_core::PlSmallStr;

/// The source that holds a table.
#[derive(Drop, PartialEq, Eq, Hash, Debug)]
pub enum SourceKey {
    /// The file of this path.
    Path(PlSmallStr),
    /// The buffer of this number.
    Buffer(u32),
    /// The frame that is handed in under this number.
    Frame(u32),
}
