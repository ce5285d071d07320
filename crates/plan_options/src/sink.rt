//! Where the rows of a plan go.

/// Where the rows of a plan go.
#[derive(Clone, Copy, PartialEq, Eq, Hash, Debug)]
pub enum SinkType {
    /// They are kept in memory.
    Memory,
}
