//! What binary expressions do.

/// What a binary expression does with its two sides.
#[derive(Clone, Copy, PartialEq, Eq, Hash, Debug)]
pub enum Operator {
    /// Whether the sides are equal; null where a side is null.
    Eq,
    /// Whether the sides differ; null where a side is null.
    NotEq,
    /// Whether the left side is less; null where a side is null.
    Lt,
    /// Whether the left side is less or equal; null where a side is null.
    LtEq,
    /// Whether the left side is greater; null where a side is null.
    Gt,
    /// Whether the left side is greater or equal; null where a side is null.
    GtEq,
    /// Whether the sides are equal, null being equal to null alone.
    EqValidity,
    /// Whether the sides differ, null being equal to null alone.
    NotEqValidity,
    /// Whether both sides are true: false where one is false, else null where one is null.
    And,
    /// Whether a side is true: true where one is true, else null where one is null.
    Or,
    /// Whether just one side is true; null where a side is null.
    Xor,
    /// The sum, wrapped to 64 bits; null where a side is null.
    Plus,
    /// The left side less the right one, wrapped to 64 bits; null where a side is null.
    Minus,
    /// The product, wrapped to 64 bits; null where a side is null.
    Multiply,
}
