//! Expressions as trees: each one holds the expressions that it is made of.

use plan_core::{DataType, Items, PlSmallStr};
use plan_expr::{FunctionExpr, LiteralValue, Operator};
use plan_options::FunctionOptions;

/// An expression, with the expressions that it is made of.
#[cycle(expr)]
#[derive(Drop, PartialEq, Eq)]
pub enum Expr {
    /// The expression under another name.
    Alias(Box<Expr>, PlSmallStr),
    /// The values of the column of this name.
    Column(PlSmallStr),
    /// The columns of these names.
    Columns(Items<PlSmallStr>),
    /// The columns of these types.
    DtypeColumn(Items<DataType>),
    /// The columns at these places; a place below 0 counts from the end.
    IndexColumn(Items<i64>),
    /// One value, the same for every row.
    Literal(LiteralValue),
    /// What the operator gives for the two sides, row by row.
    BinaryExpr {
        /// The left side.
        left: Box<Expr>,
        /// What is done with the sides.
        op: Operator,
        /// The right side.
        right: Box<Expr>,
    },
    /// The values in another type.
    Cast {
        /// The values.
        expr: Box<Expr>,
        /// Their type afterwards.
        dtype: DataType,
    },
    /// The values in order.
    Sort {
        /// The values.
        expr: Box<Expr>,
        /// Whether the greatest come first.
        descending: bool,
        /// Whether nulls come last.
        nulls_last: bool,
    },
    /// The values at places.
    Gather {
        /// The values.
        expr: Box<Expr>,
        /// The places.
        idx: Box<Expr>,
        /// Whether there is one place, and so one value.
        returns_scalar: bool,
    },
    /// The values in the order of keys.
    SortBy {
        /// The values.
        expr: Box<Expr>,
        /// The keys.
        by: Vec<Expr>,
    },
    /// What an aggregate makes of all values.
    Agg(AggExpr),
    /// One of two values, by a predicate.
    Ternary {
        /// What decides.
        predicate: Box<Expr>,
        /// The value where it is true.
        truthy: Box<Expr>,
        /// The value elsewhere.
        falsy: Box<Expr>,
    },
    /// What a function makes of its inputs.
    Function {
        /// The inputs.
        input: Vec<Expr>,
        /// The function.
        function: FunctionExpr,
        /// How it is applied.
        options: FunctionOptions,
    },
    /// Each value of lists in a row of its own.
    Explode(Box<Expr>),
    /// The values where another expression is true.
    Filter {
        /// The values.
        input: Box<Expr>,
        /// What decides.
        by: Box<Expr>,
    },
    /// For each row, a function over the rows that are the same in the keys.
    Window {
        /// The function.
        function: Box<Expr>,
        /// The keys.
        partition_by: Vec<Expr>,
    },
    /// All columns.
    Wildcard,
    /// The values of some rows.
    Slice {
        /// The values.
        input: Box<Expr>,
        /// The first row.
        offset: Box<Expr>,
        /// The number of rows.
        length: Box<Expr>,
    },
    /// What the expression gives, without the columns of these names.
    Exclude(Box<Expr>, Items<PlSmallStr>),
    /// The expression under the name of the column that it begins with.
    KeepName(Box<Expr>),
    /// The expression under a name that is made of its own.
    RenameAlias {
        /// The expression.
        expr: Box<Expr>,
    },
    /// The number of rows.
    Len,
    /// The column at this place; a place below 0 counts from the end.
    Nth(i64),
}

/// What an aggregate makes of all values of an expression.
#[cycle(expr)]
#[derive(Drop, PartialEq, Eq)]
pub enum AggExpr {
    /// The least value.
    Min(Box<Expr>),
    /// The greatest value.
    Max(Box<Expr>),
    /// The sum.
    Sum(Box<Expr>),
    /// How many values there are, with nulls where the truth value says so.
    Count(Box<Expr>, bool),
    /// How many different values there are.
    NUnique(Box<Expr>),
    /// The first value.
    First(Box<Expr>),
    /// The last value.
    Last(Box<Expr>),
    /// The list of all values.
    Implode(Box<Expr>),
}
