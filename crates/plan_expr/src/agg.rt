//! Aggregates: what is made of all values of an expression.
ghost use Rattle.std.specs.Prelude.{◌≡◌};
ghost use Rattle.plan_expr.specs.Aggregates.{agg_input, agg_op, agg_over};

use plan_core::Node;

/// What an aggregate is beside the expression whose values it takes.
#[derive(Clone, Copy, PartialEq, Eq, Debug)]
pub enum Aggregate {
    /// The least value; nulls don't count, and it is null where there is none.
    Min,
    /// The greatest value; nulls don't count, and it is null where there is none.
    Max,
    /// The sum; nulls don't count, and it is 0 where there is none.
    Sum,
    /// How many values there are: all of them where it is true, and else those that aren't null.
    Count(bool),
    /// How many values are distinct; null counts as one.
    NUnique,
    /// The value of the first row, null where there is none.
    First,
    /// The value of the last row, null where there is none.
    Last,
    /// The list of all values.
    Implode,
}

/// What is made of all values of an expression, which it names by its number.
#[derive(Clone, Copy, PartialEq, Eq, Debug)]
pub enum IRAggExpr {
    /// The least value; nulls don't count, and it is null where there is none.
    Min(Node),
    /// The greatest value; nulls don't count, and it is null where there is none.
    Max(Node),
    /// The sum; nulls don't count, and it is 0 where there is none.
    Sum(Node),
    /// How many values there are: all of them where it is true, and else those that aren't null.
    Count(Node, bool),
    /// How many values are distinct; null counts as one.
    NUnique(Node),
    /// The value of the first row, null where there is none.
    First(Node),
    /// The value of the last row, null where there is none.
    Last(Node),
    /// The list of all values.
    Implode(Node),
}

impl IRAggExpr {
    /// The number of the expression whose values it takes.
    pub fn input(&self) -> Node
        ensures { result ≡ agg_input self.now }
    {
        match self {
            IRAggExpr::Min(input)
            | IRAggExpr::Max(input)
            | IRAggExpr::Sum(input)
            | IRAggExpr::Count(input, _)
            | IRAggExpr::NUnique(input)
            | IRAggExpr::First(input)
            | IRAggExpr::Last(input)
            | IRAggExpr::Implode(input) => *input,
        }
    }

    /// What it is beside that expression.
    pub fn aggregate(&self) -> Aggregate
        ensures { result ≡ agg_op self.now }
    {
        match self {
            IRAggExpr::Min(_) => Aggregate::Min,
            IRAggExpr::Max(_) => Aggregate::Max,
            IRAggExpr::Sum(_) => Aggregate::Sum,
            IRAggExpr::Count(_, include_nulls) => Aggregate::Count(*include_nulls),
            IRAggExpr::NUnique(_) => Aggregate::NUnique,
            IRAggExpr::First(_) => Aggregate::First,
            IRAggExpr::Last(_) => Aggregate::Last,
            IRAggExpr::Implode(_) => Aggregate::Implode,
        }
    }

    /// The same of the values of another expression.
    pub fn over(&self, input: Node) -> IRAggExpr
        ensures { result ≡ agg_over self.now input }
    {
        match self {
            IRAggExpr::Min(_) => IRAggExpr::Min(input),
            IRAggExpr::Max(_) => IRAggExpr::Max(input),
            IRAggExpr::Sum(_) => IRAggExpr::Sum(input),
            IRAggExpr::Count(_, include_nulls) => IRAggExpr::Count(input, *include_nulls),
            IRAggExpr::NUnique(_) => IRAggExpr::NUnique(input),
            IRAggExpr::First(_) => IRAggExpr::First(input),
            IRAggExpr::Last(_) => IRAggExpr::Last(input),
            IRAggExpr::Implode(_) => IRAggExpr::Implode(input),
        }
    }
}
