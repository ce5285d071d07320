//! The expressions that an expression is made of, lent in walk order.
ghost use Rattle.std.specs.Prelude.{◌≡◌, ◌<◌, length, slice_get, Some};
ghost use Rattle.plan_dsl.specs.Children.{lent};

use crate::expr::{AggExpr, Expr};

/// Expressions that are lent, in walk order.
#[derive(Clone, Copy)]
pub(crate) enum Children<'a> {
    /// None.
    Zero,
    /// One.
    One(&'a Expr),
    /// Two.
    Two(&'a Expr, &'a Expr),
    /// Three.
    Three(&'a Expr, &'a Expr, &'a Expr),
    /// Those of a list.
    All(&'a [Expr]),
    /// One, and then those of a list.
    Before(&'a Expr, &'a [Expr]),
    /// One, and then those of a list, last first.
    BeforeLast(&'a Expr, &'a [Expr]),
}

impl<'a> Children<'a> {
    /// How many there are.
    pub(crate) fn len(self) -> usize
        ensures { result ≡ length (lent self.entry) }
    {
        match self {
            Children::Zero => 0,
            Children::One(_) => 1,
            Children::Two(_, _) => 2,
            Children::Three(_, _, _) => 3,
            Children::All(list) => list.len(),
            Children::Before(_, list) | Children::BeforeLast(_, list) => list.len() + 1,
        }
    }

    /// The one at a place.
    pub(crate) fn at(self, index: usize) -> &'a Expr
        requires { index < length (lent self) }
        ensures { slice_get (lent self.entry) index ≡ Some result.now }
    {
        match self {
            Children::Zero => unreachable!(),
            Children::One(first) => first,
            Children::Two(first, second) => { if index == 0 { first } else { second } }
            Children::Three(first, second, third) => match index {
                0 => first,
                1 => second,
                _ => third,
            },
            Children::All(list) => &list[index],
            Children::Before(first, list) => { if index == 0 { first } else { &list[index - 1] } }
            Children::BeforeLast(first, list) => {
                if index == 0 {
                    first
                } else {
                    &list[list.len() - index]
                }
            }
        }
    }
}

impl AggExpr {
    ghost use Rattle.plan_dsl.specs.Parts.{aggregated};

    /// The expression that is aggregated.
    pub fn input(&self) -> &Expr
        ensures { result.now ≡ aggregated self.now }
    {
        match self {
            AggExpr::Min(input)
            | AggExpr::Max(input)
            | AggExpr::Sum(input)
            | AggExpr::Count(input, _)
            | AggExpr::NUnique(input)
            | AggExpr::First(input)
            | AggExpr::Last(input)
            | AggExpr::Implode(input) => input,
        }
    }
}

impl Expr {
    ghost use Rattle.plan_dsl.specs.Parts.{children};

    /// The expressions that this one is made of.
    pub(crate) fn children(&self) -> Children<'_>
        ensures { lent result ≡ children self.now }
    {
        match self {
            Expr::Column(_)
            | Expr::Columns(_)
            | Expr::DtypeColumn(_)
            | Expr::IndexColumn(_)
            | Expr::Literal(_)
            | Expr::Wildcard
            | Expr::Len
            | Expr::Nth(_) => Children::Zero,
            Expr::Alias(expr, _)
            | Expr::Cast { expr, .. }
            | Expr::Sort { expr, .. }
            | Expr::Explode(expr)
            | Expr::Exclude(expr, _)
            | Expr::KeepName(expr)
            | Expr::RenameAlias { expr } => Children::One(expr),
            Expr::Agg(agg) => Children::One(agg.input()),
            Expr::BinaryExpr { left, right, .. } => Children::Two(left, right),
            Expr::Gather { expr, idx, .. } => Children::Two(expr, idx),
            Expr::Filter { input, by } => Children::Two(input, by),
            Expr::Ternary {
                predicate,
                truthy,
                falsy,
            } => Children::Three(truthy, falsy, predicate),
            Expr::Slice {
                input,
                offset,
                length,
            } => Children::Three(input, offset, length),
            Expr::Function { input, .. } => Children::All(input),
            Expr::Window {
                function,
                partition_by,
            } => Children::Before(function, partition_by),
            Expr::SortBy { expr, by } => Children::BeforeLast(expr, by),
        }
    }
}
