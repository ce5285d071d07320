//! Expressions taken apart into what they are and those that they are made of.
ghost use Rattle.std.specs.Prelude.{◌≡◌, ◌⊎◌, ◌∷◌, []};
ghost use Rattle.plan_dsl.specs.Owned.{owned};
ghost use Rattle.plan_dsl.specs.Parts.{aggregated, aggregate_of, arity_of, children, head_of};

use crate::arity::Arity;
use crate::expr::{AggExpr, Expr};
use crate::parts::{Head, Owned};
use plan_expr::Aggregate;

impl AggExpr {
    /// The aggregate, and the expression that is aggregated.
    pub(crate) fn into_parts(self) -> (Aggregate, Box<Expr>)
        ensures aggregate { result.0 ≡ aggregate_of self }
        ensures input { result.1.value ≡ aggregated self }
    {
        match self {
            AggExpr::Min(input) => (Aggregate::Min, input),
            AggExpr::Max(input) => (Aggregate::Max, input),
            AggExpr::Sum(input) => (Aggregate::Sum, input),
            AggExpr::Count(input, nulls) => (Aggregate::Count(nulls), input),
            AggExpr::NUnique(input) => (Aggregate::NUnique, input),
            AggExpr::First(input) => (Aggregate::First, input),
            AggExpr::Last(input) => (Aggregate::Last, input),
            AggExpr::Implode(input) => (Aggregate::Implode, input),
        }
    }
}

impl Expr {
    /// What the expression is, and the expressions that it is made of.
    pub(crate) fn into_parts(self) -> (Head, Owned)
        ensures head { result.0 ≡ head_of self }
        ensures children { owned result.1 ≡ children self }
    {
        match self.arity() {
            Arity::Zero => (self.into_leaf(), Owned::Zero),
            Arity::One => {
                let (head, expr) = self.into_one();
                (head, Owned::One(expr))
            }
            Arity::Two => self.into_two(),
            Arity::Three => self.into_three(),
            Arity::All | Arity::Before => self.into_many(),
        }
    }

    /// What the expression is, which is made of none.
    fn into_leaf(self) -> Head
        requires { arity_of (head_of self) ≡ Arity.Zero }
        ensures head { result ≡ head_of self }
        ensures children { [] ≡ children self }
    {
        match self {
            Expr::Column(name) => Head::Column(name),
            Expr::Columns(names) => Head::Columns(names),
            Expr::DtypeColumn(types) => Head::DtypeColumn(types),
            Expr::IndexColumn(places) => Head::IndexColumn(places),
            Expr::Literal(value) => Head::Literal(value),
            Expr::Wildcard => Head::Wildcard,
            Expr::Len => Head::Len,
            Expr::Nth(place) => Head::Nth(place),
            _ => unreachable!(),
        }
    }

    /// What the expression is, and the one that it is made of.
    fn into_one(self) -> (Head, Box<Expr>)
        requires { arity_of (head_of self) ≡ Arity.One }
        ensures head { result.0 ≡ head_of self }
        ensures children { result.1.value ∷ [] ≡ children self }
    {
        match self {
            Expr::Alias(expr, name) => (Head::Alias(name), expr),
            Expr::Cast { expr, dtype } => (Head::Cast(dtype), expr),
            Expr::Sort {
                expr,
                descending,
                nulls_last,
            } => (Head::Sort(descending, nulls_last), expr),
            Expr::Agg(agg) => {
                let (aggregate, input) = agg.into_parts();
                (Head::Agg(aggregate), input)
            }
            Expr::Explode(expr) => (Head::Explode, expr),
            Expr::Exclude(expr, names) => (Head::Exclude(names), expr),
            Expr::KeepName(expr) => (Head::KeepName, expr),
            Expr::RenameAlias { expr } => (Head::RenameAlias, expr),
            _ => unreachable!(),
        }
    }

    /// What the expression is, and the two that it is made of.
    fn into_two(self) -> (Head, Owned)
        requires { arity_of (head_of self) ≡ Arity.Two }
        ensures head { result.0 ≡ head_of self }
        ensures children { owned result.1 ≡ children self }
    {
        match self {
            Expr::BinaryExpr { left, op, right } => {
                let sides = Owned::Two(left, right);
                (Head::BinaryExpr(op), sides)
            }
            Expr::Gather {
                expr,
                idx,
                returns_scalar,
            } => {
                let parts = Owned::Two(expr, idx);
                (Head::Gather(returns_scalar), parts)
            }
            Expr::Filter { input, by } => {
                let parts = Owned::Two(input, by);
                (Head::Filter, parts)
            }
            _ => unreachable!(),
        }
    }

    /// What the expression is, and the three that it is made of.
    fn into_three(self) -> (Head, Owned)
        requires { arity_of (head_of self) ≡ Arity.Three }
        ensures head { result.0 ≡ head_of self }
        ensures children { owned result.1 ≡ children self }
    {
        match self {
            Expr::Ternary {
                predicate,
                truthy,
                falsy,
            } => (Head::Ternary, Owned::Three(truthy, falsy, predicate)),
            Expr::Slice {
                input,
                offset,
                length,
            } => (Head::Slice, Owned::Three(input, offset, length)),
            _ => unreachable!(),
        }
    }

    /// What the expression is, which has a list of others, and those that it is made of.
    fn into_many(self) -> (Head, Owned)
        requires { arity_of (head_of self) ≡ Arity.All ⊎ (arity_of (head_of self) ≡ Arity.Before) }
        ensures head { result.0 ≡ head_of self }
        ensures children { owned result.1 ≡ children self }
    {
        match self {
            Expr::Function {
                input,
                function,
                options,
            } => (Head::Function(function, options), Owned::All(input)),
            Expr::Window {
                function,
                partition_by,
            } => {
                let parts = Owned::Before(function, partition_by);
                (Head::Window, parts)
            }
            Expr::SortBy { expr, mut by } => {
                by.reverse();
                (Head::SortBy, Owned::Before(expr, by))
            }
            _ => unreachable!(),
        }
    }

    /// The expressions that the expression is made of.
    pub(crate) fn into_children(self) -> Owned
        ensures { owned result ≡ children self }
    {
        self.into_parts().1
    }
}
