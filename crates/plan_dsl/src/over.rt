//! Expressions put together of what they are and those that they are made of.
ghost use Rattle.std.specs.Prelude.{◌≡◌, ◌<◌, ◌∷◌, [], length, IfOk};
ghost use Rattle.plan_dsl.specs.Parts.{aggregated, aggregate_of, arity_of, children, head_of, Takes};

use crate::arity::Arity;
use crate::expr::{AggExpr, Expr};
use crate::parts::Head;
use plan_expr::Aggregate;
use std::alloc::{AllocError, Global};

/// The aggregate of an expression.
fn aggregate_over(aggregate: Aggregate, input: Box<Expr>) -> AggExpr
    ensures aggregate { aggregate_of result ≡ aggregate }
    ensures input { aggregated result ≡ input.value }
{
    match aggregate {
        Aggregate::Min => AggExpr::Min(input),
        Aggregate::Max => AggExpr::Max(input),
        Aggregate::Sum => AggExpr::Sum(input),
        Aggregate::Count(nulls) => AggExpr::Count(input, nulls),
        Aggregate::NUnique => AggExpr::NUnique(input),
        Aggregate::First => AggExpr::First(input),
        Aggregate::Last => AggExpr::Last(input),
        Aggregate::Implode => AggExpr::Implode(input),
    }
}

impl Head {
    /// The expression that is this, made of those, which stand in walk order.
    pub(crate) fn over(self, alloc: Global, parts: Vec<Expr>) -> Result<Expr, AllocError>
        requires { Takes self (length parts.items) }
        ensures head { IfOk result (λ e. head_of e ≡ self) }
        ensures parts { IfOk result (λ e. children e ≡ parts.items) }
    {
        match self.arity() {
            Arity::Zero => Ok(self.over_none()),
            Arity::One => self.over_only(alloc, parts),
            Arity::Two => self.over_both(alloc, parts),
            Arity::Three => self.over_all_three(alloc, parts),
            Arity::All => Ok(self.over_all(parts)),
            Arity::Before => self.over_first_and_rest(alloc, parts),
        }
    }

    /// The expression that is this, made of one in a list.
    fn over_only(self, alloc: Global, parts: Vec<Expr>) -> Result<Expr, AllocError>
        requires arity { arity_of self ≡ Arity.One }
        requires parts { length parts.items ≡ 1 }
        ensures head { IfOk result (λ e. head_of e ≡ self) }
        ensures parts { IfOk result (λ e. children e ≡ parts.items) }
    {
        let only = only(alloc, parts)?;
        Ok(self.over_one(only))
    }

    /// The expression that is this, made of two in a list.
    fn over_both(self, alloc: Global, parts: Vec<Expr>) -> Result<Expr, AllocError>
        requires arity { arity_of self ≡ Arity.Two }
        requires parts { length parts.items ≡ 2 }
        ensures head { IfOk result (λ e. head_of e ≡ self) }
        ensures parts { IfOk result (λ e. children e ≡ parts.items) }
    {
        let (first, second) = both(alloc, parts)?;
        Ok(self.over_two(first, second))
    }

    /// The expression that is this, made of three in a list.
    fn over_all_three(self, alloc: Global, parts: Vec<Expr>) -> Result<Expr, AllocError>
        requires arity { arity_of self ≡ Arity.Three }
        requires parts { length parts.items ≡ 3 }
        ensures head { IfOk result (λ e. head_of e ≡ self) }
        ensures parts { IfOk result (λ e. children e ≡ parts.items) }
    {
        let (first, second, third) = all_three(alloc, parts)?;
        Ok(self.over_three(first, second, third))
    }

    /// The expression that is this, made of the first in a list, and then of the others.
    fn over_first_and_rest(self, alloc: Global, parts: Vec<Expr>) -> Result<Expr, AllocError>
        requires arity { arity_of self ≡ Arity.Before }
        requires parts { 0 < length parts.items }
        ensures head { IfOk result (λ e. head_of e ≡ self) }
        ensures parts { IfOk result (λ e. children e ≡ parts.items) }
    {
        let (first, rest) = first_and_rest(alloc, parts)?;
        Ok(self.over_before(first, rest))
    }

    /// The expression that is this, made of none.
    fn over_none(self) -> Expr
        requires { arity_of self ≡ Arity.Zero }
        ensures head { head_of result ≡ self }
        ensures parts { children result ≡ [] }
    {
        match self {
            Head::Column(name) => Expr::Column(name),
            Head::Columns(names) => Expr::Columns(names),
            Head::DtypeColumn(types) => Expr::DtypeColumn(types),
            Head::IndexColumn(places) => Expr::IndexColumn(places),
            Head::Literal(value) => Expr::Literal(value),
            Head::Wildcard => Expr::Wildcard,
            Head::Len => Expr::Len,
            Head::Nth(place) => Expr::Nth(place),
            _ => unreachable!(),
        }
    }

    /// The expression that is this, made of one.
    fn over_one(self, expr: Box<Expr>) -> Expr
        requires { arity_of self ≡ Arity.One }
        ensures head { head_of result ≡ self }
        ensures parts { children result ≡ expr.value ∷ [] }
    {
        match self {
            Head::Alias(name) => Expr::Alias(expr, name),
            Head::Cast(dtype) => Expr::Cast { expr, dtype },
            Head::Sort(descending, nulls_last) => Expr::Sort {
                expr,
                descending,
                nulls_last,
            },
            Head::Agg(aggregate) => Expr::Agg(aggregate_over(aggregate, expr)),
            Head::Explode => Expr::Explode(expr),
            Head::Exclude(names) => Expr::Exclude(expr, names),
            Head::KeepName => Expr::KeepName(expr),
            Head::RenameAlias => Expr::RenameAlias { expr },
            _ => unreachable!(),
        }
    }

    /// The expression that is this, made of two.
    fn over_two(self, first: Box<Expr>, second: Box<Expr>) -> Expr
        requires { arity_of self ≡ Arity.Two }
        ensures head { head_of result ≡ self }
        ensures parts { children result ≡ first.value ∷ second.value ∷ [] }
    {
        match self {
            Head::BinaryExpr(op) => Expr::BinaryExpr {
                left: first,
                op,
                right: second,
            },
            Head::Gather(returns_scalar) => Expr::Gather {
                expr: first,
                idx: second,
                returns_scalar,
            },
            Head::Filter => Expr::Filter {
                input: first,
                by: second,
            },
            _ => unreachable!(),
        }
    }

    /// The expression that is this, made of three.
    fn over_three(self, first: Box<Expr>, second: Box<Expr>, third: Box<Expr>) -> Expr
        requires { arity_of self ≡ Arity.Three }
        ensures head { head_of result ≡ self }
        ensures parts { children result ≡ first.value ∷ second.value ∷ third.value ∷ [] }
    {
        match self {
            Head::Ternary => Expr::Ternary {
                predicate: third,
                truthy: first,
                falsy: second,
            },
            Head::Slice => Expr::Slice {
                input: first,
                offset: second,
                length: third,
            },
            _ => unreachable!(),
        }
    }

    /// The expression that is this, made of those of a list.
    fn over_all(self, input: Vec<Expr>) -> Expr
        requires { arity_of self ≡ Arity.All }
        ensures head { head_of result ≡ self }
        ensures parts { children result ≡ input.items }
    {
        match self {
            Head::Function(function, options) => Expr::Function {
                input,
                function,
                options,
            },
            _ => unreachable!(),
        }
    }

    /// The expression that is this, made of one, and then of those of a list.
    fn over_before(self, first: Box<Expr>, mut rest: Vec<Expr>) -> Expr
        requires { arity_of self ≡ Arity.Before }
        ensures head { head_of result ≡ self }
        ensures parts { children result ≡ first.value ∷ rest.items }
    {
        match self {
            Head::Window => Expr::Window {
                function: first,
                partition_by: rest,
            },
            Head::SortBy => {
                rest.reverse();
                Expr::SortBy {
                    expr: first,
                    by: rest,
                }
            }
            _ => unreachable!(),
        }
    }
}

/// Takes the first expression, and puts it into a box.
fn take_first(alloc: Global, parts: &mut Vec<Expr>) -> Result<Box<Expr>, AllocError>
    requires { 0 < length parts.old.items }
    ensures { IfOk result (λ first. parts.old.items ≡ first.value ∷ parts.new.items) }
{
    Ok(Box::new(alloc, parts.remove(0))?)
}

/// The only expression, in a box.
fn only(alloc: Global, mut parts: Vec<Expr>) -> Result<Box<Expr>, AllocError>
    requires { length parts.items ≡ 1 }
    ensures { IfOk result (λ r. parts.items ≡ r.value ∷ []) }
{
    take_first(alloc, &mut parts)
}

/// The two expressions, in boxes.
fn both(alloc: Global, mut parts: Vec<Expr>) -> Result<(Box<Expr>, Box<Expr>), AllocError>
    requires { length parts.items ≡ 2 }
    ensures { IfOk result (λ r. parts.items ≡ r.0.value ∷ r.1.value ∷ []) }
{
    let first = take_first(alloc, &mut parts)?;
    let second = take_first(alloc, &mut parts)?;
    Ok((first, second))
}

/// The three expressions, in boxes.
fn all_three(
    alloc: Global,
    mut parts: Vec<Expr>,
) -> Result<(Box<Expr>, Box<Expr>, Box<Expr>), AllocError>
    requires { length parts.items ≡ 3 }
    ensures { IfOk result (λ r. parts.items ≡ r.0.value ∷ r.1.value ∷ r.2.value ∷ []) }
{
    let first = take_first(alloc, &mut parts)?;
    let second = take_first(alloc, &mut parts)?;
    let third = take_first(alloc, &mut parts)?;
    Ok((first, second, third))
}

/// The first expression in a box, and the others.
fn first_and_rest(alloc: Global, mut parts: Vec<Expr>) -> Result<(Box<Expr>, Vec<Expr>), AllocError>
    requires { 0 < length parts.items }
    ensures { IfOk result (λ r. parts.items ≡ r.0.value ∷ r.1.items) }
{
    let first = take_first(alloc, &mut parts)?;
    Ok((first, parts))
}
