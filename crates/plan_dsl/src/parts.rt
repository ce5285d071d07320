//! What an expression is beside the expressions that it is made of, and those by value.
ghost use Rattle.std.specs.Prelude.{◌≡◌, ◌∷◌, [], ◌++◌, length, reverse, OnOk, OnErr, IfOk, MatchOption};
ghost use Rattle.plan_dsl.specs.Parts.{aggregate_of, head_of};
ghost use Rattle.plan_dsl.specs.Owned.{owned};
ghost use Rattle.plan_dsl.specs.Appends.{AppendsFront};

use crate::expr::{AggExpr, Expr};
use plan_core::{DataType, Items, PlSmallStr, TryClone, UnitVec};
use plan_expr::{Aggregate, FunctionExpr, LiteralValue, Operator};
use plan_options::FunctionOptions;
use std::alloc::{AllocError, Global};
use std::mem;

/// What an expression is beside the expressions that it is made of.
#[derive(Drop)]
pub(crate) enum Head {
    Alias(PlSmallStr),
    Column(PlSmallStr),
    Columns(Items<PlSmallStr>),
    DtypeColumn(Items<DataType>),
    IndexColumn(Items<i64>),
    Literal(LiteralValue),
    BinaryExpr(Operator),
    Cast(DataType),
    Sort(bool, bool),
    Gather(bool),
    SortBy,
    Agg(Aggregate),
    Ternary,
    Function(FunctionExpr, FunctionOptions),
    Explode,
    Filter,
    Window,
    Wildcard,
    Slice,
    Exclude(Items<PlSmallStr>),
    KeepName,
    RenameAlias,
    Len,
    Nth(i64),
}

/// Expressions by value, in walk order. Those that stand alone keep their boxes, so that one that is
/// given up is let go by a call.
#[derive(Drop)]
pub(crate) enum Owned {
    /// None.
    Zero,
    /// One.
    One(Box<Expr>),
    /// Two.
    Two(Box<Expr>, Box<Expr>),
    /// Three.
    Three(Box<Expr>, Box<Expr>, Box<Expr>),
    /// Those of a list.
    All(Vec<Expr>),
    /// One, and then those of a list.
    Before(Box<Expr>, Vec<Expr>),
}

impl Owned {
    /// Those before the last one, and the last one, if there is one.
    fn split_last(self) -> (Owned, Option<Expr>)
        ensures { MatchOption result.1 (owned self ≡ [] × owned result.0 ≡ []) (λ x. owned self ≡ owned result.0 ++ x ∷ []) }
    {
        match self {
            Owned::Zero => (Owned::Zero, None),
            Owned::One(first) => (Owned::Zero, Some(Box::into_inner(first))),
            Owned::Two(first, second) => (Owned::One(first), Some(Box::into_inner(second))),
            Owned::Three(first, second, third) => {
                (Owned::Two(first, second), Some(Box::into_inner(third)))
            }
            Owned::All(list) => split_list(list),
            Owned::Before(first, list) => split_before(first, list),
        }
    }

    /// Takes the last one, if there is one.
    pub(crate) fn pop(&mut self) -> Option<Expr>
        ensures { MatchOption result (owned self.old ≡ [] × owned self.new ≡ []) (λ x. owned self.old ≡ owned self.new ++ x ∷ []) }
    {
        let (rest, last) = mem::replace(self, Owned::Zero).split_last();
        *self = rest;
        last
    }

    /// Appends them, last first.
    pub(crate) fn append_to(self, out: &mut UnitVec<Expr>) -> Result<(), AllocError>
        ensures appended { OnOk result (out.new ≡ out.old ++ reverse (owned self)) }
        ensures refused { OnErr result (AppendsFront (λ e. e) out.old out.new (reverse (owned self))) }
    {
        let mut rest = self;
        while let Some(expr) = rest.pop() {
            out.push(expr)?;
        }
        Ok(())
    }
}

/// The expressions of a list before the last one, and the last one, if there is one.
fn split_list(mut list: Vec<Expr>) -> (Owned, Option<Expr>)
    ensures { MatchOption result.1 (list.items ≡ [] × owned result.0 ≡ []) (λ x. list.items ≡ owned result.0 ++ x ∷ []) }
{
    let last = list.pop();
    (Owned::All(list), last)
}

/// An expression and those of a list before the last one, and the last one.
fn split_before(first: Box<Expr>, mut list: Vec<Expr>) -> (Owned, Option<Expr>)
    ensures { MatchOption result.1 (first.value ∷ list.items ≡ [] × owned result.0 ≡ []) (λ x. first.value ∷ list.items ≡ owned result.0 ++ x ∷ []) }
{
    match list.pop() {
        None => (Owned::Zero, Some(Box::into_inner(first))),
        Some(last) => (Owned::Before(first, list), Some(last)),
    }
}

impl AggExpr {
    /// The aggregate.
    pub fn aggregate(&self) -> Aggregate
        ensures { result ≡ aggregate_of self.now }
    {
        match self {
            AggExpr::Min(_) => Aggregate::Min,
            AggExpr::Max(_) => Aggregate::Max,
            AggExpr::Sum(_) => Aggregate::Sum,
            AggExpr::Count(_, nulls) => Aggregate::Count(*nulls),
            AggExpr::NUnique(_) => Aggregate::NUnique,
            AggExpr::First(_) => Aggregate::First,
            AggExpr::Last(_) => Aggregate::Last,
            AggExpr::Implode(_) => Aggregate::Implode,
        }
    }
}

impl Expr {
    /// What the expression is beside those that it is made of.
    pub(crate) fn head(&self, alloc: Global) -> Result<Head, AllocError>
        ensures { IfOk result (λ head. head ≡ head_of self.now) }
    {
        match self {
            Expr::Alias(_, name) => Ok(Head::Alias(name.try_clone(alloc)?)),
            Expr::Column(name) => Ok(Head::Column(name.try_clone(alloc)?)),
            Expr::Columns(names) => Ok(Head::Columns(names.try_clone(alloc)?)),
            Expr::DtypeColumn(types) => Ok(Head::DtypeColumn(types.try_clone(alloc)?)),
            Expr::IndexColumn(places) => Ok(Head::IndexColumn(places.try_clone(alloc)?)),
            Expr::Literal(value) => Ok(Head::Literal(value.try_clone(alloc)?)),
            Expr::BinaryExpr { op, .. } => Ok(Head::BinaryExpr(*op)),
            Expr::Cast { dtype, .. } => Ok(Head::Cast(*dtype)),
            Expr::Sort {
                descending,
                nulls_last,
                ..
            } => Ok(Head::Sort(*descending, *nulls_last)),
            Expr::Gather { returns_scalar, .. } => Ok(Head::Gather(*returns_scalar)),
            Expr::SortBy { .. } => Ok(Head::SortBy),
            Expr::Agg(agg) => Ok(Head::Agg(agg.aggregate())),
            Expr::Ternary { .. } => Ok(Head::Ternary),
            Expr::Function {
                function,
                options,
                ..
            } => Ok(Head::Function(*function, *options)),
            Expr::Explode(_) => Ok(Head::Explode),
            Expr::Filter { .. } => Ok(Head::Filter),
            Expr::Window { .. } => Ok(Head::Window),
            Expr::Wildcard => Ok(Head::Wildcard),
            Expr::Slice { .. } => Ok(Head::Slice),
            Expr::Exclude(_, names) => Ok(Head::Exclude(names.try_clone(alloc)?)),
            Expr::KeepName(_) => Ok(Head::KeepName),
            Expr::RenameAlias { .. } => Ok(Head::RenameAlias),
            Expr::Len => Ok(Head::Len),
            Expr::Nth(place) => Ok(Head::Nth(*place)),
        }
    }
}
