//! Of how many expressions an expression is made.
ghost use Rattle.std.specs.Prelude.{◌≡◌};
ghost use Rattle.plan_dsl.specs.Parts.{arity_of, head_of};

use crate::expr::Expr;
use crate::parts::Head;

/// Of how many expressions an expression is made.
#[derive(Clone, Copy)]
pub(crate) enum Arity {
    /// None.
    Zero,
    /// One.
    One,
    /// Two.
    Two,
    /// Three.
    Three,
    /// Any number.
    All,
    /// One, and then any number.
    Before,
}

impl Expr {
    /// Of how many expressions the expression is made.
    pub(crate) fn arity(&self) -> Arity
        ensures { result ≡ arity_of (head_of self.now) }
    {
        match self {
            Expr::Column(_)
            | Expr::Columns(_)
            | Expr::DtypeColumn(_)
            | Expr::IndexColumn(_)
            | Expr::Literal(_)
            | Expr::Wildcard
            | Expr::Len
            | Expr::Nth(_) => Arity::Zero,
            Expr::Alias(_, _)
            | Expr::Cast { .. }
            | Expr::Sort { .. }
            | Expr::Agg(_)
            | Expr::Explode(_)
            | Expr::Exclude(_, _)
            | Expr::KeepName(_)
            | Expr::RenameAlias { .. } => Arity::One,
            Expr::BinaryExpr { .. } | Expr::Gather { .. } | Expr::Filter { .. } => Arity::Two,
            Expr::Ternary { .. } | Expr::Slice { .. } => Arity::Three,
            Expr::Function { .. } => Arity::All,
            Expr::Window { .. } | Expr::SortBy { .. } => Arity::Before,
        }
    }
}

impl Head {
    /// Of how many expressions an expression is made that is this.
    pub(crate) fn arity(&self) -> Arity
        ensures { result ≡ arity_of self.now }
    {
        match self {
            Head::Column(_)
            | Head::Columns(_)
            | Head::DtypeColumn(_)
            | Head::IndexColumn(_)
            | Head::Literal(_)
            | Head::Wildcard
            | Head::Len
            | Head::Nth(_) => Arity::Zero,
            Head::Alias(_)
            | Head::Cast(_)
            | Head::Sort(_, _)
            | Head::Agg(_)
            | Head::Explode
            | Head::Exclude(_)
            | Head::KeepName
            | Head::RenameAlias => Arity::One,
            Head::BinaryExpr(_) | Head::Gather(_) | Head::Filter => Arity::Two,
            Head::Ternary | Head::Slice => Arity::Three,
            Head::Function(_, _) => Arity::All,
            Head::Window | Head::SortBy => Arity::Before,
        }
    }
}
