//! Expressions that are rewritten from below.
ghost use Rattle.std.specs.Prelude.{◌≡◌};

use crate::expr::Expr;
use plan_core::PolarsResult;
use std::marker::Model;

/// What rewrites expressions, one at a time.
pub trait RewritingVisitor {
    ghost use Rattle.std.specs.Prelude.{Result};
    ghost use Rattle.plan_core.specs.declared.error.PolarsError.{PolarsError};
    ghost use Rattle.plan_dsl.specs.declared.expr.Expr.{Expr};

    // The states in which it may be asked.
    ghost can_mutate: { Self → Type 0 };

    // A state, an expression, what is answered for it, and the state afterwards.
    ghost mutates: { Self → Expr → Result Expr PolarsError → Self → Type 0 };

    /// What stands in the place of the expression.
    fn mutate(&mut self, node: Expr) -> PolarsResult<Expr>
        requires { can_mutate self.old }
        ensures again { can_mutate self.new }
        ensures answer { mutates self.old node result self.new };
}

/// What rewrites expressions by a function. A contract sees the function.
#[derive(Drop)]
pub struct ExprMapper<F> {
    f: F,
}

impl<F> Model for ExprMapper<F> {
    ghost Value = { F };

    ghost view = { λ mapper. mapper.f };
}

impl<F> ExprMapper<F> {
    /// What rewrites expressions by this function.
    pub fn new(f: F) -> Self
        ensures { result ≡ f }
    {
        ExprMapper { f }
    }
}

impl<F: FnMut(Expr) -> PolarsResult<Expr>> RewritingVisitor for ExprMapper<F> {
    ghost can_mutate = { λ f. F.IsAlwaysCallable f };

    ghost mutates = { λ f node answer g. F.step f node answer g };

    fn mutate(&mut self, node: Expr) -> PolarsResult<Expr> {
        (self.f)(node)
    }
}

/// What rewrites expressions by a function that never refuses. A contract sees the function.
#[derive(Drop)]
pub(crate) struct SureMapper<F> {
    f: F,
}

impl<F> Model for SureMapper<F> {
    ghost Value = { F };

    ghost view = { λ mapper. mapper.f };
}

impl<F> SureMapper<F> {
    /// What rewrites expressions by this function.
    pub(crate) fn new(f: F) -> Self
        ensures { result ≡ f }
    {
        SureMapper { f }
    }
}

impl<F: FnMut(Expr) -> Expr> RewritingVisitor for SureMapper<F> {
    ghost use Rattle.std.specs.Prelude.{MatchResult};

    ghost can_mutate = { λ f. F.IsAlwaysCallable f };

    ghost mutates = { λ f node answer g. MatchResult answer (λ a. F.step f node a g) (λ _. ⊥) };

    fn mutate(&mut self, node: Expr) -> PolarsResult<Expr> {
        Ok((self.f)(node))
    }
}
