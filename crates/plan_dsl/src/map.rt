//! Expressions that are mapped by functions.
ghost use Rattle.std.specs.Prelude.{◌≡◌, ◌∷◌, [], ◌++◌, IfOk, IfErr, OnOk};
ghost use Rattle.plan_dsl.specs.Maps.{Maps, StopsAt};
ghost use Rattle.plan_dsl.specs.Owned.{owned};

use crate::copy::append;
use crate::expr::Expr;
use crate::mapper::{ExprMapper, RewritingVisitor, SureMapper};
use crate::parts::Owned;
use plan_core::{PolarsResult, UnitVec};
use std::alloc::{AllocError, Global};

impl Expr {
    /// The expression that the function makes of this one: it is called for each expression after those
    /// that this one is made of, in walk order, which stand for what it answered for them. The function
    /// may be called on every expression, in every state. Refuses for want of memory alone.
    pub fn map_expr<F: FnMut(Expr) -> Expr>(self, alloc: Global, f: F) -> Result<Expr, AllocError>
        requires { F.IsAlwaysCallable f }
        ensures { IfOk result (λ r. (last : F) × Maps (λ p n a q. F.step p n a q) f (self ∷ []) (r ∷ []) last) }
    {
        let mut mapper = SureMapper::new(f);
        match rewrite(alloc, self, &mut mapper) {
            Ok(expr) => Ok(expr),
            Err(_) => Err(AllocError),
        }
    }

    /// The expression that the function makes of this one, as `map_expr` does, until the function
    /// refuses: that is answered then.
    pub fn try_map_expr<F: FnMut(Expr) -> PolarsResult<Expr>>(
        self,
        alloc: Global,
        f: F,
    ) -> PolarsResult<Expr>
        requires { F.IsAlwaysCallable f }
        ensures mapped { IfOk result (λ r. (last : F) × Maps (λ p n a q. F.step p n (Ok a) q) f (self ∷ []) (r ∷ []) last) }
        ensures refused { IfErr result (λ x. (last : F) × StopsAt (λ p n a q. F.step p n (Ok a) q) (λ p n x q. F.step p n (Err x) q) f (self ∷ []) x last) }
    {
        let mut mapper = ExprMapper::new(f);
        match rewrite(alloc, self, &mut mapper) {
            Ok(expr) => Ok(expr),
            Err(fault) => Err(fault),
        }
    }
}

/// What the visitor makes of an expression: it is asked for each expression after those that this one
/// is made of, which stand for what was answered for them.
#[cycle(rewrite)]
fn rewrite<V: RewritingVisitor>(alloc: Global, expr: Expr, visitor: &mut V) -> PolarsResult<Expr>
    requires { V.can_mutate visitor.old }
    ensures again { V.can_mutate visitor.new }
    ensures mapped { IfOk result (λ r. Maps (λ p n a q. V.mutates p n (Ok a) q) visitor.old (expr ∷ []) (r ∷ []) visitor.new) }
    ensures refused { IfErr result (λ x. StopsAt (λ p n a q. V.mutates p n (Ok a) q) (λ p n x q. V.mutates p n (Err x) q) visitor.old (expr ∷ []) x visitor.new) }
{
    let (head, parts) = expr.into_parts();
    let parts = rewrite_all(alloc, parts, visitor)?;
    let node = head.over(alloc, parts)?;
    Ok(visitor.mutate(node)?)
}

/// What the visitor makes of expressions, in walk order.
#[cycle(rewrite)]
fn rewrite_all<V: RewritingVisitor>(
    alloc: Global,
    parts: Owned,
    visitor: &mut V,
) -> PolarsResult<Vec<Expr>>
    requires { V.can_mutate visitor.old }
    ensures again { V.can_mutate visitor.new }
    ensures mapped { IfOk result (λ r. Maps (λ p n a q. V.mutates p n (Ok a) q) visitor.old (owned parts) r.items visitor.new) }
    ensures refused { IfErr result (λ x. StopsAt (λ p n a q. V.mutates p n (Ok a) q) (λ p n x q. V.mutates p n (Err x) q) visitor.old (owned parts) x visitor.new) }
{
    let mut pending = UnitVec::new(alloc);
    parts.append_to(&mut pending)?;
    let mut done = Vec::new(alloc);
    while let Some(part) = pending.pop() {
        let part = rewrite(alloc, part, visitor)?;
        append(&mut done, part)?;
    }
    Ok(done)
}
