//! The expressions of a walk, one after another. Contracts see a walk as the expressions that are left.
ghost use Rattle.std.specs.Prelude.{◌≡◌, map};
ghost use Rattle.std.specs.Iterator.{YieldsFirstRef, item_count};

use crate::expr::Expr;
use std::alloc::Global;
use std::marker::Model;
use std::vec::IntoIter;

/// The expressions of a walk that are left. A contract sees their list.
#[derive(Drop)]
pub struct ExprIter<'a> {
    nodes: IntoIter<&'a Expr, Global>,
}

impl<'a> Model for ExprIter<'a> {
    ghost use Rattle.std.specs.Prelude.{List, map};
    ghost use Rattle.std.specs.Vec.Iter.{into_iter_items};
    ghost use Rattle.std.specs.Coded.{codes};
    ghost use Rattle.plan_dsl.specs.declared.expr.Expr.{Expr};
    ghost use Rattle.plan_dsl.specs.contracts.expr.Expr as e;

    ghost Value = { List Expr };

    ghost coded = { Prim.hlevel (codes, e.the_row.coded) };

    ghost view = { λ walk. map (λ r. r.now) (into_iter_items walk.nodes) };
}

impl<'a> ExprIter<'a> {
    /// A walk over these expressions.
    pub(crate) fn new(nodes: Vec<&'a Expr>) -> Self
        ensures { result ≡ map (λ r. r.now) nodes.entry.items }
    {
        ExprIter {
            nodes: nodes.into_iter(),
        }
    }
}

impl<'a> Iterator for ExprIter<'a> {
    type Item = &'a Expr;

    ghost next_gives = { YieldsFirstRef (λ walk. walk) };

    ghost remaining = { item_count (λ walk. walk) };

    fn next(&mut self) -> Option<&'a Expr> {
        self.nodes.next()
    }
}
