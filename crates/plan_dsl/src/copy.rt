//! Copies of expressions.
ghost use Rattle.std.specs.Prelude.{◌≡◌, ◌++◌, ◌∷◌, [], IfOk, OnOk};
ghost use Rattle.plan_dsl.specs.Copies.{written};

use crate::expr::Expr;
use std::alloc::{AllocError, Global};

impl Expr {
    /// A copy, which equals the expression: the same expressions stand in it, in the same places. It
    /// refuses only where memory is short.
    pub fn try_clone(&self, alloc: Global) -> Result<Self, AllocError>
        ensures { IfOk result (λ copy. written copy ≡ written self.now) }
    {
        let children = self.children();
        let mut parts = Vec::new(alloc);
        for index in 0..children.len() {
            let part = children.at(index).try_clone(alloc)?;
            append(&mut parts, part)?;
        }
        let head = self.head(alloc)?;
        Ok(head.over(alloc, parts)?)
    }
}

/// Appends an expression.
pub(crate) fn append(list: &mut Vec<Expr>, expr: Expr) -> Result<(), AllocError>
    ensures { OnOk result (list.new.items ≡ list.old.items ++ expr ∷ []) }
{
    list.push(expr)?;
    Ok(())
}
