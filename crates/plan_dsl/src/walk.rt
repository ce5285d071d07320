//! Walks over expressions.
ghost use Rattle.std.specs.Prelude.{◌≡◌, ◌∷◌, [], ◌++◌, map, reverse, OnOk, OnErr, IfOk};
ghost use Rattle.plan_dsl.specs.Parts.{children};
ghost use Rattle.plan_dsl.specs.Walks.{preorder};
ghost use Rattle.plan_dsl.specs.Appends.{Appends, AppendsAll, AppendsFront};

use crate::expr::Expr;
use crate::expr_iter::ExprIter;
use plan_core::UnitVec;
use std::alloc::{AllocError, Global};

impl Expr {
    /// The expression and all below it, in walk order, each once. All memory that the walk takes is
    /// taken here.
    pub fn iter(&self, alloc: Global) -> Result<ExprIter<'_>, AllocError>
        ensures { IfOk result (λ walk. walk ≡ preorder self.now) }
    {
        let mut nodes = Vec::new(alloc);
        append_nodes(self, &mut nodes)?;
        Ok(ExprIter::new(nodes))
    }

    /// Appends the expressions that this one is made of, so that the last is walked first. After a
    /// refusal a front of them is appended. The container takes the memory.
    pub fn nodes<'a>(
        &'a self,
        alloc: Global,
        container: &mut UnitVec<&'a Expr>,
    ) -> Result<(), AllocError>
        ensures appended { OnOk result (AppendsAll (λ r. r.now) container.old container.new (reverse (children self.now))) }
        ensures refused { OnErr result (AppendsFront (λ r. r.now) container.old container.new (reverse (children self.now))) }
    {
        let _ = alloc;
        let children = self.children();
        let mut left = children.len();
        while left > 0 {
            left -= 1;
            container.push(children.at(left))?;
        }
        Ok(())
    }

    /// Appends the expressions that this one is made of, so that the last is walked first. After a
    /// refusal a front of them is appended. The container takes the memory.
    pub fn nodes_owned(self, alloc: Global, container: &mut UnitVec<Expr>) -> Result<(), AllocError>
        ensures appended { OnOk result (container.new ≡ container.old ++ reverse (children self)) }
        ensures refused { OnErr result (AppendsFront (λ e. e) container.old container.new (reverse (children self))) }
    {
        let _ = alloc;
        self.into_children().append_to(container)
    }
}

/// Appends an expression and all below it, in walk order.
fn append_nodes<'a>(expr: &'a Expr, nodes: &mut Vec<&'a Expr>) -> Result<(), AllocError>
    ensures { OnOk result (AppendsAll (λ r. r.now) nodes.old.items nodes.new.items (preorder expr.now)) }
{
    nodes.push(expr)?;
    let children = expr.children();
    for index in 0..children.len() {
        append_nodes(children.at(index), nodes)?;
    }
    Ok(())
}
