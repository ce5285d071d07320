//! A rule that answers once.

use plan_core::{Arena, Node, PolarsResult};
use plan_expr::AExpr;
use plan_ir::IR;
use plan_rule::{DropTrueFilter, OptimizationRule, RuleKind};
use std::alloc::Global;

/// Puts the input of a filter by the literal true in its place, but not a second time.
#[derive(Drop)]
pub struct Once {
    rule: DropTrueFilter,
    is_done: bool,
}

impl Once {
    /// A rule that hasn't answered.
    pub fn new() -> Self {
        Once {
            rule: DropTrueFilter,
            is_done: false,
        }
    }
}

impl OptimizationRule for Once {
    ghost use Rattle.std.specs.Prelude.{false};
    ghost use Rattle.plan_pass_laws.specs.declared.kind.RuleKind.TheVariants.{Other as other};

    ghost kind_of = { λ _. other };

    ghost is_own = { λ _. false };

    /// The node of the input, where the node is a filter by the literal true and no call answered before.
    fn optimize_plan(
        &mut self,
        alloc: Global,
        lp: &mut Arena<IR>,
        ex: &mut Arena<AExpr>,
        node: Node,
    ) -> PolarsResult<Option<IR>> {
        if self.is_done {
            return Ok(None);
        }
        let answer = self.rule.optimize_plan(alloc, lp, ex, node)?;
        self.is_done = answer.is_some();
        Ok(answer)
    }

    fn kind(&self) -> RuleKind {
        RuleKind::Other
    }
}
