//! Rules of a type that the caller picks.
ghost use Rattle.std.specs.Prelude.{◌≡◌};

use plan_core::{Arena, Node, PolarsResult};
use plan_expr::AExpr;
use plan_ir::IR;
use plan_rule::{OptimizationRule, RuleKind};
use std::alloc::Global;

/// A rule of any type, which answers what the rule that it holds does, and is of its kind.
#[derive(Drop)]
pub struct BoxedRule {
    rule: Box<dyn OptimizationRule>,
}

impl BoxedRule {
    /// The rule in a box.
    pub fn new(rule: Box<dyn OptimizationRule>) -> Self
        ensures kind { ⟦<BoxedRule as OptimizationRule>⟧.kind_of result ≡ kind_of rule }
        ensures own { ⟦<BoxedRule as OptimizationRule>⟧.is_own result ≡ is_own rule }
    {
        BoxedRule { rule }
    }
}

impl OptimizationRule for BoxedRule {
    ghost kind_of = { λ b. (OptimizationRule-box b.rule).kind_of b.rule.value };

    ghost is_own = { λ b. (OptimizationRule-box b.rule).is_own b.rule.value };

    fn optimize_plan(
        &mut self,
        alloc: Global,
        lp: &mut Arena<IR>,
        ex: &mut Arena<AExpr>,
        node: Node,
    ) -> PolarsResult<Option<IR>> {
        self.rule.optimize_plan(alloc, lp, ex, node)
    }

    fn optimize_expr(
        &mut self,
        alloc: Global,
        ex: &mut Arena<AExpr>,
        expr_node: Node,
        lp: &Arena<IR>,
        lp_node: Node,
    ) -> PolarsResult<Option<AExpr>> {
        self.rule.optimize_expr(alloc, ex, expr_node, lp, lp_node)
    }

    fn kind(&self) -> RuleKind {
        self.rule.kind()
    }
}
