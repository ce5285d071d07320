//! A rule that counts its calls.

use plan_core::{Arena, Node, PolarsResult};
use plan_expr::AExpr;
use plan_ir::IR;
use plan_rule::{OptimizationRule, RuleKind};
use std::alloc::Global;

/// How often a rule that answers nothing was called at nodes and at expressions.
#[derive(Drop)]
pub struct Heard {
    /// The calls at nodes.
    pub nodes: u32,
    /// The calls at expressions.
    pub exprs: u32,
}

impl OptimizationRule for Heard {
    ghost use Rattle.std.specs.Prelude.{false};
    ghost use Rattle.plan_pass_laws.specs.declared.kind.RuleKind.TheVariants.{Other as other};

    ghost kind_of = { λ _. other };

    ghost is_own = { λ _. false };

    fn optimize_plan(
        &mut self,
        alloc: Global,
        lp: &mut Arena<IR>,
        ex: &mut Arena<AExpr>,
        node: Node,
    ) -> PolarsResult<Option<IR>> {
        let _ = (alloc, node);
        self.nodes = self.nodes.saturating_add(1);
        Ok(None)
    }

    fn optimize_expr(
        &mut self,
        alloc: Global,
        ex: &mut Arena<AExpr>,
        expr_node: Node,
        lp: &Arena<IR>,
        lp_node: Node,
    ) -> PolarsResult<Option<AExpr>> {
        let _ = (alloc, expr_node, lp_node);
        self.exprs = self.exprs.saturating_add(1);
        Ok(None)
    }

    fn kind(&self) -> RuleKind {
        RuleKind::Other
    }
}
