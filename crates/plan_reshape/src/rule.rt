//! The rules in one type.
ghost use Rattle.std.specs.Prelude.{◌≡◌, true, false};

use crate::boxed::BoxedRule;
use plan_core::{Arena, Node, PolarsResult};
use plan_expr::AExpr;
use plan_ir::IR;
use plan_rule::{
    DelayRechunk, FlattenUnionRule, OptimizationRule, RuleKind, SimpleProjectionAndCollapse,
};
use std::alloc::Global;

/// A rule that flags ask for, or one in a box.
#[derive(Drop)]
pub enum Rule {
    /// Collapses projections and caches.
    Collapse(SimpleProjectionAndCollapse),
    /// Takes up the inputs of unions.
    Flatten(FlattenUnionRule),
    /// Clears marks below groupings.
    Rechunk(DelayRechunk),
    /// A rule of any type.
    Boxed(BoxedRule),
}

impl Rule {
    ghost use Rattle.plan_reshape.specs.declared.rule.Rule.TheVariants.{Collapse as collapses, Flatten as flattens, Rechunk as delays, Boxed as boxed};

    /// Whether the rule is in a box. One that isn't is its kind's own.
    pub fn is_boxed(&self) -> bool
        ensures boxed { result ≡ elim self.now [ collapses c ↦ false | flattens f ↦ false | delays d ↦ false | boxed b ↦ true ] }
        ensures own { result ≡ false → ⟦<Rule as OptimizationRule>⟧.is_own self.now ≡ true }
    {
        match self {
            Rule::Collapse(_) | Rule::Flatten(_) | Rule::Rechunk(_) => false,
            Rule::Boxed(_) => true,
        }
    }
}

impl OptimizationRule for Rule {
    ghost use Rattle.std.specs.Prelude.{true};
    ghost use Rattle.plan_reshape.specs.declared.rule.Rule.TheVariants.{Collapse as collapses, Flatten as flattens, Rechunk as delays, Boxed as boxed};

    ghost kind_of = { λ r. elim r [ collapses c ↦ ⟦<SimpleProjectionAndCollapse as OptimizationRule>⟧.kind_of c | flattens f ↦ ⟦<FlattenUnionRule as OptimizationRule>⟧.kind_of f | delays d ↦ ⟦<DelayRechunk as OptimizationRule>⟧.kind_of d | boxed b ↦ (OptimizationRule-box b.rule).kind_of b.rule.value ] };

    ghost is_own = { λ r. elim r [ collapses c ↦ ⟦<SimpleProjectionAndCollapse as OptimizationRule>⟧.is_own c | flattens f ↦ ⟦<FlattenUnionRule as OptimizationRule>⟧.is_own f | delays d ↦ ⟦<DelayRechunk as OptimizationRule>⟧.is_own d | boxed b ↦ (OptimizationRule-box b.rule).is_own b.rule.value ] };

    fn optimize_plan(
        &mut self,
        alloc: Global,
        lp: &mut Arena<IR>,
        ex: &mut Arena<AExpr>,
        node: Node,
    ) -> PolarsResult<Option<IR>> {
        match self {
            Rule::Collapse(rule) => rule.optimize_plan(alloc, lp, ex, node),
            Rule::Flatten(rule) => rule.optimize_plan(alloc, lp, ex, node),
            Rule::Rechunk(rule) => rule.optimize_plan(alloc, lp, ex, node),
            Rule::Boxed(rule) => rule.optimize_plan(alloc, lp, ex, node),
        }
    }

    fn optimize_expr(
        &mut self,
        alloc: Global,
        ex: &mut Arena<AExpr>,
        expr_node: Node,
        lp: &Arena<IR>,
        lp_node: Node,
    ) -> PolarsResult<Option<AExpr>> {
        match self {
            Rule::Collapse(rule) => rule.optimize_expr(alloc, ex, expr_node, lp, lp_node),
            Rule::Flatten(rule) => rule.optimize_expr(alloc, ex, expr_node, lp, lp_node),
            Rule::Rechunk(rule) => rule.optimize_expr(alloc, ex, expr_node, lp, lp_node),
            Rule::Boxed(rule) => rule.optimize_expr(alloc, ex, expr_node, lp, lp_node),
        }
    }

    fn kind(&self) -> RuleKind {
        match self {
            Rule::Collapse(rule) => rule.kind(),
            Rule::Flatten(rule) => rule.kind(),
            Rule::Rechunk(rule) => rule.kind(),
            Rule::Boxed(rule) => rule.kind(),
        }
    }
}
