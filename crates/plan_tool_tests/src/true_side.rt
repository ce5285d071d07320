//! A rule that answers for expressions.
ghost use Rattle.std.specs.Prelude.{◌≡◌};
ghost use Rattle.plan_expr.specs.Exprs.{expr_at, expr_op};
ghost use Rattle.plan_expr.specs.Operands.{IsExpr};
ghost use Rattle.plan_pass_laws.specs.Answers.{is_true_literal, is_true_op};
ghost use Rattle.plan_tool_tests.specs.TrueSides.{filters_by, is_true_or, or_left};

use plan_core::{Arena, Node, PolarsResult};
use plan_expr::{AExpr, LiteralValue, Operator};
use plan_ir::IR;
use plan_rule::{OptimizationRule, RuleKind};
use std::alloc::Global;

/// Puts the literal true in the place of a filter's predicate that is an Or with the literal true on its left side.
#[derive(Drop)]
pub struct TrueSide;

/// Whether an expression is the literal true.
fn is_true_value(expr: &AExpr) -> bool
    ensures { result ≡ is_true_op (expr_op expr.now) }
{
    matches!(expr, AExpr::Literal(LiteralValue::Boolean(true)))
}

/// Whether the expression of a number is the literal true.
fn is_true(node: Node, ex: &Arena<AExpr>) -> bool
    requires { IsExpr ex.now node }
    ensures { result ≡ is_true_literal (expr_at ex.now node) }
{
    is_true_value(ex.get(node))
}

/// The number of the left side of an Or; None for every other expression.
fn or_left(expr: &AExpr) -> Option<Node>
    ensures { result ≡ or_left expr.now }
{
    match expr {
        AExpr::BinaryExpr {
            left,
            op: Operator::Or,
            ..
        } => Some(*left),
        _ => None,
    }
}

/// Whether the expression of a number is an Or whose left side is the literal true.
fn is_true_or(node: Node, ex: &Arena<AExpr>) -> bool
    requires { IsExpr ex.now node }
    ensures { result ≡ is_true_or (expr_at ex.now node) }
{
    match or_left(ex.get(node)) {
        None => false,
        Some(left) => is_true(left, ex),
    }
}

/// Whether a node is a filter by the expression of a number.
fn filters_by(entry: &IR, expr_node: Node) -> bool
    ensures { result ≡ filters_by entry.now expr_node }
{
    match entry {
        IR::Filter { predicate, .. } => predicate.node().0 == expr_node.0,
        _ => false,
    }
}

impl OptimizationRule for TrueSide {
    ghost use Rattle.std.specs.Prelude.{false};
    ghost use Rattle.plan_pass_laws.specs.declared.kind.RuleKind.TheVariants.{Other as other};

    ghost kind_of = { λ _. other };

    ghost is_own = { λ _. false };

    /// None: nodes stay.
    fn optimize_plan(
        &mut self,
        alloc: Global,
        lp: &mut Arena<IR>,
        ex: &mut Arena<AExpr>,
        node: Node,
    ) -> PolarsResult<Option<IR>> {
        let _ = (alloc, node);
        Ok(None)
    }

    /// The literal true, where the node is a filter by this expression, and this is an Or whose left side is true.
    fn optimize_expr(
        &mut self,
        alloc: Global,
        ex: &mut Arena<AExpr>,
        expr_node: Node,
        lp: &Arena<IR>,
        lp_node: Node,
    ) -> PolarsResult<Option<AExpr>> {
        let _ = alloc;
        if !filters_by(lp.get(lp_node), expr_node) {
            return Ok(None);
        }
        if !is_true_or(expr_node, ex) {
            return Ok(None);
        }
        Ok(Some(AExpr::Literal(LiteralValue::Boolean(true))))
    }

    fn kind(&self) -> RuleKind {
        RuleKind::Other
    }
}
