//! The rule against filters by the literal true.
//!
//! ```text
//! Filter true            x
//!   x             =>
//! ```
ghost use Rattle.std.specs.Prelude.{◌≡◌, All, None, if◌then◌else◌};
ghost use Rattle.plan_expr.specs.Exprs.{expr_at, expr_op};
ghost use Rattle.plan_expr.specs.Operands.{IsExpr};
ghost use Rattle.plan_ir.specs.Parts.{exprs_of, first_input};
ghost use Rattle.plan_ir.specs.Plans.{op_at};
ghost use Rattle.plan_pass_laws.specs.Answers.{is_true_literal, is_true_op, keeps_all};

use crate::rule::OptimizationRule;
use plan_core::{Arena, Node, PolarsResult};
use plan_expr::{AExpr, LiteralValue};
use plan_ir::IR;
use plan_pass_laws::RuleKind;
use std::alloc::Global;

/// Puts the input of a filter by the literal true in its place.
#[derive(Drop)]
pub struct DropTrueFilter;

/// Whether an expression is the literal true.
fn is_true_value(expr: &AExpr) -> bool
    ensures { result ≡ is_true_op (expr_op expr.now) }
{
    matches!(expr, AExpr::Literal(LiteralValue::Boolean(true)))
}

/// Whether the expression of a number is the literal true.
fn is_true(node: Node, ex: &Arena<AExpr>) -> bool
    requires { IsExpr ex.now node }
    ensures { result ≡ is_true_literal (expr_at ex.now node) }
{
    is_true_value(ex.get(node))
}

/// The input of a filter by the literal true; None for every other node.
fn true_filter_input(entry: &IR, ex: &Arena<AExpr>) -> Option<Node>
    requires { All (λ e. IsExpr ex.now e.node) (exprs_of entry.now) }
    ensures { result ≡ (if keeps_all (op_at ex.now entry.now) then first_input entry.now else None) }
{
    match entry {
        IR::Filter { input, predicate } => {
            if is_true(predicate.node(), ex) {
                Some(*input)
            } else {
                None
            }
        }
        _ => None,
    }
}

impl OptimizationRule for DropTrueFilter {
    ghost use Rattle.std.specs.Prelude.{true};
    ghost use Rattle.plan_pass_laws.specs.declared.kind.RuleKind.TheVariants.{TrueFilter as true_filter};

    ghost kind_of = { λ _. true_filter };

    ghost is_own = { λ _. true };

    /// The node of the input, where the node is a filter by the literal true.
    fn optimize_plan(
        &mut self,
        alloc: Global,
        lp: &mut Arena<IR>,
        ex: &mut Arena<AExpr>,
        node: Node,
    ) -> PolarsResult<Option<IR>> {
        let _ = alloc;
        match true_filter_input(lp.get(node), ex) {
            None => Ok(None),
            Some(input) => Ok(Some(lp.take(input))),
        }
    }

    fn kind(&self) -> RuleKind {
        RuleKind::TrueFilter
    }
}
