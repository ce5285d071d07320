//! Whether a node demands the order of its last input.
ghost use Rattle.std.specs.Prelude.{◌≡◌, ◌||◌, All, not};
ghost use Rattle.plan_expr.specs.Exprs.{all_named_at, expr_at};
ghost use Rattle.plan_expr.specs.Operands.{IsExpr};
ghost use Rattle.plan_ir.specs.Parts.{exprs_of, inputs_of};
ghost use Rattle.plan_ir.specs.Plans.{op_at};
ghost use Rattle.plan_meaning.specs.Checks.{is_empty};
ghost use Rattle.plan_order_laws.specs.Demands.{demands as demands_of};
ghost use Rattle.plan_order_laws.specs.Elementwise.{all_elementwise as are_all_elementwise, all_summaries as are_all_summaries, is_summary as is_summary_expr};
ghost use Rattle.plan_order_laws.specs.Orderless.{distinct_demands as distinct_demands_of, ignores_order as aggregate_ignores};
ghost use Rattle.plan_order.specs.DemandTurns.{top_demand as top_demand_of};

use plan_core::{Arena, Node};
use plan_expr::{AExpr, Aggregate, ExprIR, is_elementwise};
use plan_ir::IR;
use plan_options::UniqueKeepStrategy;

/// Whether all expressions work row by row.
fn all_elementwise(exprs: &[ExprIR], ex: &Arena<AExpr>) -> bool
    requires { All (λ e. IsExpr ex.now e.node) exprs.now }
    ensures { result ≡ are_all_elementwise (all_named_at ex.now exprs.now) }
{
    for expr in exprs {
        if !is_elementwise(expr.node, ex) {
            return false;
        }
    }
    true
}

/// Whether an aggregate makes the same of values in any order.
fn ignores_order(aggregate: Aggregate) -> bool
    ensures { result ≡ aggregate_ignores aggregate }
{
    match aggregate {
        Aggregate::Min
        | Aggregate::Max
        | Aggregate::Sum
        | Aggregate::Count(_)
        | Aggregate::NUnique => true,
        Aggregate::First | Aggregate::Last | Aggregate::Implode => false,
    }
}

/// Whether an expression is an aggregate that makes the same of rows in any order.
fn is_summary(node: Node, ex: &Arena<AExpr>) -> bool
    requires { IsExpr ex.now node }
    ensures { result ≡ is_summary_expr (expr_at ex.now node) }
{
    match ex.get(node) {
        AExpr::Agg(agg) => ignores_order(agg.aggregate()) && is_elementwise(agg.input(), ex),
        _ => false,
    }
}

/// Whether all expressions are such aggregates.
fn all_summaries(exprs: &[ExprIR], ex: &Arena<AExpr>) -> bool
    requires { All (λ e. IsExpr ex.now e.node) exprs.now }
    ensures { result ≡ are_all_summaries (all_named_at ex.now exprs.now) }
{
    for expr in exprs {
        if !is_summary(expr.node, ex) {
            return false;
        }
    }
    true
}

/// Whether distinct rows demand the order of their input, where theirs is demanded or not.
fn distinct_demands(keep: UniqueKeepStrategy, ordered: bool) -> bool
    ensures { result ≡ distinct_demands_of keep ordered }
{
    match keep {
        UniqueKeepStrategy::First | UniqueKeepStrategy::Last => true,
        UniqueKeepStrategy::Any | UniqueKeepStrategy::None => ordered,
    }
}

/// Whether a node demands the order of its last input, where its own is demanded or not.
fn demands(entry: &IR, ex: &Arena<AExpr>, ordered: bool) -> bool
    requires { All (λ e. IsExpr ex.now e.node) (exprs_of entry.now) }
    ensures { result ≡ demands_of ordered (op_at ex.now entry.now) }
{
    match entry {
        IR::Sort {
            by_column,
            sort_options,
            ..
        } => {
            ordered && (sort_options.maintain_order || !all_elementwise(by_column.as_slice(), ex))
        }
        IR::Distinct { options, .. } => {
            distinct_demands(options.keep_strategy, ordered && options.maintain_order)
        }
        IR::Union { .. } => ordered,
        IR::GroupBy {
            keys,
            aggs,
            maintain_order,
            ..
        } => {
            *maintain_order
                || !(all_elementwise(keys.as_slice(), ex) && all_summaries(aggs.as_slice(), ex))
        }
        IR::Select { expr, .. } => ordered || !all_elementwise(expr.as_slice(), ex),
        IR::HStack { exprs, .. } => ordered || !all_elementwise(exprs.as_slice(), ex),
        _ => true,
    }
}

/// Whether a node has an input.
fn has_inputs(entry: &IR) -> bool
    ensures { result ≡ not (is_empty (inputs_of entry.now)) }
{
    match entry {
        IR::Union { inputs, .. } | IR::HConcat { inputs, .. } => inputs.len() > 0,
        IR::Scan { .. } | IR::DataFrameScan { .. } | IR::Invalid => false,
        _ => true,
    }
}

/// Whether the order of what stands on top of the stack is demanded, once the inputs of a node are stacked, the last one on top. A
/// node without inputs leaves what stood below it there, whose order is demanded.
pub fn top_demand(entry: &IR, ex: &Arena<AExpr>, ordered: bool) -> bool
    requires { All (λ e. IsExpr ex.now e.node) (exprs_of entry.now) }
    ensures { result ≡ top_demand_of ordered ex.now entry.now }
{
    demands(entry, ex, ordered) || !has_inputs(entry)
}
