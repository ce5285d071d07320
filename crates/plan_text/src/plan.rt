//! The JSON value of a plan.
ghost use Rattle.std.specs.Prelude.{◌≡◌, IfOk};
ghost use Rattle.serde_json.specs.View.{view};
ghost use Rattle.plan_text_pieces.specs.Values.{list_data};
ghost use Rattle.plan_text.specs.Exprs.{expr_data};
ghost use Rattle.plan_text.specs.Nodes.{node_data};
ghost use Rattle.plan_text.specs.Written.{plan_data};

use crate::exprs::expr_entries;
use crate::nodes::node_entries;
use plan_core::Arena;
use plan_expr::AExpr;
use plan_ir::{IR, PlanCopy};
use plan_text_values::{each_entry, object};
use serde_json::{Value, json};
use std::alloc::{AllocError, Global};

/// The object of an expression.
fn expr(alloc: Global, expr: &AExpr) -> Result<Value, AllocError>
    ensures { IfOk result (λ v. view v ≡ expr_data expr.now) }
{
    let entries = expr_entries(alloc, expr)?;
    object(alloc, entries)
}

/// The object of a node.
fn node(alloc: Global, node: &IR) -> Result<Value, AllocError>
    ensures { IfOk result (λ v. view v ≡ node_data node.now) }
{
    let entries = node_entries(alloc, node)?;
    object(alloc, entries)
}

/// The array of the expressions of an arena, by their numbers.
fn exprs(alloc: Global, arena: &Arena<AExpr>) -> Result<Value, AllocError>
    ensures { IfOk result (λ v. view v ≡ list_data expr_data arena.now) }
{
    let written = each_entry(alloc, arena, |given| expr(alloc, given))?;
    Ok(Value::Array(written))
}

/// The array of the nodes of an arena, by their numbers.
fn nodes(alloc: Global, arena: &Arena<IR>) -> Result<Value, AllocError>
    ensures { IfOk result (λ v. view v ≡ list_data node_data arena.now) }
{
    let written = each_entry(alloc, arena, |given| node(alloc, given))?;
    Ok(Value::Array(written))
}

/// The object of a plan: its `exprs`, its `nodes` and its `root`. Refuses for want of memory alone.
#[tactic(auto, unfolding(crate::specs::Written::plan_data))]
pub fn plan(alloc: Global, plan: &PlanCopy) -> Result<Value, AllocError>
    ensures { IfOk result (λ v. view v ≡ plan_data plan.now.lp plan.now.ex plan.now.root) }
{
    let exprs = exprs(alloc, &plan.ex)?;
    let nodes = nodes(alloc, &plan.lp)?;
    json!(in alloc; {"exprs": exprs, "nodes": nodes, "root": plan.root.0})
}
