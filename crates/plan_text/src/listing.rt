//! The text of a listing, for which no value is made.
ghost use Rattle.std.specs.Prelude.{◌≡◌, ◌++◌, IfOk, OnOk, option_copied};
ghost use Rattle.json.specs.Tree.{json_tokens};
ghost use Rattle.serde_json.specs.Written.{compact_text, outline};
ghost use Rattle.plan_text_pieces.specs.Values.{list_data, names_data};
ghost use Rattle.plan_text.specs.Exprs.{expr_data};
ghost use Rattle.plan_text.specs.Nodes.{node_data};
ghost use Rattle.plan_text.specs.Written.{listing_data, plan_data};

use crate::exprs::expr_entries;
use crate::nodes::node_entries;
use crate::rows::write_rows;
use json::Writer;
use plan_core::{Arena, Items, Node, PlSmallStr};
use plan_expr::AExpr;
use plan_ir::{IR, PlanCopy};
use plan_table::Table;
use plan_text_pieces::{write_names, write_object};
use std::alloc::{AllocError, Global};

/// Writes the object of an expression.
fn write_expr(alloc: Global, writer: &mut Writer, expr: &AExpr) -> Result<(), AllocError>
    ensures tokens { OnOk result (writer.new.tokens
        ≡ writer.old.tokens ++ json_tokens (outline (expr_data expr.now))) }
    ensures before { OnOk result (writer.new.before ≡ writer.old.before) }
{
    let entries = expr_entries(alloc, expr)?;
    write_object(writer, entries.as_slice())
}

/// Writes the array of the expressions of an arena.
#[tactic(auto, unfolding(plan_text_pieces::specs::Values::list_data))]
fn write_exprs(alloc: Global, writer: &mut Writer, arena: &Arena<AExpr>) -> Result<(), AllocError>
    ensures tokens { OnOk result (writer.new.tokens
        ≡ writer.old.tokens ++ json_tokens (outline (list_data expr_data arena.now))) }
    ensures before { OnOk result (writer.new.before ≡ writer.old.before) }
{
    writer.begin_array()?;
    for i in 0..arena.len() {
        write_expr(alloc, writer, arena.get(Node(i)))?;
    }
    writer.end_array()
}

/// Writes the object of a node.
fn write_node(alloc: Global, writer: &mut Writer, node: &IR) -> Result<(), AllocError>
    ensures tokens { OnOk result (writer.new.tokens
        ≡ writer.old.tokens ++ json_tokens (outline (node_data node.now))) }
    ensures before { OnOk result (writer.new.before ≡ writer.old.before) }
{
    let entries = node_entries(alloc, node)?;
    write_object(writer, entries.as_slice())
}

/// Writes the array of the nodes of an arena.
#[tactic(auto, unfolding(plan_text_pieces::specs::Values::list_data))]
fn write_nodes(alloc: Global, writer: &mut Writer, arena: &Arena<IR>) -> Result<(), AllocError>
    ensures tokens { OnOk result (writer.new.tokens
        ≡ writer.old.tokens ++ json_tokens (outline (list_data node_data arena.now))) }
    ensures before { OnOk result (writer.new.before ≡ writer.old.before) }
{
    writer.begin_array()?;
    for i in 0..arena.len() {
        write_node(alloc, writer, arena.get(Node(i)))?;
    }
    writer.end_array()
}

/// Writes the object of a plan.
#[tactic(auto, unfolding(crate::specs::Written::plan_data))]
fn write_plan(alloc: Global, writer: &mut Writer, plan: &PlanCopy) -> Result<(), AllocError>
    ensures tokens { OnOk result (writer.new.tokens
        ≡ writer.old.tokens ++ json_tokens (outline (plan_data plan.now.lp plan.now.ex plan.now.root))) }
    ensures before { OnOk result (writer.new.before ≡ writer.old.before) }
{
    writer.begin_object()?;
    writer.key("exprs")?;
    write_exprs(alloc, writer, &plan.ex)?;
    writer.key("nodes")?;
    write_nodes(alloc, writer, &plan.lp)?;
    writer.key("root")?;
    writer.u64(plan.root.0 as u64)?;
    writer.end_object()
}

/// Writes the array of lists of names.
#[tactic(auto, unfolding(plan_text_pieces::specs::Values::list_data))]
fn write_reads(writer: &mut Writer, reads: &[Items<PlSmallStr>]) -> Result<(), AllocError>
    ensures tokens { OnOk result (writer.new.tokens
        ≡ writer.old.tokens ++ json_tokens (outline (list_data names_data reads.now))) }
    ensures before { OnOk result (writer.new.before ≡ writer.old.before) }
{
    writer.begin_array()?;
    for names in reads {
        write_names(writer, names.as_slice())?;
    }
    writer.end_array()
}

/// Writes the object of a listing.
#[tactic(auto, unfolding(crate::specs::Written::listing_data))]
fn write_listing(
    alloc: Global,
    writer: &mut Writer,
    plan: &PlanCopy,
    reads: &[Items<PlSmallStr>],
    rows: Option<&Table>,
) -> Result<(), AllocError>
    ensures tokens { OnOk result (writer.new.tokens ≡ writer.old.tokens ++ json_tokens (outline
        (listing_data plan.now.lp plan.now.ex plan.now.root reads.now (option_copied rows.entry)))) }
    ensures before { OnOk result (writer.new.before ≡ writer.old.before) }
{
    writer.begin_object()?;
    writer.key("plan")?;
    write_plan(alloc, writer, plan)?;
    writer.key("reads")?;
    write_reads(writer, reads)?;
    writer.key("rows")?;
    write_rows(writer, rows)?;
    writer.end_object()
}

/// The text of a listing, with no line feed.
pub fn listing_bytes(
    alloc: Global,
    plan: &PlanCopy,
    reads: &[Items<PlSmallStr>],
    rows: Option<&Table>,
) -> Result<Vec<u8>, AllocError>
    ensures { IfOk result (λ text. text.items ≡ compact_text
        (listing_data plan.now.lp plan.now.ex plan.now.root reads.now (option_copied rows.entry))) }
{
    let mut writer = Writer::new(Vec::new(alloc));
    write_listing(alloc, &mut writer, plan, reads, rows)?;
    Ok(writer.into_inner())
}
