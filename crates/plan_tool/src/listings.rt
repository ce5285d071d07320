//! From a document to the text that lists its optimised plan.
ghost use Rattle.std.specs.Prelude.{◌≡◌, ◌≤◌, ◌^◌, ℕ, List, map, Err, IfErr, IfOk, OnOk, length, option_copied, string_bytes};
ghost use Rattle.plan_ir.specs.Parts.{IsPlan};
ghost use Rattle.plan_ir.specs.Reads.{scan_reads_of};
ghost use Rattle.plan_meaning.specs.PlanAt.{plan_at};
ghost use Rattle.plan_meaning.specs.Steps.{IsValid};
ghost use Rattle.plan_tool.specs.declared.command.Command.TheVariants.{Optimize};
ghost use Rattle.plan_text.specs.Written.{listing_text};
ghost use Rattle.plan_tool.specs.Answers.{Answers, SaysOfDocument};
ghost use Rattle.plan_tool.specs.Listings.{IsAnswer, IsListOf};
ghost use Rattle.plan_top.specs.Chains.{boxes_of, passes};
ghost use Rattle.plan_top.specs.Trails.{Chained};

use crate::check::check;
use crate::rows::{check_tables, rows_of};
use crate::stop::Stop;
use plan_copy::{into_renumbered, scan_reads};
use plan_core::{Arena, Node, OptFlags};
use plan_doc::Document;
use plan_expr::AExpr;
use plan_ir::{IR, PlanCopy};
use plan_reshape::{BoxedRule, OptimizationRule};
use plan_table::Table;
use plan_text::write_listing;
use plan_top::{Trail, optimize_with};
use std::alloc::{AllocError, Global};

/// Changes the plan at `root`, which has no fault, by the passes that the flags start, and by the boxes. Refuses for want of memory
/// alone, and then nothing is known of what stands at `root`.
fn optimize(
    alloc: Global,
    root: Node,
    flags: OptFlags,
    shared: bool,
    lp: &mut Arena<IR>,
    ex: &mut Arena<AExpr>,
    extra: &mut Vec<BoxedRule>,
) -> Result<(), AllocError>
    requires valid { IsValid (plan_at lp.old ex.old root) }
    ensures stands { OnOk result (IsPlan lp.new ex.new root) }
    ensures chained { OnOk result (Chained flags (boxes_of (map ⟦<BoxedRule as OptimizationRule>⟧.kind_of extra.old.items) (map ⟦<BoxedRule as OptimizationRule>⟧.is_own extra.old.items)) (passes flags (plan_at lp.old ex.old root)) lp.old lp.new ex.old ex.new root) }
    ensures promised { OnOk result (IsAnswer flags (boxes_of (map ⟦<BoxedRule as OptimizationRule>⟧.kind_of extra.old.items) (map ⟦<BoxedRule as OptimizationRule>⟧.is_own extra.old.items)) (plan_at lp.new ex.new root) (plan_at lp.old ex.old root)) }
    ensures kinds { map ⟦<BoxedRule as OptimizationRule>⟧.kind_of extra.new.items ≡ map ⟦<BoxedRule as OptimizationRule>⟧.kind_of extra.old.items }
    ensures owns { map ⟦<BoxedRule as OptimizationRule>⟧.is_own extra.new.items ≡ map ⟦<BoxedRule as OptimizationRule>⟧.is_own extra.old.items }
{
    let mut scratch = Vec::new(alloc);
    let mut trail = Trail::new(alloc);
    match optimize_with(
        alloc,
        root,
        flags,
        shared,
        lp,
        ex,
        &mut scratch,
        extra,
        &mut trail,
    ) {
        Ok(_) => Ok(()),
        // The plan was checked.
        Err(_) => Err(AllocError),
    }
}

/// Optimises the plan of a document in its place, and gives its rows where there are tables, or why there is no answer. The boxes are
/// called too.
fn answered(
    alloc: Global,
    document: &mut Document,
    extra: &mut Vec<BoxedRule>,
) -> Result<Option<Table>, Stop>
    ensures refused { IfErr result (λ stop. SaysOfDocument (boxes_of (map ⟦<BoxedRule as OptimizationRule>⟧.kind_of extra.old.items) (map ⟦<BoxedRule as OptimizationRule>⟧.is_own extra.old.items)) Optimize (Err stop) document.old) }
    ensures stands { OnOk result (IsPlan document.new.lp document.new.ex document.new.root) }
    ensures lists { IfOk result (λ rows. (text : List ℕ) → IsListOf document.new.lp document.new.ex document.new.root rows text → Answers (boxes_of (map ⟦<BoxedRule as OptimizationRule>⟧.kind_of extra.old.items) (map ⟦<BoxedRule as OptimizationRule>⟧.is_own extra.old.items)) Optimize document.old text) }
    ensures kinds { map ⟦<BoxedRule as OptimizationRule>⟧.kind_of extra.new.items ≡ map ⟦<BoxedRule as OptimizationRule>⟧.kind_of extra.old.items }
    ensures owns { map ⟦<BoxedRule as OptimizationRule>⟧.is_own extra.new.items ≡ map ⟦<BoxedRule as OptimizationRule>⟧.is_own extra.old.items }
{
    let (root, flags, shared) = (document.root, document.flags, document.shared);
    let _ = check(alloc, root, &document.lp, &document.ex)?;
    check_tables(root, &document.lp, &document.tables)?;
    optimize(
        alloc,
        root,
        flags,
        shared,
        &mut document.lp,
        &mut document.ex,
        extra,
    )?;
    let rows = rows_of(alloc, root, &document.lp, &document.ex, &document.tables)?;
    Ok(rows)
}

/// The text that lists a plan, what its scans read, and rows. Refuses for want of memory alone.
fn write(alloc: Global, plan: &PlanCopy, rows: Option<&Table>) -> Result<String, AllocError>
    ensures text { IfOk result (λ text. string_bytes text ≡ listing_text plan.now.lp plan.now.ex plan.now.root (scan_reads_of plan.now.lp) (option_copied rows.entry)) }
    ensures few_nodes { length plan.now.lp ≤ 2 ^ 32 }
    ensures few_exprs { length plan.now.ex ≤ 2 ^ 32 }
{
    // An arena has few enough entries for the links of a document.
    let _ = (plan.lp.len(), plan.ex.len());
    let reads = scan_reads(alloc, plan)?;
    Ok(write_listing(alloc, plan, reads.as_slice(), rows)?)
}

/// The text that lists the plan of a document, what its scans read, and rows. The columns move into the plan that is listed. Refuses for
/// want of memory alone.
fn list(alloc: Global, document: Document, rows: Option<&Table>) -> Result<String, AllocError>
    requires { IsPlan document.lp document.ex document.root }
    ensures { IfOk result (λ text. IsListOf document.lp document.ex document.root (option_copied rows.entry) (string_bytes text)) }
{
    let Document { root, lp, ex, .. } = document;
    let plan = into_renumbered(alloc, root, lp, ex)?;
    write(alloc, &plan, rows)
}

/// The text that lists the optimised plan of a document, or why there is none. The boxes are called too.
pub fn listing(
    alloc: Global,
    mut document: Document,
    extra: &mut Vec<BoxedRule>,
) -> Result<String, Stop>
    ensures says { SaysOfDocument (boxes_of (map ⟦<BoxedRule as OptimizationRule>⟧.kind_of extra.old.items) (map ⟦<BoxedRule as OptimizationRule>⟧.is_own extra.old.items)) Optimize result document }
    ensures kinds { map ⟦<BoxedRule as OptimizationRule>⟧.kind_of extra.new.items ≡ map ⟦<BoxedRule as OptimizationRule>⟧.kind_of extra.old.items }
    ensures owns { map ⟦<BoxedRule as OptimizationRule>⟧.is_own extra.new.items ≡ map ⟦<BoxedRule as OptimizationRule>⟧.is_own extra.old.items }
{
    let rows = answered(alloc, &mut document, extra)?;
    Ok(list(alloc, document, rows.as_ref())?)
}
