//! The rule that leaves it to a grouping to put its input together in memory.
//!
//! ```text
//! GroupBy [key]            GroupBy [key]
//!   Filter                   Filter
//!     Scan, rechunk    =>      Scan
//! ```
ghost use Rattle.std.specs.Prelude.{◌≡◌, List, [], ◌∷◌, None, length, IfOk, OnOk, if◌then◌else◌};
ghost use Rattle.plan_tree.specs.Stands.{Trees, StandsOnce};
ghost use Rattle.plan_expr.specs.declared.aexpr.AExpr.{AExpr as AExprType};
ghost use Rattle.plan_ir.specs.declared.ir.IR.{IR as IRType};
ghost use Rattle.plan_ir.specs.Parts.{first_input, plan_shape};
ghost use Rattle.plan_ir.specs.Plans.{op_at};
ghost use Rattle.plan_pass_laws.specs.Answers.{groups_by_one};
ghost use Rattle.plan_rule.specs.Sought.{first_sought, is_sought, unmarked_entry, Delays};

use crate::rule::OptimizationRule;
use plan_core::{Arena, Items, Node, PolarsResult};
use plan_expr::AExpr;
use plan_ir::IR;
use plan_pass_laws::RuleKind;
use plan_tree::Entry;
use std::alloc::{AllocError, Global};

/// Clears the rechunk mark of the first scan of files or union below a grouping by one key, where no join comes before it. A node
/// comes before its inputs, and a later input before an earlier one.
#[derive(Drop)]
pub struct DelayRechunk {}

/// Whether a node is a scan of files, a union or a join.
fn is_sought(entry: &IR) -> bool
    ensures { result ≡ is_sought entry.now }
{
    matches!(entry, IR::Scan { .. } | IR::Union { .. } | IR::Join { .. })
}

/// The first scan of files, union or join at some numbers or below, the last number first; None where there is none. The numbers are
/// given up, but for those that are left at an answer. Refuses for want of memory alone.
fn next_sought(pending: &mut Items<Node>, lp: &Arena<IR>) -> Result<Option<Node>, AllocError>
    requires { (t : Trees IRType) × StandsOnce plan_shape lp.now pending.old t }
    ensures { IfOk result (λ found. (t : Trees IRType) → StandsOnce plan_shape lp.now pending.old t → found ≡ first_sought t) }
{
    while let Some(node) = pending.pop() {
        let entry = lp.get(node);
        if is_sought(entry) {
            return Ok(Some(node));
        }
        entry.copy_inputs(pending)?;
    }
    Ok(None)
}

/// The first scan of files, union or join of the plan at a number; None where there is none. It stops there, and keeps a stack of its
/// own. Refuses for want of memory alone.
fn first_sought(alloc: Global, node: Node, lp: &Arena<IR>) -> Result<Option<Node>, AllocError>
    requires { (t : Trees IRType) × StandsOnce plan_shape lp.now (node ∷ []) t }
    ensures { IfOk result (λ found. (t : Trees IRType) → StandsOnce plan_shape lp.now (node ∷ []) t → found ≡ first_sought t) }
{
    let mut pending = Items::new(alloc);
    pending.push(node)?;
    next_sought(&mut pending, lp)
}

/// Clears the rechunk mark of a node that has one.
fn unmark(entry: &mut IR)
    ensures { entry.new ≡ unmarked_entry entry.old }
{
    match entry {
        IR::Scan { file_options, .. } => file_options.rechunk = false,
        IR::Union { options, .. } => options.rechunk = false,
        _ => {}
    }
}

/// Clears the mark of the first scan of files, union or join of the plan at a number. Refuses for want of memory alone.
fn delay(alloc: Global, node: Node, lp: &mut Arena<IR>) -> Result<(), AllocError>
    requires { (t : Trees IRType) × StandsOnce plan_shape lp.old (node ∷ []) t }
    ensures delays { OnOk result ((t : Trees IRType) → StandsOnce plan_shape lp.old (node ∷ []) t → Delays lp.old lp.new (node ∷ []) t) }
    ensures size { length lp.new ≡ length lp.old }
{
    match first_sought(alloc, node, lp)? {
        None => Ok(()),
        Some(found) => {
            let mut entry = lp.take(found);
            unmark(&mut entry);
            lp.put(found, entry);
            Ok(())
        }
    }
}

/// The input of a grouping by one key; None for every other node.
fn grouped_input(entry: &IR) -> Option<Node>
    ensures { (ex : List AExprType) → result ≡ (if groups_by_one (op_at ex entry.now) then first_input entry.now else None) }
{
    match entry {
        IR::GroupBy { input, keys, .. } => { if keys.len() == 1 { Some(*input) } else { None } }
        _ => None,
    }
}

impl DelayRechunk {
    /// The rule.
    pub fn new() -> Self {
        DelayRechunk {}
    }
}

impl OptimizationRule for DelayRechunk {
    ghost use Rattle.std.specs.Prelude.{true};
    ghost use Rattle.plan_pass_laws.specs.declared.kind.RuleKind.TheVariants.{Rechunk as rechunk};

    ghost kind_of = { λ _. rechunk };

    ghost is_own = { λ _. true };

    /// None; the mark below a grouping by one key is cleared.
    fn optimize_plan(
        &mut self,
        alloc: Global,
        lp: &mut Arena<IR>,
        ex: &mut Arena<AExpr>,
        node: Node,
    ) -> PolarsResult<Option<IR>> {
        match grouped_input(lp.get(node)) {
            None => Ok(None),
            Some(input) => {
                delay(alloc, input, lp)?;
                Ok(None)
            }
        }
    }

    fn kind(&self) -> RuleKind {
        RuleKind::Rechunk
    }
}
