//! The scans of a plan whose rows can be counted.
ghost use Rattle.std.specs.Prelude.{◌≡◌, List, [], ◌∷◌, IfOk, IsFalse, IsTrue, None, map};
ghost use Rattle.plan_tree.specs.Stands.{Trees, StandsOnce};
ghost use Rattle.plan_expr.specs.declared.aexpr.AExpr.{AExpr};
ghost use Rattle.plan_ir.specs.declared.ir.IR.{IR as IRType};
ghost use Rattle.plan_ir.specs.Parts.{plan_shape};
ghost use Rattle.plan_ir.specs.Plans.{bare, plans_at};
ghost use Rattle.plan_meaning.specs.PlanAt.{plan_at};
ghost use Rattle.plan_order_laws.specs.Counted.{counted_each, counted_scans};
ghost use Rattle.plan_order.specs.Counts.{Adds, under_projection as below_projection};

use plan_core::{Arena, Node};
use plan_ir::IR;
use plan_scan::{FileScan, ScanSources};
use std::alloc::AllocError;

/// The input of a projection, or the number itself.
fn under_projection(node: Node, entry: &IR) -> Node
    ensures { result ≡ below_projection node entry.now }
{
    match entry {
        IR::SimpleProjection { input, .. } => *input,
        _ => node,
    }
}

/// Adds the scans of the plan at a number, from left to right, if it has only scans, in unions of them. Says whether it does; if not,
/// nothing is known of what was added. Refuses for want of memory alone.
#[cycle(scans)]
pub fn add_scans<'a>(
    node: Node,
    lp: &'a Arena<IR>,
    found: &mut Vec<(&'a ScanSources, FileScan)>,
) -> Result<bool, AllocError>
    requires { (t : Trees IRType) × StandsOnce plan_shape lp.now (node ∷ []) t }
    ensures all { IfOk result (λ all. IsTrue all → (ex : List AExpr) → Adds (counted_scans (plan_at lp.now ex node)) (map (λ q. (q.0.now, q.1)) found.old.items) (map (λ q. (q.0.now, q.1)) found.new.items)) }
    ensures none { IfOk result (λ all. IsFalse all → (ex : List AExpr) → counted_scans (plan_at lp.now ex node) ≡ None) }
{
    match lp.get(node) {
        IR::Scan {
            sources,
            scan_type,
            ..
        } => {
            found.push((sources, *scan_type))?;
            Ok(true)
        }
        IR::Union { inputs, .. } => add_each(inputs.as_slice(), lp, found),
        _ => Ok(false),
    }
}

/// The same for the inputs of a union, each of which may be projected.
#[cycle(scans)]
fn add_each<'a>(
    inputs: &[Node],
    lp: &'a Arena<IR>,
    found: &mut Vec<(&'a ScanSources, FileScan)>,
) -> Result<bool, AllocError>
    requires { (f : Trees IRType) × StandsOnce plan_shape lp.now inputs.now f }
    ensures all { IfOk result (λ all. IsTrue all → (ex : List AExpr) → Adds (counted_each (bare (plans_at lp.now ex inputs.now))) (map (λ q. (q.0.now, q.1)) found.old.items) (map (λ q. (q.0.now, q.1)) found.new.items)) }
    ensures none { IfOk result (λ all. IsFalse all → (ex : List AExpr) → counted_each (bare (plans_at lp.now ex inputs.now)) ≡ None) }
{
    for input in inputs {
        let below = under_projection(*input, lp.get(*input));
        if !add_scans(below, lp, found)? {
            return Ok(false);
        }
    }
    Ok(true)
}
