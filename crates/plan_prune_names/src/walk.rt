//! The columns that the plan at a number says it has, by name.
ghost use Rattle.std.specs.Prelude.{◌≡◌, List, [], ◌∷◌, IfOk, IsTrue, OnOk};
ghost use Rattle.plan_tree.specs.Rose.{Roses, rose, no_roses, more};
ghost use Rattle.plan_tree.specs.Stands.{Trees, StandsOnce};
ghost use Rattle.plan_expr.specs.declared.aexpr.AExpr.{AExpr};
ghost use Rattle.plan_ir.specs.declared.ir.IR.{IR as IRType};
ghost use Rattle.plan_ir.specs.Parts.{inputs_of, plan_shape};
ghost use Rattle.plan_ir.specs.Plans.{Op, bare, map_function, plans_at};
ghost use Rattle.plan_meaning.specs.Typing.{first_schema};
ghost use Rattle.plan_schema.specs.Stored.{stored_all};
ghost use Rattle.plan_prune_parts.specs.Said.{columns_at};
ghost use Rattle.plan_prune_names.specs.ByName.{input_shown as shown_by};
ghost use Rattle.plan_prune_names.specs.Known.{KnowsAt, KnowsOver, Lays, Shows};

use crate::functions::change;
use crate::known_columns::KnownColumns;
use plan_core::{Arena, Node};
use plan_ir::{FunctionIR, IR};
use plan_schema::stored_schema;
use std::alloc::{AllocError, Global};

/// The input whose columns a node has, if it has those of one.
pub fn input_shown(entry: &IR) -> Option<Node>
    ensures { result ≡ shown_by entry.now }
{
    match entry {
        IR::Slice { input, .. } => Some(*input),
        IR::Filter { input, .. } => Some(*input),
        IR::Sort { input, .. } => Some(*input),
        IR::Distinct { input, .. } => Some(*input),
        IR::Sink { input, .. } => Some(*input),
        IR::Cache { input, .. } => Some(*input),
        IR::Union { inputs, .. } => inputs.as_slice().first().copied(),
        _ => None,
    }
}

/// Puts what a function changes on top of the columns of its input. Says whether it does; if not, nothing is known of the columns.
/// Refuses for want of memory alone.
fn rise(
    alloc: Global,
    node: Node,
    function: &FunctionIR,
    columns: &mut KnownColumns,
) -> Result<bool, AllocError>
    ensures { IfOk result (λ fits. IsTrue fits → (ts : Roses (Unit {0}) Op) → Lays columns.old ts → Lays columns.new (more (rose tt (map_function function.now) ts) no_roses)) }
{
    let below = columns.change_count();
    if !change(alloc, node, function, columns)? {
        return Ok(false);
    }
    columns.mark(below)?;
    Ok(true)
}

/// Makes the columns those of the plan at a number. Refuses for want of memory alone.
fn lay(
    alloc: Global,
    node: Node,
    lp: &Arena<IR>,
    columns: &mut KnownColumns,
) -> Result<(), AllocError>
    requires { (t : Trees IRType) × StandsOnce plan_shape lp.now (node ∷ []) t }
    ensures { OnOk result ((ex : List AExpr) → Lays columns.new (bare (plans_at lp.now ex (node ∷ [])))) }
{
    let entry = lp.get(node);
    if let Some(input) = input_shown(entry) {
        return lay(alloc, input, lp, columns);
    }
    if let IR::MapFunction { input, function } = entry {
        lay(alloc, *input, lp, columns)?;
        if rise(alloc, node, function, columns)? {
            return Ok(());
        }
    }
    let stored = stored_schema(alloc, node, lp)?;
    columns.restart(alloc, stored.columns())
}

/// Makes the columns known of the plan at a number, unless they are. Refuses for want of memory alone.
pub fn know(
    alloc: Global,
    node: Node,
    lp: &Arena<IR>,
    columns: &mut KnownColumns,
) -> Result<(), AllocError>
    requires stands { (t : Trees IRType) × StandsOnce plan_shape lp.now (node ∷ []) t }
    requires known { KnowsAt columns.old lp.now (node ∷ []) }
    ensures known { OnOk result (KnowsAt columns.new lp.now (node ∷ [])) }
    ensures is_known { OnOk result (IsTrue columns.new.is_known) }
    ensures shows { OnOk result ((ex : List AExpr) → Shows columns.new (columns_at lp.now ex node)) }
{
    if columns.is_known() {
        return Ok(());
    }
    lay(alloc, node, lp, columns)?;
    columns.settle();
    Ok(())
}

/// What is known of the columns of a node is known of its first input where the node has the columns of that, or those that a function
/// makes of them; else nothing is known any more. Refuses for want of memory alone.
pub fn descend(entry: &IR, columns: &mut KnownColumns) -> Result<(), AllocError>
    ensures { OnOk result ((lp : List IRType) → KnowsOver columns.old lp entry.now → KnowsAt columns.new lp (inputs_of entry.now)) }
{
    if let IR::MapFunction { .. } = entry {
        return columns.descend();
    }
    if input_shown(entry).is_none() {
        columns.forget();
    }
    Ok(())
}
