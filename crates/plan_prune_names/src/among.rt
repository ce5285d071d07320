//! The names of all columns of an input.
ghost use Rattle.std.specs.Prelude.{◌≡◌, List, [], ◌∷◌, IsFalse, IsTrue, OnOk};
ghost use Rattle.plan_core.specs.Columns.{names_of};
ghost use Rattle.plan_core.specs.Names.{with_names};
ghost use Rattle.plan_tree.specs.Stands.{Trees, StandsOnce};
ghost use Rattle.plan_expr.specs.declared.aexpr.AExpr.{AExpr};
ghost use Rattle.plan_ir.specs.Parts.{plan_shape};
ghost use Rattle.plan_prune_names.specs.Known.{KnowsAt};
ghost use Rattle.plan_prune_parts.specs.Said.{columns_at};
ghost use Rattle.plan_prune_names.specs.Among.{AreAmong};

use crate::known_columns::KnownColumns;
use crate::ordered::names_at;
use crate::walk::know;
use plan_core::{Arena, Names, Node};
use plan_ir::IR;
use plan_pruned::add_listed;
use std::alloc::{AllocError, Global};

/// Whether all columns are among names.
fn are_all_among(names: &Names, columns: &KnownColumns) -> bool
    ensures all { IsTrue result → AreAmong names.now (names_of columns.now.types) }
    ensures lacking { IsFalse result → AreAmong names.now (names_of columns.now.types) → ⊥ }
{
    for i in 0..columns.len() {
        if let Some(name) = columns.name_at(i) {
            if !names.contains(name) {
                return false;
            }
        }
    }
    true
}

/// Adds the names of the columns that the plan at a number says it has, in order, each last unless it is there, by what is known of
/// its columns. Refuses for want of memory alone, and then nothing is known of the names.
pub fn add_columns_at(
    alloc: Global,
    names: &mut Names,
    input: Node,
    lp: &Arena<IR>,
    columns: &mut KnownColumns,
) -> Result<(), AllocError>
    requires stands { (t : Trees IR) × StandsOnce plan_shape lp.now (input ∷ []) t }
    requires known { KnowsAt columns.old lp.now (input ∷ []) }
    ensures names { OnOk result ((ex : List AExpr) → names.new ≡ with_names names.old (names_of (columns_at lp.now ex input))) }
    ensures known { OnOk result (KnowsAt columns.new lp.now (input ∷ [])) }
{
    know(alloc, input, lp, columns)?;
    if are_all_among(names, columns) {
        return Ok(());
    }
    let ordered = names_at(alloc, input, lp, columns.function_count())?;
    add_listed(names, ordered.as_slice())
}
