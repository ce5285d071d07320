//! The asked names that an input has.
ghost use Rattle.std.specs.Prelude.{◌≡◌, List, [], ◌∷◌, IfOk, OnOk, filter, is_some};
ghost use Rattle.plan_tree.specs.Stands.{Trees, StandsOnce};
ghost use Rattle.plan_expr.specs.declared.aexpr.AExpr.{AExpr};
ghost use Rattle.plan_ir.specs.Parts.{plan_shape};
ghost use Rattle.plan_pruned.specs.Pruned.{held_names};
ghost use Rattle.plan_prune_names.specs.Known.{KnowsAt, type_in};
ghost use Rattle.plan_prune_parts.specs.Said.{columns_at};

use crate::known_columns::KnownColumns;
use crate::walk::know;
use plan_core::{Arena, Names, Node};
use plan_ir::IR;
use std::alloc::{AllocError, Global};

/// The names that are columns, in their order. Refuses for want of memory alone.
pub fn known(alloc: Global, names: &Names, columns: &KnownColumns) -> Result<Names, AllocError>
    ensures { IfOk result (λ known. known ≡ filter (λ a. is_some (type_in columns.now a)) names.now) }
{
    let mut known = Names::new(alloc);
    for i in 0..names.len() {
        if let Some(name) = names.get_at_index(i) {
            if columns.get(name).is_some() {
                let _ = known.add(name)?;
            }
        }
    }
    Ok(known)
}

/// The names that the plan at a number says it has, of those that are asked, in the asked order, by what is known of its columns.
/// Refuses for want of memory alone.
pub fn known_by(
    alloc: Global,
    asked: &Names,
    input: Node,
    lp: &Arena<IR>,
    columns: &mut KnownColumns,
) -> Result<Names, AllocError>
    requires stands { (t : Trees IR) × StandsOnce plan_shape lp.now (input ∷ []) t }
    requires known { KnowsAt columns.old lp.now (input ∷ []) }
    ensures names { IfOk result (λ names. (ex : List AExpr) → names ≡ held_names asked.now (columns_at lp.now ex input)) }
    ensures known { OnOk result (KnowsAt columns.new lp.now (input ∷ [])) }
{
    know(alloc, input, lp, columns)?;
    known(alloc, asked, columns)
}

/// The names that the plan at a number says it has, of those that are asked, in the asked order; asked nothing, none. Refuses for
/// want of memory alone.
pub fn known_at(
    alloc: Global,
    asked: &Names,
    input: Node,
    lp: &Arena<IR>,
) -> Result<Names, AllocError>
    requires { (t : Trees IR) × StandsOnce plan_shape lp.now (input ∷ []) t }
    ensures { IfOk result (λ names. (ex : List AExpr) → names ≡ held_names asked.now (columns_at lp.now ex input)) }
{
    if asked.len() == 0 {
        return Ok(Names::new(alloc));
    }
    let mut columns = KnownColumns::new(alloc);
    known_by(alloc, asked, input, lp, &mut columns)
}
