//! What a node asks its input: names, and those that its expressions read.
ghost use Rattle.std.specs.Prelude.{◌≡◌, All, [], ◌∷◌, IfOk};
ghost use Rattle.plan_core.specs.Names.{with_names};
ghost use Rattle.plan_tree.specs.Stands.{Trees, StandsOnce};
ghost use Rattle.plan_expr.specs.Operands.{IsExpr};
ghost use Rattle.plan_expr.specs.Exprs.{all_named_at};
ghost use Rattle.plan_frame.specs.ExprLists.{all_leaves};
ghost use Rattle.plan_ir.specs.declared.ir.IR.{IR};
ghost use Rattle.plan_ir.specs.Parts.{plan_shape};
ghost use Rattle.plan_pruned.specs.Pruned.{held_names};
ghost use Rattle.plan_prune_parts.specs.Said.{columns_at};

use plan_core::{Arena, Names, Node};
use plan_expr::{AExpr, ExprIR};
use plan_ir::IR;
use plan_prune_names::known_at;
use plan_prune_parts::exprs::add_all_names;
use std::alloc::{AllocError, Global};

/// The names, once some were added to them. Refuses where there was no memory for that.
pub fn with_added(names: Names, added: Result<(), AllocError>) -> Result<Names, AllocError>
    ensures { IfOk result (λ kept. (kept ≡ names) × (added ≡ Ok tt)) }
{
    match added {
        Ok(()) => Ok(names),
        Err(error) => {
            drop(names);
            Err(error)
        }
    }
}

/// The asked names that the input has, and then the other names that the expressions read. Refuses for want of memory alone.
pub fn held_and_read(
    alloc: Global,
    asked: &Names,
    exprs: &[ExprIR],
    input: Node,
    lp: &Arena<IR>,
    ex: &Arena<AExpr>,
) -> Result<Names, AllocError>
    requires exprs { All (λ e. IsExpr ex.now e.node) exprs.now }
    requires input { (t : Trees IR) × StandsOnce plan_shape lp.now (input ∷ []) t }
    ensures { IfOk result (λ names. names ≡ with_names (held_names asked.now (columns_at lp.now ex.now input)) (all_leaves (all_named_at ex.now exprs.now))) }
{
    let mut names = known_at(alloc, asked, input, lp)?;
    let added = add_all_names(&mut names, exprs, ex);
    with_added(names, added)
}
