//! A projection to the asked names on top of a node: the node moves to a new number, and the projection takes its own.
//! Asked nothing, the node stays.
ghost use Rattle.std.specs.Prelude.{◌≡◌, ◌<◌, ◌≤◌, List, [], ◌∷◌, IfOk, OnOk, length};
ghost use Rattle.plan_tree.specs.Stands.{Trees, StandsOnce};
ghost use Rattle.plan_expr.specs.declared.aexpr.AExpr.{AExpr};
ghost use Rattle.plan_ir.specs.declared.ir.IR.{IR};
ghost use Rattle.plan_ir.specs.Parts.{plan_shape};
ghost use Rattle.plan_pruned.specs.Pruned.{asked_columns as asked_of};
ghost use Rattle.plan_prune_parts.specs.Tops.{covered_at, with_columns_on, with_top};
ghost use Rattle.plan_prune_parts.specs.Said.{columns_at};

use plan_core::{Arena, Names, Node, Schema};
use plan_ir::IR;
use plan_pruned::asked_columns;
use plan_schema::stored_schema;
use std::alloc::{AllocError, Global};

/// Puts a node at a new number, and at `node` a projection to `columns` on top of it. Refuses for want of memory alone, and
/// then nothing is known of what stands at `node`.
pub fn put_under(
    node: Node,
    entry: IR,
    columns: Schema,
    lp: &mut Arena<IR>,
) -> Result<(), AllocError>
    requires { node.0 < length lp.old }
    ensures placed { OnOk result (lp.new ≡ with_top columns lp.old node entry) }
    ensures grows { length lp.old ≤ length lp.new }
{
    let input = lp.add(entry)?;
    lp.put(node, IR::SimpleProjection { input, columns });
    Ok(())
}

/// Puts a node at `node`, under a projection where there are columns. Refuses for want of memory alone, and then nothing is
/// known of what stands at `node`.
pub fn put(
    node: Node,
    entry: IR,
    columns: Option<Schema>,
    lp: &mut Arena<IR>,
) -> Result<(), AllocError>
    requires { node.0 < length lp.old }
    ensures placed { OnOk result (lp.new ≡ with_columns_on columns lp.old node entry) }
    ensures grows { length lp.old ≤ length lp.new }
{
    match columns {
        Some(columns) => put_under(node, entry, columns, lp),
        None => {
            lp.put(node, entry);
            Ok(())
        }
    }
}

/// The columns of a projection to the asked names on top of what stands at `node`; none where no names are asked. Refuses for want of
/// memory alone.
fn asked_at(
    alloc: Global,
    asked: &Names,
    node: Node,
    lp: &Arena<IR>,
) -> Result<Option<Schema>, AllocError>
    requires { (t : Trees IR) × StandsOnce plan_shape lp.now (node ∷ []) t }
    ensures { IfOk result (λ columns. (ex : List AExpr) → columns ≡ asked_of asked.now (columns_at lp.now ex node)) }
{
    if asked.len() == 0 {
        return Ok(None);
    }
    let stored = stored_schema(alloc, node, lp)?;
    Ok(asked_columns(alloc, asked, stored.columns())?)
}

/// Puts a projection to the asked names on top of what stands at `node`. Refuses for want of memory alone, and then nothing
/// is known of what stands at `node`.
pub fn cover(alloc: Global, node: Node, asked: &Names, lp: &mut Arena<IR>) -> Result<(), AllocError>
    requires { (t : Trees IR) × StandsOnce plan_shape lp.old (node ∷ []) t }
    ensures placed { OnOk result ((ex : List AExpr) → lp.new ≡ covered_at (asked_of asked.now (columns_at lp.old ex node)) lp.old node) }
    ensures grows { length lp.old ≤ length lp.new }
{
    match asked_at(alloc, asked, node, lp)? {
        Some(columns) => {
            let entry = lp.take(node);
            put_under(node, entry, columns, lp)
        }
        None => Ok(()),
    }
}
