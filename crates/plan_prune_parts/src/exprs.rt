//! What pruning reads of expressions: the names of their columns, and which of them are asked.
ghost use Rattle.std.specs.Prelude.{◌≡◌, All, IfOk, OnOk};
ghost use Rattle.plan_core.specs.Names.{with_names};
ghost use Rattle.plan_expr.specs.Operands.{IsExpr};
ghost use Rattle.plan_expr.specs.Exprs.{all_named_at, expr_at};
ghost use Rattle.plan_expr.specs.Leaves.{leaves};
ghost use Rattle.plan_frame.specs.ExprLists.{all_leaves};
ghost use Rattle.plan_prune_parts.specs.Kept.{asked_exprs as exprs_asked, names_at, stacked_at, with_typed as columns_with};

use plan_core::{Arena, Items, Names, Node, PlSmallStr, Schema, TryClone};
use plan_expr::{AExpr, ExprIR, output_name};
use std::alloc::{AllocError, Global};

/// Adds the names of the columns of an expression, in walk order. Refuses for want of memory alone, and then nothing is
/// known of the names.
pub fn add_names(names: &mut Names, node: Node, ex: &Arena<AExpr>) -> Result<(), AllocError>
    requires { IsExpr ex.now node }
    ensures { OnOk result (names.new ≡ with_names names.old (leaves (expr_at ex.now node))) }
{
    let expr = ex.get(node);
    if let Some(name) = expr.column_name() {
        let _ = names.add(name)?;
        return Ok(());
    }
    let mut place = 0;
    while let Some(operand) = expr.operand(place) {
        add_names(names, operand, ex)?;
        place += 1;
    }
    Ok(())
}

/// Adds the names of the columns of the expressions, in walk order. Refuses for want of memory alone, and then nothing
/// is known of the names.
pub fn add_all_names(
    names: &mut Names,
    exprs: &[ExprIR],
    ex: &Arena<AExpr>,
) -> Result<(), AllocError>
    requires { All (λ e. IsExpr ex.now e.node) exprs.now }
    ensures { OnOk result (names.new ≡ with_names names.old (all_leaves (all_named_at ex.now exprs.now))) }
{
    for expr in exprs {
        add_names(names, expr.node, ex)?;
    }
    Ok(())
}

/// The expressions that are asked, in their order. Refuses for want of memory alone.
pub fn asked_exprs(
    alloc: Global,
    exprs: &[ExprIR],
    asked: &Names,
) -> Result<Items<ExprIR>, AllocError>
    ensures { IfOk result (λ kept. kept ≡ exprs_asked asked.now exprs.now) }
{
    let mut kept = Items::new(alloc);
    for expr in exprs {
        if asked.contains(output_name(&expr.output_name)) {
            kept.push(expr.try_clone(alloc)?)?;
        }
    }
    Ok(kept)
}

/// The expressions that are asked, in their order; asked nothing, all. Refuses for want of memory alone.
pub fn kept_exprs(
    alloc: Global,
    exprs: Items<ExprIR>,
    asked: &Names,
) -> Result<Items<ExprIR>, AllocError>
    ensures { IfOk result (λ kept. kept ≡ stacked_at asked.now exprs) }
{
    if asked.len() == 0 {
        return Ok(exprs);
    }
    Ok(asked_exprs(alloc, exprs.as_slice(), asked)?)
}

/// The columns, and those that the expressions make beside them: each in the place of the one of its name, or last, with its
/// type in the schema; one that the schema lacks is left out. Refuses for want of memory alone.
pub fn with_typed(
    alloc: Global,
    base: Schema,
    exprs: &[ExprIR],
    schema: &Schema,
) -> Result<Schema, AllocError>
    ensures { IfOk result (λ columns. columns ≡ columns_with base (names_at exprs.now) schema.now) }
{
    let mut columns = base;
    for expr in exprs {
        let name = output_name(&expr.output_name);
        if let Some(dtype) = schema.get(name) {
            let _ = columns.with_column(PlSmallStr::new(alloc, name)?, *dtype)?;
        }
    }
    Ok(columns)
}
