//! The values of an expression over groups of rows: one for each group.
ghost use Rattle.std.specs.Prelude.{◌≡◌, IfOk, map};
ghost use Rattle.plan_expr.specs.Exprs.{expr_at};
ghost use Rattle.plan_expr.specs.Leaves.{leaves};
ghost use Rattle.plan_expr.specs.Operands.{IsExpr};
ghost use Rattle.plan_frame.specs.Frames.{rows_at as rows_of};
ghost use Rattle.plan_frame.specs.Grouping.{gathered_expr};
ghost use Rattle.plan_frame.specs.Meaning.{only_value as only_value_of, val};
ghost use Rattle.plan_value.specs.Cells.{cell_of};
ghost use Rattle.plan_value.specs.Groups.{gathered_value};
ghost use Rattle.plan_value.specs.Shown.{frame_of, value_of, values_of};

use crate::exprs::{Values, aggregate, evaluate_expr, only_value};
use crate::rows::rows_of_columns;
use plan_core::{Arena, Items, Node, PlSmallStr};
use plan_expr::{AExpr, Aggregate, aexpr_to_leaf_names, is_scalar};
use plan_table::{AnyValue, Table};
use std::alloc::{AllocError, Global};

/// One value for a group: that of a scalar expression, and the list of the values of another.
fn gathered(alloc: Global, scalar: bool, values: Values) -> Result<AnyValue, AllocError>
    ensures { IfOk result (λ v. value_of v ≡ gathered_value scalar (cell_of values)) }
{
    if scalar {
        Ok(only_value(values))
    } else {
        let list = aggregate(alloc, Aggregate::Implode, &values);
        drop(values);
        list
    }
}

/// The value of an expression over some rows of a table where it is scalar, else the list of its values. The names are those
/// that the expression reads.
fn evaluate_group(
    alloc: Global,
    node: Node,
    ex: &Arena<AExpr>,
    table: &Table,
    rows: &[usize],
    names: &[PlSmallStr],
) -> Result<AnyValue, AllocError>
    requires expr { IsExpr ex.now node }
    requires names { names.now ≡ leaves (expr_at ex.now node) }
    ensures { IfOk result (λ v. value_of v ≡ only_value_of (val (gathered_expr (expr_at ex.now node)) (rows_of rows.now (frame_of table.now)))) }
{
    let part = rows_of_columns(alloc, table, rows, names)?;
    let own = evaluate_expr(alloc, node, ex, &part)?;
    gathered(alloc, is_scalar(node, ex), own)
}

/// For each of several lists of rows of a table, the value of an expression over these rows where it is scalar, else the list of
/// its values. Refuses for want of memory alone.
pub fn evaluate_groups(
    alloc: Global,
    node: Node,
    ex: &Arena<AExpr>,
    table: &Table,
    parts: &[Items<usize>],
) -> Result<Items<AnyValue>, AllocError>
    requires { IsExpr ex.now node }
    ensures { IfOk result (λ vs. values_of vs ≡ map (λ rows. only_value_of (val (gathered_expr (expr_at ex.now node)) (rows_of rows (frame_of table.now)))) parts.now) }
{
    let names = aexpr_to_leaf_names(alloc, node, ex)?;
    let mut values = Items::new(alloc);
    for rows in parts {
        values.push(evaluate_group(alloc, node, ex, table, rows.as_slice(), names.as_slice())?)?;
    }
    Ok(values)
}
