//! The rows that meet a condition that works row by row: it is worked out for one row and all rows of the other side at once, over
//! the columns that it reads.
ghost use Rattle.std.specs.Prelude.{◌≡◌, [], map, true, IfOk};
ghost use Rattle.plan_core.specs.Columns.{HasDistinctNames};
ghost use Rattle.plan_expr.specs.Exprs.{expr_at};
ghost use Rattle.plan_expr.specs.Operands.{IsExpr};
ghost use Rattle.plan_frame.specs.Meaning.{val, value_at as value_of_row};
ghost use Rattle.plan_frame.specs.Values.{is_true as true_value};
ghost use Rattle.plan_join.specs.Naming.{join_columns};
ghost use Rattle.plan_join_eval.specs.Compared.{condition_test, sided, AreLists};
ghost use Rattle.plan_join_eval.specs.Reads.{all_beside, beside as pair_beside, is_beside_true, read_frame, read_type};
ghost use Rattle.plan_meaning.specs.JoinChecks.{is_elementwise as elementwise};
ghost use Rattle.plan_join.specs.Pairs.{passing};
ghost use Rattle.plan_value.specs.Cells.{cell_of};
ghost use Rattle.plan_value.specs.Shown.{frame_of, schema_of};

use crate::reads::{Read, read_table, reads};
use plan_core::{Arena, Items, Node};
use plan_expr::AExpr;
use plan_join::RowPair;
use plan_options::JoinArgs;
use plan_table::Table;
use plan_value::{Values, evaluate_expr, is_true_at};
use std::alloc::{AllocError, Global};

/// A row of the side that is gone through, which is the right one or the left, with one of the other.
fn beside(by_right: bool, row: usize, other: usize) -> RowPair
    ensures { result ≡ pair_beside by_right row other }
{
    if by_right {
        RowPair {
            left: Some(other),
            right: Some(row),
        }
    } else {
        RowPair {
            left: Some(row),
            right: Some(other),
        }
    }
}

/// A row of the side that is gone through with each of so many of the other.
fn pairs_beside(
    alloc: Global,
    by_right: bool,
    row: usize,
    others: usize,
) -> Result<Items<RowPair>, AllocError>
    ensures { IfOk result (λ pairs. pairs ≡ all_beside by_right row others) }
{
    let mut pairs = Items::new(alloc);
    for other in 0..others {
        pairs.push(beside(by_right, row, other))?;
    }
    Ok(pairs)
}

/// The rows in which values are true, of so many rows.
fn true_rows(alloc: Global, values: &Values, height: usize) -> Result<Items<usize>, AllocError>
    ensures { IfOk result (λ rows. rows ≡ passing (λ i. true_value (value_of_row (cell_of values.now) i)) height) }
{
    let mut rows = Items::new(alloc);
    for row in 0..height {
        if is_true_at(values, row) {
            rows.push(row)?;
        }
    }
    Ok(rows)
}

/// The values of an expression along pairs of rows, over the columns that it reads.
fn values_along(
    alloc: Global,
    node: Node,
    reads: &[Read<'_>],
    ex: &Arena<AExpr>,
    pairs: &[RowPair],
) -> Result<Values, AllocError>
    requires stands { IsExpr ex.now node }
    requires distinct { HasDistinctNames (map read_type reads.now) }
    ensures { IfOk result (λ vs. cell_of vs ≡ val (expr_at ex.now node) (read_frame pairs.now reads.now)) }
{
    let table = read_table(alloc, reads, pairs)?;
    evaluate_expr(alloc, node, ex, &table)
}

/// The rows of the other side for which a condition is true beside a row of the side that is gone through.
fn rows_where(
    alloc: Global,
    by_right: bool,
    condition: Node,
    reads: &[Read<'_>],
    ex: &Arena<AExpr>,
    row: usize,
    others: usize,
) -> Result<Items<usize>, AllocError>
    requires stands { IsExpr ex.now condition }
    requires distinct { HasDistinctNames (map read_type reads.now) }
    ensures { IfOk result (λ rows. rows ≡ passing (is_beside_true by_right (expr_at ex.now condition) reads.now row others) others) }
{
    let pairs = pairs_beside(alloc, by_right, row, others)?;
    let values = values_along(alloc, condition, reads, ex, pairs.as_slice())?;
    true_rows(alloc, &values, others)
}

/// For each of so many rows of the side that is gone through, the rows of the other for which a condition is true beside it.
fn lists_where(
    alloc: Global,
    by_right: bool,
    condition: Node,
    reads: &[Read<'_>],
    ex: &Arena<AExpr>,
    height: usize,
    others: usize,
) -> Result<Vec<Items<usize>>, AllocError>
    requires stands { IsExpr ex.now condition }
    requires distinct { HasDistinctNames (map read_type reads.now) }
    ensures { IfOk result (λ lists. AreLists (λ i. is_beside_true by_right (expr_at ex.now condition) reads.now i others) height others lists.items) }
{
    let mut lists = Vec::new(alloc);
    for row in 0..height {
        lists.push(rows_where(alloc, by_right, condition, reads, ex, row, others)?)?;
    }
    Ok(lists)
}

/// For each of so many rows of the side that is gone through, which is the right one or the left, the rows of the other for which
/// a condition that works row by row is true of the row that the join makes of both.
pub fn worked_lists(
    alloc: Global,
    by_right: bool,
    condition: Node,
    args: &JoinArgs,
    left: &Table,
    right: &Table,
    ex: &Arena<AExpr>,
    height: usize,
    others: usize,
) -> Result<Vec<Items<usize>>, AllocError>
    requires stands { IsExpr ex.now condition }
    requires distinct { HasDistinctNames (join_columns args.now [] [] (schema_of left.now) (schema_of right.now)) }
    requires by_row { elementwise (expr_at ex.now condition) ≡ true }
    ensures { IfOk result (λ lists. AreLists (sided by_right (condition_test ex.now args.now condition (frame_of left.now) (frame_of right.now))) height others lists.items) }
{
    let reads = reads(alloc, condition, args, left, right, ex)?;
    lists_where(
        alloc,
        by_right,
        condition,
        reads.as_slice(),
        ex,
        height,
        others,
    )
}
