//! The rows that meet inequalities, where runs of rows that cannot meet the first one are passed over.
ghost use Rattle.std.specs.Prelude.{◌≡◌, ◌<◌, ◌≤◌, ℕ, All, true, IfOk};
ghost use Rattle.plan_frame.specs.Meaning.{value_at as value_of_row};
ghost use Rattle.plan_join_eval.specs.Compared.{kind_test, sided, AreLists, IsConditioned};
ghost use Rattle.plan_join_eval.specs.Runs.{is_met, is_up, AreRuns, IsNext, IsRunAt};
ghost use Rattle.plan_join.specs.Pairs.{passing};
ghost use Rattle.plan_value.specs.Cells.{cell_of, cells_of};
ghost use Rattle.plan_value.specs.Shown.{frame_of, schema_of, value_of};

use crate::compared::{Rows, is_sided_match};
use crate::runs::{Run, all_runs, goes_up, passed_over, value_of_key};
use plan_core::{Arena, Items};
use plan_expr::AExpr;
use plan_join::JoinTypeOptionsIR;
use plan_options::{InequalityOperator, JoinArgs};
use plan_table::AnyValue;
use plan_value::Values;
use std::alloc::{AllocError, Global};

/// Takes a row of the other side among those that match one of the side that is gone through, if it does, or passes over a run of rows
/// from it on; says which row comes next.
fn next_row(
    alloc: Global,
    by_right: bool,
    told: &JoinTypeOptionsIR,
    args: &JoinArgs,
    left: &Rows,
    right: &Rows,
    ex: &Arena<AExpr>,
    operator: InequalityOperator,
    own: &AnyValue,
    key: &Values,
    runs: &[Run],
    row: usize,
    other: usize,
    others: usize,
    rows: &mut Items<usize>,
) -> Result<usize, AllocError>
    requires conditioned { IsConditioned ex.now args.now told.now (schema_of left.now.table.now) (schema_of right.now.table.now) }
    requires before { rows.old ≡ passing (sided by_right (kind_test ex.now args.now told.now (cells_of left.now.keys.now) (cells_of right.now.keys.now) (frame_of left.now.table.now) (frame_of right.now.table.now)) row) other }
    requires within { other < others }
    requires runs { All (IsRunAt (is_up operator by_right) (cell_of key.now) other others) runs.now }
    requires first { (j : ℕ) → sided by_right (kind_test ex.now args.now told.now (cells_of left.now.keys.now) (cells_of right.now.keys.now) (frame_of left.now.table.now) (frame_of right.now.table.now)) row j ≡ true → is_met operator by_right (value_of own.now) (value_of_row (cell_of key.now) j) ≡ true }
    ensures { IfOk result (λ next. IsNext (sided by_right (kind_test ex.now args.now told.now (cells_of left.now.keys.now) (cells_of right.now.keys.now) (frame_of left.now.table.now) (frame_of right.now.table.now)) row) other others next rows.new) }
{
    let count = passed_over(operator, by_right, own, key, other, runs);
    if count > 0 {
        return Ok(other + count);
    }
    if is_sided_match(alloc, by_right, told, args, left, right, ex, row, other)? {
        rows.push(other)?;
    }
    Ok(other + 1)
}

/// The rows of the other side that match one of the side that is gone through.
fn near_rows(
    alloc: Global,
    by_right: bool,
    told: &JoinTypeOptionsIR,
    args: &JoinArgs,
    left: &Rows,
    right: &Rows,
    ex: &Arena<AExpr>,
    operator: InequalityOperator,
    own: &Values,
    key: &Values,
    runs: &[Items<Run>],
    row: usize,
    others: usize,
) -> Result<Items<usize>, AllocError>
    requires conditioned { IsConditioned ex.now args.now told.now (schema_of left.now.table.now) (schema_of right.now.table.now) }
    requires runs { AreRuns (is_up operator by_right) (cell_of key.now) others others runs.now }
    requires first { (j : ℕ) → sided by_right (kind_test ex.now args.now told.now (cells_of left.now.keys.now) (cells_of right.now.keys.now) (frame_of left.now.table.now) (frame_of right.now.table.now)) row j ≡ true → is_met operator by_right (value_of_row (cell_of own.now) row) (value_of_row (cell_of key.now) j) ≡ true }
    ensures { IfOk result (λ rows. rows ≡ passing (sided by_right (kind_test ex.now args.now told.now (cells_of left.now.keys.now) (cells_of right.now.keys.now) (frame_of left.now.table.now) (frame_of right.now.table.now)) row) others) }
{
    let null = AnyValue::Null;
    let value = value_of_key(own, row, &null);
    let mut rows = Items::new(alloc);
    let mut other = 0;
    while other < others {
        other = next_row(
            alloc,
            by_right,
            told,
            args,
            left,
            right,
            ex,
            operator,
            value,
            key,
            runs[other].as_slice(),
            row,
            other,
            others,
            &mut rows,
        )?;
    }
    Ok(rows)
}

/// For each of so many rows of the side that is gone through, the rows of the other that match it, where these meet an inequality of
/// two keys.
pub fn near_lists(
    alloc: Global,
    by_right: bool,
    told: &JoinTypeOptionsIR,
    args: &JoinArgs,
    left: &Rows,
    right: &Rows,
    ex: &Arena<AExpr>,
    operator: InequalityOperator,
    own: &Values,
    key: &Values,
    height: usize,
    others: usize,
) -> Result<Vec<Items<usize>>, AllocError>
    requires conditioned { IsConditioned ex.now args.now told.now (schema_of left.now.table.now) (schema_of right.now.table.now) }
    requires first { (i j : ℕ) → sided by_right (kind_test ex.now args.now told.now (cells_of left.now.keys.now) (cells_of right.now.keys.now) (frame_of left.now.table.now) (frame_of right.now.table.now)) i j ≡ true → is_met operator by_right (value_of_row (cell_of own.now) i) (value_of_row (cell_of key.now) j) ≡ true }
    ensures { IfOk result (λ lists. AreLists (sided by_right (kind_test ex.now args.now told.now (cells_of left.now.keys.now) (cells_of right.now.keys.now) (frame_of left.now.table.now) (frame_of right.now.table.now))) height others lists.items) }
{
    let runs = all_runs(alloc, goes_up(operator, by_right), key, others)?;
    let mut lists = Vec::new(alloc);
    for row in 0..height {
        lists.push(near_rows(
            alloc,
            by_right,
            told,
            args,
            left,
            right,
            ex,
            operator,
            own,
            key,
            runs.as_slice(),
            row,
            others,
        )?)?;
    }
    Ok(lists)
}
