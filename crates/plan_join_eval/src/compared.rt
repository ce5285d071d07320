//! The rows that meet what only some kinds of joins are told: inequalities of keys, or a condition.
ghost use Rattle.std.specs.Prelude.{◌≡◌, [], ◌∷◌, IfOk, if◌then◌else◌};
ghost use Rattle.plan_core.specs.Columns.{HasDistinctNames};
ghost use Rattle.plan_expr.specs.Exprs.{expr_at};
ghost use Rattle.plan_expr.specs.Operands.{IsExpr};
ghost use Rattle.plan_frame.specs.Meaning.{operated as operated_of, val, value_at as value_of_row};
ghost use Rattle.plan_frame.specs.Values.{is_true as true_value};
ghost use Rattle.plan_join.specs.declared.options.JoinTypeOptionsIR.TheVariants.{IEJoin};
ghost use Rattle.plan_join.specs.Naming.{join_columns};
ghost use Rattle.plan_join.specs.Told.{operator_if, operators as operators_of};
ghost use Rattle.plan_join_eval.specs.Compared.{kind_test, sided, AreLists, AreOwn, IsConditioned};
ghost use Rattle.plan_join.specs.Joined.{joined as joined_of};
ghost use Rattle.plan_join.specs.Matching.{keys_meet as keys_are_met, operator_of as operator_for};
ghost use Rattle.plan_join.specs.Pairs.{both, passing};
ghost use Rattle.plan_join.specs.Rows.{AreJoined};
ghost use Rattle.plan_value.specs.Cells.{cell_of, cells_of};
ghost use Rattle.plan_value.specs.Shown.{frame_of, schema_of, value_of};

use crate::joined::joined_table;
use crate::runs::{is_true, operator_of, value_of_key};
use crate::unequal::near_lists;
use crate::worked::worked_lists;
use plan_core::{Arena, Items, Node};
use plan_expr::{AExpr, is_elementwise};
use plan_join::{JoinTypeOptionsIR, Matches, RowPair};
use plan_options::{IEJoinOptions, InequalityOperator, JoinArgs};
use plan_table::{AnyValue, Table};
use plan_value::{Values, evaluate_expr, is_true_at, operated};
use std::alloc::{AllocError, Global};

/// A side of a join: its table, and the values of its keys over the rows of that.
#[derive(Clone, Copy)]
pub struct Rows<'a> {
    /// The table.
    pub table: &'a Table,
    /// The values of the keys, in order.
    pub keys: &'a [Values],
}

/// Whether the values of two keys in two rows meet an inequality, which null doesn't.
fn key_meets(
    operator: InequalityOperator,
    left: &Values,
    left_row: usize,
    right: &Values,
    right_row: usize,
) -> bool
    ensures { result ≡ true_value (operated_of (operator_for operator) (value_of_row (cell_of left.now) left_row) (value_of_row (cell_of right.now) right_row)) }
{
    let null = AnyValue::Null;
    let left = value_of_key(left, left_row, &null);
    let right = value_of_key(right, right_row, &null);
    is_true(&operated(operator_of(operator), left, right))
}

/// Whether the first of some keys meet an inequality, if one is told.
fn second_meets(
    operator: Option<InequalityOperator>,
    left: &[Values],
    left_row: usize,
    right: &[Values],
    right_row: usize,
) -> bool
    ensures { result ≡ keys_are_met (operator_if operator) (cells_of left.now) (cells_of right.now) left_row right_row }
{
    match (operator, left, right) {
        (Some(operator), [first, ..], [second, ..]) => {
            key_meets(operator, first, left_row, second, right_row)
        }
        _ => true,
    }
}

/// Whether the keys of two rows meet the inequalities, each pair of keys its own.
fn keys_meet(
    operators: &IEJoinOptions,
    left: &[Values],
    left_row: usize,
    right: &[Values],
    right_row: usize,
) -> bool
    ensures { result ≡ keys_are_met (operators_of operators.now) (cells_of left.now) (cells_of right.now) left_row right_row }
{
    match (left, right) {
        ([first, lefts @ ..], [second, rights @ ..]) => {
            if !key_meets(operators.operator1, first, left_row, second, right_row) {
                return false;
            }
            second_meets(operators.operator2, lefts, left_row, rights, right_row)
        }
        _ => true,
    }
}

/// Whether a condition is true of the one row that a join makes of two.
fn condition_holds(
    alloc: Global,
    condition: Node,
    args: &JoinArgs,
    left: &Table,
    left_row: usize,
    right: &Table,
    right_row: usize,
    ex: &Arena<AExpr>,
) -> Result<bool, AllocError>
    requires stands { IsExpr ex.now condition }
    requires distinct { HasDistinctNames (join_columns args.now [] [] (schema_of left.now) (schema_of right.now)) }
    ensures { IfOk result (λ b. b ≡ true_value (value_of_row (val (expr_at ex.now condition) (joined_of args.now [] [] (both left_row right_row ∷ []) (frame_of left.now) (frame_of right.now))) 0)) }
{
    let pair = RowPair {
        left: Some(left_row),
        right: Some(right_row),
    };
    let pairs = std::slice::from_ref(&pair);
    let row = joined_table(alloc, left, right, args, &[], &[], ex, pairs)?;
    let values = evaluate_expr(alloc, condition, ex, &row)?;
    Ok(is_true_at(&values, 0))
}

/// Whether a left and a right row meet what is told.
fn is_match(
    alloc: Global,
    told: &JoinTypeOptionsIR,
    args: &JoinArgs,
    left: &Rows,
    left_row: usize,
    right: &Rows,
    right_row: usize,
    ex: &Arena<AExpr>,
) -> Result<bool, AllocError>
    requires { IsConditioned ex.now args.now told.now (schema_of left.now.table.now) (schema_of right.now.table.now) }
    ensures { IfOk result (λ b. b ≡ kind_test ex.now args.now told.now (cells_of left.now.keys.now) (cells_of right.now.keys.now) (frame_of left.now.table.now) (frame_of right.now.table.now) left_row right_row) }
{
    match told {
        JoinTypeOptionsIR::IEJoin(operators) => Ok(keys_meet(
            operators, left.keys, left_row, right.keys, right_row,
        )),
        JoinTypeOptionsIR::Cross { predicate } => condition_holds(
            alloc,
            predicate.node,
            args,
            left.table,
            left_row,
            right.table,
            right_row,
            ex,
        ),
    }
}

/// Whether a row of the side that is gone through, which is the right one or the left, and a row of the other meet what is
/// told.
pub fn is_sided_match(
    alloc: Global,
    by_right: bool,
    told: &JoinTypeOptionsIR,
    args: &JoinArgs,
    left: &Rows,
    right: &Rows,
    ex: &Arena<AExpr>,
    row: usize,
    other: usize,
) -> Result<bool, AllocError>
    requires { IsConditioned ex.now args.now told.now (schema_of left.now.table.now) (schema_of right.now.table.now) }
    ensures { IfOk result (λ b. b ≡ sided by_right (kind_test ex.now args.now told.now (cells_of left.now.keys.now) (cells_of right.now.keys.now) (frame_of left.now.table.now) (frame_of right.now.table.now)) row other) }
{
    if by_right {
        is_match(alloc, told, args, left, other, right, row, ex)
    } else {
        is_match(alloc, told, args, left, row, right, other, ex)
    }
}

/// The rows of the other side that match one of the side that is gone through, which is the right one or the left.
fn matching_rows(
    alloc: Global,
    by_right: bool,
    told: &JoinTypeOptionsIR,
    args: &JoinArgs,
    left: &Rows,
    right: &Rows,
    ex: &Arena<AExpr>,
    row: usize,
    others: usize,
) -> Result<Items<usize>, AllocError>
    requires { IsConditioned ex.now args.now told.now (schema_of left.now.table.now) (schema_of right.now.table.now) }
    ensures { IfOk result (λ rows. rows ≡ passing (sided by_right (kind_test ex.now args.now told.now (cells_of left.now.keys.now) (cells_of right.now.keys.now) (frame_of left.now.table.now) (frame_of right.now.table.now)) row) others) }
{
    let mut rows = Items::new(alloc);
    for other in 0..others {
        if is_sided_match(alloc, by_right, told, args, left, right, ex, row, other)? {
            rows.push(other)?;
        }
    }
    Ok(rows)
}

/// The number of the right side, or that of the left.
fn of_side(of_right: bool, right: usize, left: usize) -> usize
    ensures { result ≡ (if of_right then right else left) }
{
    if of_right { right } else { left }
}

/// For each of so many rows of the side that is gone through, the rows of the other that match it: each pair of rows is compared.
fn compared_lists(
    alloc: Global,
    by_right: bool,
    told: &JoinTypeOptionsIR,
    args: &JoinArgs,
    left: &Rows,
    right: &Rows,
    ex: &Arena<AExpr>,
    height: usize,
    others: usize,
) -> Result<Vec<Items<usize>>, AllocError>
    requires { IsConditioned ex.now args.now told.now (schema_of left.now.table.now) (schema_of right.now.table.now) }
    ensures { IfOk result (λ lists. AreLists (sided by_right (kind_test ex.now args.now told.now (cells_of left.now.keys.now) (cells_of right.now.keys.now) (frame_of left.now.table.now) (frame_of right.now.table.now))) height others lists.items) }
{
    let mut lists = Vec::new(alloc);
    for row in 0..height {
        let rows = matching_rows(alloc, by_right, told, args, left, right, ex, row, others)?;
        lists.push(rows)?;
    }
    Ok(lists)
}

/// The values of the right side, or those of the left.
fn values_of_side<'a>(of_right: bool, right: &'a Values, left: &'a Values) -> &'a Values
    ensures { result.now ≡ (if of_right then right.now else left.now) }
{
    if of_right { right } else { left }
}

/// For each of so many rows of the side that is gone through, the rows of the other that meet the inequalities.
fn unequal_lists(
    alloc: Global,
    by_right: bool,
    told: &JoinTypeOptionsIR,
    operators: &IEJoinOptions,
    args: &JoinArgs,
    left: &Rows,
    right: &Rows,
    ex: &Arena<AExpr>,
    height: usize,
    others: usize,
) -> Result<Vec<Items<usize>>, AllocError>
    requires told { told.now ≡ IEJoin operators.now }
    requires conditioned { IsConditioned ex.now args.now told.now (schema_of left.now.table.now) (schema_of right.now.table.now) }
    ensures { IfOk result (λ lists. AreLists (sided by_right (kind_test ex.now args.now told.now (cells_of left.now.keys.now) (cells_of right.now.keys.now) (frame_of left.now.table.now) (frame_of right.now.table.now))) height others lists.items) }
{
    if let [first, ..] = left.keys {
        if let [second, ..] = right.keys {
            let own = values_of_side(by_right, second, first);
            let key = values_of_side(by_right, first, second);
            return near_lists(
                alloc,
                by_right,
                told,
                args,
                left,
                right,
                ex,
                operators.operator1,
                own,
                key,
                height,
                others,
            );
        }
    }
    compared_lists(alloc, by_right, told, args, left, right, ex, height, others)
}

/// For each of so many rows of the side that is gone through, the rows of the other that match it. A condition that works row by
/// row is worked out for all of these at once.
fn match_lists(
    alloc: Global,
    by_right: bool,
    told: &JoinTypeOptionsIR,
    args: &JoinArgs,
    left: &Rows,
    right: &Rows,
    ex: &Arena<AExpr>,
    height: usize,
    others: usize,
) -> Result<Vec<Items<usize>>, AllocError>
    requires { IsConditioned ex.now args.now told.now (schema_of left.now.table.now) (schema_of right.now.table.now) }
    ensures { IfOk result (λ lists. AreLists (sided by_right (kind_test ex.now args.now told.now (cells_of left.now.keys.now) (cells_of right.now.keys.now) (frame_of left.now.table.now) (frame_of right.now.table.now))) height others lists.items) }
{
    if let JoinTypeOptionsIR::IEJoin(operators) = told {
        return unequal_lists(
            alloc, by_right, told, operators, args, left, right, ex, height, others,
        );
    }
    if let JoinTypeOptionsIR::Cross { predicate } = told {
        if is_elementwise(predicate.node, ex) {
            return worked_lists(
                alloc,
                by_right,
                predicate.node,
                args,
                left.table,
                right.table,
                ex,
                height,
                others,
            );
        }
    }
    compared_lists(alloc, by_right, told, args, left, right, ex, height, others)
}

/// Rows of which each has its own list of those that match it.
fn own_matches(
    alloc: Global,
    lists: Vec<Items<usize>>,
    others: usize,
) -> Result<Matches, AllocError>
    ensures { IfOk result (AreOwn lists.items others) }
{
    let mut numbers = Items::new(alloc);
    for row in 0..lists.len() {
        numbers.push(Some(row))?;
    }
    Ok(Matches {
        lists,
        numbers,
        others,
    })
}

/// The rows of one side that match each row of the other, which is gone through: the right one or the left. Refuses for want of
/// memory alone.
pub fn compared_matches(
    alloc: Global,
    by_right: bool,
    told: &JoinTypeOptionsIR,
    args: &JoinArgs,
    left: &Rows,
    right: &Rows,
    ex: &Arena<AExpr>,
) -> Result<Matches, AllocError>
    requires { IsConditioned ex.now args.now told.now (schema_of left.now.table.now) (schema_of right.now.table.now) }
    ensures { IfOk result (AreJoined by_right (kind_test ex.now args.now told.now (cells_of left.now.keys.now) (cells_of right.now.keys.now) (frame_of left.now.table.now) (frame_of right.now.table.now)) left.now.table.now.height right.now.table.now.height) }
{
    let height = of_side(by_right, right.table.height, left.table.height);
    let others = of_side(by_right, left.table.height, right.table.height);
    let lists = match_lists(alloc, by_right, told, args, left, right, ex, height, others)?;
    own_matches(alloc, lists, others)
}
