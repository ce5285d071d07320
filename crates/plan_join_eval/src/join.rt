//! The table that a join gives of two tables.
ghost use Rattle.std.specs.Prelude.{◌≡◌, All, length, IfOk};
ghost use Rattle.plan_core.specs.Columns.{HasDistinctNames};
ghost use Rattle.plan_expr.specs.Exprs.{all_named_at};
ghost use Rattle.plan_expr.specs.Operands.{IsExpr};
ghost use Rattle.plan_join.specs.Naming.{join_columns, key_columns};
ghost use Rattle.plan_join.specs.Told.{told_at};
ghost use Rattle.plan_join.specs.OwnOrders.{own_told};
ghost use Rattle.plan_join_eval.specs.Compared.{option_test, IsTold};
ghost use Rattle.plan_join.specs.Matching.{Joins};
ghost use Rattle.plan_join.specs.Rows.{AreJoined};
ghost use Rattle.plan_value.specs.Cells.{cells_of};
ghost use Rattle.plan_value.specs.Shown.{frame_of, schema_of};

use crate::compared::{Rows, compared_matches};
use crate::equal::equal_matches;
use crate::joined::joined_table;
use plan_core::Arena;
use plan_expr::{AExpr, ExprIR};
use plan_join::{JoinOptions, Matches, goes_right, row_pairs};
use plan_table::Table;
use plan_value::key_values;
use std::alloc::{AllocError, Global};

/// The rows of one side that match each row of the other, which is gone through, the right one or the left: by the groups of
/// equal keys, or by comparing each pair of rows with what only some kinds of joins are told.
fn matches(
    alloc: Global,
    by_right: bool,
    options: &JoinOptions,
    left: &Rows,
    right: &Rows,
    ex: &Arena<AExpr>,
) -> Result<Matches, AllocError>
    requires keys { length left.now.keys.now ≡ length right.now.keys.now }
    requires told { IsTold ex.now options.now.args options.now.options (schema_of left.now.table.now) (schema_of right.now.table.now) }
    ensures { IfOk result (AreJoined by_right (option_test ex.now options.now.args options.now.options (cells_of left.now.keys.now) (cells_of right.now.keys.now) (frame_of left.now.table.now) (frame_of right.now.table.now)) left.now.table.now.height right.now.table.now.height) }
{
    if let Some(told) = &options.options {
        return compared_matches(alloc, by_right, told, &options.args, left, right, ex);
    }
    let nulls = options.args.join_nulls;
    let (left_height, right_height) = (left.table.height, right.table.height);
    if by_right {
        equal_matches(
            alloc,
            right.keys,
            right_height,
            left.keys,
            left_height,
            nulls,
        )
    } else {
        equal_matches(
            alloc,
            left.keys,
            left_height,
            right.keys,
            right_height,
            nulls,
        )
    }
}

/// The table of a join of two: rows that match, and rows of one side alone, as its kind says, in the order by the rows of both
/// sides that keeps to the one that is asked: by the left rows first, or by the right ones where those are asked first; with
/// the columns that it puts out. Where keys are to be equal, the time is that of the rows and of the pairs that are given.
/// Where they are to meet an inequality, runs of rows that cannot meet it are passed over. A condition is worked out for
/// each pair of rows. Refuses for want of memory alone.
pub fn evaluate_join(
    alloc: Global,
    left: &Table,
    right: &Table,
    left_on: &[ExprIR],
    right_on: &[ExprIR],
    options: &JoinOptions,
    ex: &Arena<AExpr>,
) -> Result<Table, AllocError>
    requires left_keys { All (λ e. IsExpr ex.now e.node) left_on.now }
    requires right_keys { All (λ e. IsExpr ex.now e.node) right_on.now }
    requires pairs { length left_on.now ≡ length right_on.now }
    requires told { IsTold ex.now options.now.args options.now.options (schema_of left.now) (schema_of right.now) }
    requires distinct { HasDistinctNames (join_columns options.now.args (key_columns ex.now left_on.now) (key_columns ex.now right_on.now) (schema_of left.now) (schema_of right.now)) }
    ensures frame { IfOk result (λ table. Joins (told_at ex.now options.now) (all_named_at ex.now left_on.now) (all_named_at ex.now right_on.now) (frame_of left.now) (frame_of right.now) (frame_of table)) }
    ensures choice { IfOk result (λ table. Joins (own_told (told_at ex.now options.now)) (all_named_at ex.now left_on.now) (all_named_at ex.now right_on.now) (frame_of left.now) (frame_of right.now) (frame_of table)) }
    ensures types { IfOk result (λ table. schema_of table ≡ join_columns options.now.args (key_columns ex.now left_on.now) (key_columns ex.now right_on.now) (schema_of left.now) (schema_of right.now)) }
{
    let left_keys = key_values(alloc, left_on, ex, left)?;
    let right_keys = key_values(alloc, right_on, ex, right)?;
    let left_rows = Rows {
        table: left,
        keys: left_keys.as_slice(),
    };
    let right_rows = Rows {
        table: right,
        keys: right_keys.as_slice(),
    };
    let args = &options.args;
    let by_right = goes_right(args.how, args.maintain_order);
    let matches = matches(alloc, by_right, options, &left_rows, &right_rows, ex)?;
    let pairs = row_pairs(alloc, args.how, args.maintain_order, &matches)?;
    joined_table(
        alloc,
        left,
        right,
        args,
        left_on,
        right_on,
        ex,
        pairs.as_slice(),
    )
}
