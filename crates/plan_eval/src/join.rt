//! A join gives a row for each pair of rows that it picks of two tables, with the columns of both.
ghost use Rattle.std.specs.Prelude.{◌++◌, List, All, IfOk, map};
ghost use Rattle.plan_core.specs.Columns.{Columns as ColumnTypes};
ghost use Rattle.plan_expr.specs.Exprs.{all_named_at};
ghost use Rattle.plan_expr.specs.Operands.{IsExpr};
ghost use Rattle.plan_ir.specs.Parts.{condition_of, list_of};
ghost use Rattle.plan_ir.specs.Plans.{join as join_op};
ghost use Rattle.plan_join.specs.Told.{told_at};
ghost use Rattle.plan_meaning.specs.Typing.{AllHold, checks};
ghost use Rattle.plan_table.specs.declared.source_key.SourceKey.{SourceKey};
ghost use Rattle.plan_table.specs.declared.table.Table.{Table as TableType};
ghost use Rattle.plan_function_tables.specs.Given.{Gives};
ghost use Rattle.plan_value.specs.Shown.{schema_of};

use plan_core::Arena;
use plan_expr::{AExpr, ExprIR};
use plan_join::JoinOptions;
use plan_join_eval::evaluate_join;
use plan_table::Table;
use std::alloc::{AllocError, Global};

/// The table of the join of the two tables, the left one first.
pub fn join(
    alloc: Global,
    tables: &[Table],
    left_on: &[ExprIR],
    right_on: &[ExprIR],
    options: &JoinOptions,
    ex: &Arena<AExpr>,
) -> Result<Table, AllocError>
    requires stand { All (λ e. IsExpr ex.now e.node) ((left_on.now ++ right_on.now) ++ list_of (condition_of options.now)) }
    requires valid { (schema : ColumnTypes) × AllHold (checks (join_op (all_named_at ex.now left_on.now) (all_named_at ex.now right_on.now) schema (told_at ex.now options.now)) (map schema_of tables.now)) }
    ensures { (ts : List (SourceKey × TableType)) (schema : ColumnTypes) → IfOk result (Gives ts (join_op (all_named_at ex.now left_on.now) (all_named_at ex.now right_on.now) schema (told_at ex.now options.now)) tables.now) }
{
    match tables {
        [left, right] => evaluate_join(alloc, left, right, left_on, right_on, options, ex),
        _ => unreachable!(),
    }
}
