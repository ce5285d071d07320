//! A sort gives all rows of its input in the order of its keys, and those that stand equal as they stand in the input.
ghost use Rattle.std.specs.Prelude.{◌≡◌, ℕ, ℤ, List, [], ◌∷◌, All, IfOk};
ghost use Rattle.std.specs.Cmp.{IsTotalOrder};
ghost use Rattle.std.specs.List.{range_with_len};
ghost use Rattle.std.specs.declared.option.Option.{Option as OptionType};
ghost use Rattle.plan_expr.specs.Operands.{IsExpr};
ghost use Rattle.plan_expr.specs.Exprs.{all_named_at};
ghost use Rattle.plan_ir.specs.Plans.{sort as sort_op};
ghost use Rattle.plan_frame.specs.Orders.{rows_cmp};
ghost use Rattle.plan_meaning.specs.Typing.{AllHold, key_checks};
ghost use Rattle.plan_table.specs.declared.source_key.SourceKey.{SourceKey};
ghost use Rattle.plan_table.specs.declared.table.Table.{Table as TableType};
ghost use Rattle.plan_table.specs.Tables.{HasRows};
ghost use Rattle.plan_meaning.specs.Choices.{AreRanked, by_place};
ghost use Rattle.plan_function_tables.specs.Given.{Gives};
ghost use Rattle.plan_value.specs.Cells.{cells_of};
ghost use Rattle.plan_value.specs.Shown.{schema_of};

use crate::picked::picked;
use plan_core::Arena;
use plan_expr::{AExpr, ExprIR};
use plan_options::SortMultipleOptions;
use plan_table::Table;
use plan_value::{Values, key_values, row_ordering};
use std::alloc::{AllocError, Global};
use std::cmp::Ordering;

/// How two rows stand: by the first key that tells them apart, else by their places.
fn ordering(keys: &[Values], options: &SortMultipleOptions, left: usize, right: usize) -> Ordering
    ensures { result ≡ by_place (rows_cmp (cells_of keys.now) options.now.descending options.now.nulls_last) left right }
{
    let descending = options.descending.as_slice();
    let nulls_last = options.nulls_last.as_slice();
    row_ordering(keys, descending, nulls_last, left, right).then(left.cmp(&right))
}

/// The numbers of so many rows.
fn row_numbers(alloc: Global, height: usize) -> Result<Vec<usize>, AllocError>
    ensures { IfOk result (λ rows. rows.items ≡ range_with_len 0 height) }
{
    let mut rows = Vec::with_capacity(alloc, height)?;
    for row in 0..height {
        rows.push(row)?;
    }
    Ok(rows)
}

/// The numbers of so many rows in the order of keys, and those that stand equal by their places.
fn sorted_rows(
    alloc: Global,
    keys: &[Values],
    options: &SortMultipleOptions,
    height: usize,
) -> Result<Vec<usize>, AllocError>
    requires { IsTotalOrder (rows_cmp (cells_of keys.now) options.now.descending options.now.nulls_last) }
    ensures { IfOk result (λ rows. AreRanked (rows_cmp (cells_of keys.now) options.now.descending options.now.nulls_last) height rows.items) }
{
    let mut rows = row_numbers(alloc, height)?;
    rows.sort_unstable_by(|left, right| ordering(keys, options, *left, *right));
    Ok(rows)
}

/// The rows of a table in the order of keys.
fn in_order(
    alloc: Global,
    table: Table,
    keys: &[ExprIR],
    options: &SortMultipleOptions,
    ex: &Arena<AExpr>,
) -> Result<Table, AllocError>
    requires stand { All (λ e. IsExpr ex.now e.node) keys.now }
    requires valid { AllHold (key_checks (all_named_at ex.now keys.now) (schema_of table)) }
    requires rows { HasRows table }
    ensures { (ts : List (SourceKey × TableType)) (part : OptionType (ℤ × ℕ)) → IfOk result (Gives ts (sort_op (all_named_at ex.now keys.now) part options.now) (table ∷ [])) }
{
    let keys = key_values(alloc, keys, ex, &table)?;
    let rows = sorted_rows(alloc, keys.as_slice(), options, table.height)?;
    drop(keys);
    Ok(picked(alloc, table, rows.as_slice())?)
}

/// The table of the sort: its input where that is in order. A table without columns is in each order.
pub fn sort(
    alloc: Global,
    table: Table,
    keys: &[ExprIR],
    options: &SortMultipleOptions,
    ex: &Arena<AExpr>,
) -> Result<Table, AllocError>
    requires stand { All (λ e. IsExpr ex.now e.node) keys.now }
    requires valid { AllHold (key_checks (all_named_at ex.now keys.now) (schema_of table)) }
    requires rows { HasRows table }
    ensures { (ts : List (SourceKey × TableType)) (part : OptionType (ℤ × ℕ)) → IfOk result (Gives ts (sort_op (all_named_at ex.now keys.now) part options.now) (table ∷ [])) }
{
    if table.columns.len() == 0 {
        return Ok(table);
    }
    in_order(alloc, table, keys, options, ex)
}
