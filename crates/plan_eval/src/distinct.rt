//! Distinct rows are those of the input, but that of rows that are the same in some columns the first is kept, or the last,
//! or only one that is alone.
ghost use Rattle.std.specs.Prelude.{◌≡◌, true, false, List, [], ◌∷◌, IfOk};
ghost use Rattle.std.specs.List.{cons_option, range_with_len};
ghost use Rattle.std.specs.List.Sorted.{IsPermutation, IsSorted};
ghost use Rattle.std.specs.Ordering.{nat_cmp};
ghost use Rattle.plan_ir.specs.Plans.{distinct as distinct_op};
ghost use Rattle.plan_frame.specs.Frames.{column_names};
ghost use Rattle.plan_meaning.specs.Choices.{AreChosen};
ghost use Rattle.plan_frame.specs.Meaning.{are_alike};
ghost use Rattle.plan_frame.specs.Orders.{told_columns};
ghost use Rattle.plan_table.specs.declared.source_key.SourceKey.{SourceKey};
ghost use Rattle.plan_table.specs.declared.table.Table.{Table as TableType};
ghost use Rattle.plan_table.specs.Tables.{HasRows};
ghost use Rattle.plan_eval.specs.Distinct.{kept, kept_of, columns_named};
ghost use Rattle.plan_function_tables.specs.Given.{Gives};
ghost use Rattle.plan_value.specs.Cells.{cells_of};
ghost use Rattle.plan_value.specs.Shown.{columns_shown, frame_of};

use crate::picked::picked;
use plan_core::{Items, PlSmallStr};
use plan_options::{DistinctOptionsIR, UniqueKeepStrategy};
use plan_table::Table;
use plan_value::{Values, column, grouped, rows_of_groups};
use std::alloc::{AllocError, Global};

/// The columns of these names.
fn some_columns(
    alloc: Global,
    table: &Table,
    names: &[PlSmallStr],
) -> Result<Items<Values>, AllocError>
    ensures { IfOk result (λ columns. cells_of columns ≡ columns_named (frame_of table.now) names.now) }
{
    let mut columns = Items::new(alloc);
    for name in names {
        columns.push(Values::Many(column(alloc, table, name.as_str())?))?;
    }
    Ok(columns)
}

/// All columns.
fn all_columns(alloc: Global, table: &Table) -> Result<Items<Values>, AllocError>
    ensures { IfOk result (λ columns. cells_of columns ≡ columns_named (frame_of table.now) (column_names (columns_shown table.now.columns))) }
{
    let mut columns = Items::new(alloc);
    for own in table.columns.iter() {
        columns.push(Values::Many(column(alloc, table, own.name.as_str())?))?;
    }
    Ok(columns)
}

/// The columns in which rows are told apart: those that are told, else all.
fn told(
    alloc: Global,
    table: &Table,
    subset: &Option<Items<PlSmallStr>>,
) -> Result<Items<Values>, AllocError>
    ensures { IfOk result (λ columns. cells_of columns ≡ told_columns subset.now (frame_of table.now)) }
{
    match subset {
        Some(names) => some_columns(alloc, table, names.as_slice()),
        None => all_columns(alloc, table),
    }
}

/// The row that is kept of those that are the same, if one is.
fn kept_row(keep: UniqueKeepStrategy, rows: &[usize]) -> Option<usize>
    ensures { result ≡ kept_of keep rows.now }
{
    match keep {
        UniqueKeepStrategy::First | UniqueKeepStrategy::Any => rows.first().copied(),
        UniqueKeepStrategy::Last => rows.last().copied(),
        UniqueKeepStrategy::None => match rows {
            [row] => Some(*row),
            _ => None,
        },
    }
}

/// The rows that are kept of parts, in each of which all rows are the same: part by part.
pub fn kept_rows(
    alloc: Global,
    keep: UniqueKeepStrategy,
    parts: &[Items<usize>],
) -> Result<Vec<usize>, AllocError>
    ensures { IfOk result (λ rows. rows.items ≡ kept keep parts.now) }
{
    let mut rows = Vec::new(alloc);
    for part in parts {
        if let Some(row) = kept_row(keep, part.as_slice()) {
            rows.push(row)?;
        }
    }
    Ok(rows)
}

/// The rows that are kept of parts: part by part, or where that is asked in their order.
fn rows_in_order(
    alloc: Global,
    options: &DistinctOptionsIR,
    parts: &[Items<usize>],
) -> Result<Vec<usize>, AllocError>
    ensures same { IfOk result (λ rows. IsPermutation (kept options.now.keep_strategy parts.now) rows.items) }
    ensures in_order { IfOk result (λ rows. options.now.maintain_order ≡ true → IsSorted nat_cmp rows.items) }
    ensures by_parts { IfOk result (λ rows. options.now.maintain_order ≡ false → rows.items ≡ kept options.now.keep_strategy parts.now) }
{
    let mut rows = kept_rows(alloc, options.keep_strategy, parts)?;
    if options.maintain_order {
        rows.sort_unstable();
    }
    Ok(rows)
}

/// The row that is kept of so many that are all the same, if one is.
fn kept_of_all(keep: UniqueKeepStrategy, height: usize) -> Option<usize>
    ensures { result ≡ kept_of keep (range_with_len 0 height) }
{
    match keep {
        UniqueKeepStrategy::First | UniqueKeepStrategy::Any => {
            if height > 0 { Some(0) } else { None }
        }
        UniqueKeepStrategy::Last => { if height > 0 { Some(height - 1) } else { None } }
        UniqueKeepStrategy::None => { if height == 1 { Some(0) } else { None } }
    }
}

/// The rows that are kept of so many that are all the same: one, or none.
fn rows_of_alike(
    alloc: Global,
    keep: UniqueKeepStrategy,
    height: usize,
) -> Result<Vec<usize>, AllocError>
    ensures { IfOk result (λ rows. rows.items ≡ cons_option (kept_of keep (range_with_len 0 height)) []) }
{
    let mut rows = Vec::new(alloc);
    if let Some(row) = kept_of_all(keep, height) {
        rows.push(row)?;
    }
    Ok(rows)
}

/// The rows that are kept of so many, by the groups of those that are the same in each of some columns.
fn rows_by_groups(
    alloc: Global,
    columns: &[Values],
    height: usize,
    options: &DistinctOptionsIR,
) -> Result<Vec<usize>, AllocError>
    ensures { IfOk result (λ rows. AreChosen options.now.maintain_order options.now.keep_strategy (are_alike (cells_of columns.now)) height rows.items) }
{
    let groups = grouped(alloc, columns, height)?;
    let parts = rows_of_groups(alloc, &groups)?;
    Ok(rows_in_order(alloc, options, parts.as_slice())?)
}

/// The rows that are kept of so many, of those that are the same in each of some columns; without columns all are.
fn distinct_rows(
    alloc: Global,
    columns: &[Values],
    height: usize,
    options: &DistinctOptionsIR,
) -> Result<Vec<usize>, AllocError>
    ensures { IfOk result (λ rows. AreChosen options.now.maintain_order options.now.keep_strategy (are_alike (cells_of columns.now)) height rows.items) }
{
    match columns {
        [] => rows_of_alike(alloc, options.keep_strategy, height),
        _ => rows_by_groups(alloc, columns, height, options),
    }
}

/// The table of the distinct rows: its input where that are all, in order.
pub fn distinct(
    alloc: Global,
    table: Table,
    options: &DistinctOptionsIR,
) -> Result<Table, AllocError>
    requires { HasRows table }
    ensures { (ts : List (SourceKey × TableType)) → IfOk result (Gives ts (distinct_op options.now) (table ∷ [])) }
{
    let columns = told(alloc, &table, &options.subset)?;
    let rows = distinct_rows(alloc, columns.as_slice(), table.height, options)?;
    drop(columns);
    Ok(picked(alloc, table, rows.as_slice())?)
}
