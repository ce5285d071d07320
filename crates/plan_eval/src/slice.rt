//! A slice gives the rows from a first one on, as many as there are up to its length; an offset below zero counts from the
//! end.
ghost use Rattle.std.specs.Prelude.{◌≡◌, ◌-◌, List, [], ◌∷◌, IfOk};
ghost use Rattle.std.specs.List.{range_with_len};
ghost use Rattle.plan_ir.specs.Plans.{slice as slice_op};
ghost use Rattle.plan_frame.specs.Frames.{rows_at as rows_of};
ghost use Rattle.plan_frame.specs.Rows.{cut_to, start_of as start};
ghost use Rattle.plan_function_tables.specs.Given.{Gives};
ghost use Rattle.plan_table.specs.declared.source_key.SourceKey.{SourceKey};
ghost use Rattle.plan_table.specs.declared.table.Table.{Table as TableType};
ghost use Rattle.plan_table.specs.Tables.{HasRows};
ghost use Rattle.plan_value.specs.Shown.{frame_of, schema_of};

use crate::between::table_between;
use plan_table::Table;
use std::alloc::{AllocError, Global};

/// A place cut to 0 and the height.
fn cut(place: i128, height: usize) -> usize
    ensures { result ≡ cut_to height place }
{
    if place < 0 {
        0
    } else if place < height as i128 {
        place as usize
    } else {
        height
    }
}

/// The place at an offset, which below zero counts from the end.
fn start_of(offset: i64, height: usize) -> i128
    ensures { result ≡ start offset height }
{
    if offset < 0 {
        height as i128 + offset as i128
    } else {
        offset as i128
    }
}

/// The rows of a table from one on up to another: the table itself where these are all.
fn cut_table(alloc: Global, table: Table, first: usize, end: usize) -> Result<Table, AllocError>
    requires { HasRows table }
    ensures frame { IfOk result (λ t. frame_of t ≡ rows_of (range_with_len first (end - first)) (frame_of table)) }
    ensures types { IfOk result (λ t. schema_of t ≡ schema_of table) }
{
    if first == 0 && end == table.height {
        return Ok(table);
    }
    let cut = table_between(alloc, &table, first, end);
    drop(table);
    cut
}

/// The table of the slice.
pub fn slice(alloc: Global, table: Table, offset: i64, len: u32) -> Result<Table, AllocError>
    requires { HasRows table }
    ensures { (ts : List (SourceKey × TableType)) → IfOk result (Gives ts (slice_op offset len) (table ∷ [])) }
{
    let height = table.height;
    let start = start_of(offset, height);
    let first = cut(start, height);
    let end = cut(start + len as i128, height);
    Ok(cut_table(alloc, table, first, end)?)
}
