//! Some rows of a table by their numbers: the table itself where these are all.
ghost use Rattle.std.specs.Prelude.{◌≡◌, IfOk, IsTrue};
ghost use Rattle.std.specs.List.{range_with_len};
ghost use Rattle.plan_frame.specs.Frames.{rows_at as rows_of};
ghost use Rattle.plan_table.specs.Tables.{HasRows};
ghost use Rattle.plan_value.specs.Shown.{frame_of, schema_of};

use plan_table::Table;
use plan_value::rows_at;
use std::alloc::{AllocError, Global};

/// Whether these are the numbers of so many rows, in order.
fn are_all(rows: &[usize], height: usize) -> bool
    ensures { IsTrue result → rows.now ≡ range_with_len 0 height }
{
    if rows.len() != height {
        return false;
    }
    for place in 0..height {
        if rows[place] != place {
            return false;
        }
    }
    true
}

/// These rows of a table, in this order: the table itself where these are all, in order.
pub fn picked(alloc: Global, table: Table, rows: &[usize]) -> Result<Table, AllocError>
    requires { HasRows table }
    ensures frame { IfOk result (λ t. frame_of t ≡ rows_of rows.now (frame_of table)) }
    ensures types { IfOk result (λ t. schema_of t ≡ schema_of table) }
{
    if are_all(rows, table.height) {
        return Ok(table);
    }
    let made = rows_at(alloc, &table, rows);
    drop(table);
    made
}
