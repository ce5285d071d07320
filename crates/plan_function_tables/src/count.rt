//! A count of the rows of files gives one row, whatever its input is.
ghost use Rattle.std.specs.Prelude.{◌≡◌, [], ◌∷◌, IfOk, pos};
ghost use Rattle.std.specs.Int.{int_wrap, w64};
ghost use Rattle.plan_core.specs.declared.data_type.DataType.TheVariants.{Int64};
ghost use Rattle.plan_meaning.specs.Contents.{frames_of};
ghost use Rattle.plan_meaning.specs.Functions.{count_name as named_of};
ghost use Rattle.plan_meaning.specs.Mapped.{counted as counted_of, rows_together as rows_of};
ghost use Rattle.plan_file_tables.specs.Parts.{frames_found};
ghost use Rattle.plan_fit.specs.Sources.{contents_of};
ghost use Rattle.plan_value.specs.Shown.{frame_of, schema_of};

use crate::file_scan::own_tables;
use plan_core::{DataType, Items, PlSmallStr};
use plan_scan::ScanSources;
use plan_schema::count_name;
use plan_table::{AnyValue, Column, Columns, Table, Tables};
use std::alloc::{AllocError, Global};

/// How many rows tables have together, none where there is no table; the number wraps at 64 bits.
fn rows_together(tables: &[Option<&Table>]) -> i64
    ensures { result ≡ int_wrap w64 (pos (rows_of (frames_found tables.now))) }
{
    let mut rows: u64 = 0;
    for table in tables {
        match table {
            Some(table) => rows = rows.wrapping_add(table.height as u64),
            None => {}
        }
    }
    rows.cast_signed()
}

/// One row with the number of the rows of sources.
pub fn counted(
    alloc: Global,
    sources: &ScanSources,
    alias: &Option<PlSmallStr>,
    tables: &Tables,
) -> Result<Table, AllocError>
    ensures frame { IfOk result (λ t. frame_of t ≡ counted_of (named_of alias.now) (frames_of (contents_of tables.now) sources.now)) }
    ensures types { IfOk result (λ t. schema_of t ≡ (named_of alias.now, Int64) ∷ []) }
{
    let found = own_tables(alloc, sources, tables)?;
    let mut values = Items::new(alloc);
    values.push(AnyValue::Int64(rows_together(found.as_slice())))?;
    let mut columns = Columns::new(alloc);
    columns.with_column(Column {
        name: count_name(alloc, alias)?,
        dtype: DataType::Int64,
        values,
    })?;
    Ok(Table { height: 1, columns })
}
