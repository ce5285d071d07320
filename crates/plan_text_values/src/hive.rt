//! The arrays of hive parts, as JSON values.
ghost use Rattle.std.specs.Prelude.{◌≡◌, IfOk};
ghost use Rattle.serde_json.specs.View.{view};
ghost use Rattle.plan_text_pieces.specs.Hive.{hive_column_data, hive_part_data, hive_parts_data};

use crate::cells::cell;
use crate::lists::each;
use crate::members::three;
use plan_scan::{ColumnStats, HivePartitions};
use plan_text_pieces::{done, type_name};
use serde_json::Value;
use std::alloc::{AllocError, Global};

/// The array of three that a hive column is: its name, its type and its value.
fn hive_column(alloc: Global, column: &ColumnStats) -> Result<Value, AllocError>
    ensures { IfOk result (λ v. view v ≡ hive_column_data column.now) }
{
    let value = done!(cell(alloc, &column.value));
    let name = done!(Value::try_from_str(alloc, column.field.name.as_str()));
    let kind = done!(Value::try_from_str(alloc, type_name(column.field.dtype)));
    three(alloc, name, kind, value)
}

/// The array of the hive columns of one source.
fn hive_part(alloc: Global, part: &HivePartitions) -> Result<Value, AllocError>
    ensures { IfOk result (λ v. view v ≡ hive_part_data part.now) }
{
    let columns = part.get_statistics().column_stats();
    let written = each(alloc, columns, |column| hive_column(alloc, column))?;
    Ok(Value::Array(written))
}

/// The array of the hive columns of each source.
pub fn hive_parts(alloc: Global, parts: &[HivePartitions]) -> Result<Value, AllocError>
    ensures { IfOk result (λ v. view v ≡ hive_parts_data parts.now) }
{
    let written = each(alloc, parts, |part| hive_part(alloc, part))?;
    Ok(Value::Array(written))
}
