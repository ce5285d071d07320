//! The arrays of hive parts, as text.
ghost use Rattle.std.specs.Prelude.{◌≡◌, ◌++◌, OnOk};
ghost use Rattle.json.specs.Tree.{json_tokens};
ghost use Rattle.serde_json.specs.Written.{outline};
ghost use Rattle.plan_text_pieces.specs.Hive.{hive_column_data, hive_part_data, hive_parts_data};

use crate::cells::write_cell;
use crate::done;
use crate::kinds::type_name;
use json::Writer;
use plan_scan::{ColumnStats, HivePartitions};
use std::alloc::AllocError;

/// Writes the array of three that a hive column is: its name, its type and its value.
fn write_hive_column(writer: &mut Writer, column: &ColumnStats) -> Result<(), AllocError>
    ensures tokens { OnOk result (writer.new.tokens
        ≡ writer.old.tokens ++ json_tokens (outline (hive_column_data column.now))) }
    ensures before { OnOk result (writer.new.before ≡ writer.old.before) }
{
    done!(writer.begin_array());
    done!(writer.string(column.field.name.as_str()));
    done!(writer.string(type_name(column.field.dtype)));
    done!(write_cell(writer, &column.value));
    writer.end_array()
}

/// Writes the array of the hive columns of one source.
#[tactic(auto, unfolding(crate::specs::Values::list_data))]
fn write_hive_part(writer: &mut Writer, part: &HivePartitions) -> Result<(), AllocError>
    ensures tokens { OnOk result (writer.new.tokens
        ≡ writer.old.tokens ++ json_tokens (outline (hive_part_data part.now))) }
    ensures before { OnOk result (writer.new.before ≡ writer.old.before) }
{
    done!(writer.begin_array());
    let columns = part.get_statistics().column_stats();
    for column in columns {
        done!(write_hive_column(writer, column));
    }
    writer.end_array()
}

/// Writes the array of the hive columns of each source.
#[tactic(auto, unfolding(crate::specs::Values::list_data))]
pub fn write_hive_parts(writer: &mut Writer, parts: &[HivePartitions]) -> Result<(), AllocError>
    ensures tokens { OnOk result (writer.new.tokens
        ≡ writer.old.tokens ++ json_tokens (outline (hive_parts_data parts.now))) }
    ensures before { OnOk result (writer.new.before ≡ writer.old.before) }
{
    done!(writer.begin_array());
    for part in parts {
        done!(write_hive_part(writer, part));
    }
    writer.end_array()
}
