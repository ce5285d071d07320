//! What stands in columns, as text.
ghost use Rattle.std.specs.Prelude.{◌≡◌, ◌++◌, OnOk};
ghost use Rattle.json.specs.Tree.{json_tokens};
ghost use Rattle.serde_json.specs.Written.{outline};
ghost use Rattle.plan_text_pieces.specs.Cells.{single_data, value_data};
ghost use Rattle.plan_text_pieces.specs.Values.{list_data};

use crate::done;
use json::Writer;
use plan_table::{AnyValue, PlainValue};
use std::alloc::AllocError;

/// Writes a single value: null, a whole number, a text or a truth value.
fn write_single(writer: &mut Writer, value: &PlainValue) -> Result<(), AllocError>
    ensures tokens { OnOk result (writer.new.tokens
        ≡ writer.old.tokens ++ json_tokens (outline (single_data value.now))) }
    ensures before { OnOk result (writer.new.before ≡ writer.old.before) }
{
    match value {
        PlainValue::Null => writer.null(),
        PlainValue::Int64(number) => writer.i64(*number),
        PlainValue::String(text) => writer.string(text.as_str()),
        PlainValue::Boolean(truth) => writer.boolean(*truth),
    }
}

/// Writes the array of single values.
#[tactic(auto, unfolding(crate::specs::Values::list_data))]
fn write_singles(writer: &mut Writer, values: &[PlainValue]) -> Result<(), AllocError>
    ensures tokens { OnOk result (writer.new.tokens
        ≡ writer.old.tokens ++ json_tokens (outline (list_data single_data values.now))) }
    ensures before { OnOk result (writer.new.before ≡ writer.old.before) }
{
    done!(writer.begin_array());
    for value in values {
        done!(write_single(writer, value));
    }
    writer.end_array()
}

/// Writes a value: null, a whole number, a text, a truth value, or an array of such. Refuses for want of memory alone,
/// and then nothing is known of what was written.
pub fn write_cell(writer: &mut Writer, value: &AnyValue) -> Result<(), AllocError>
    ensures tokens { OnOk result (writer.new.tokens
        ≡ writer.old.tokens ++ json_tokens (outline (value_data value.now))) }
    ensures before { OnOk result (writer.new.before ≡ writer.old.before) }
{
    match value {
        AnyValue::Null => writer.null(),
        AnyValue::Int64(number) => writer.i64(*number),
        AnyValue::String(text) => writer.string(text.as_str()),
        AnyValue::Boolean(truth) => writer.boolean(*truth),
        AnyValue::List(values) => write_singles(writer, values.as_slice()),
    }
}
