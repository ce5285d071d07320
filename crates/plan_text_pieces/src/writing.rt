//! Writers for pieces, and for objects of them: no value is made.
ghost use Rattle.std.specs.Prelude.{◌≡◌, ◌∷◌, ◌++◌, OnOk};
ghost use Rattle.json.specs.Token.{key as key_token};
ghost use Rattle.json.specs.Tree.{json_tokens};
ghost use Rattle.serde_json.specs.Data.{boolean};
ghost use Rattle.serde_json.specs.Written.{outline};
ghost use Rattle.plan_text_pieces.specs.Pieces.{object_of, piece_data};
ghost use Rattle.plan_text_pieces.specs.Values.{buffers_data, columns_data, field_data, link_data, list_data, names_data, number_data, options_data, output_data, outputs_data, paths_data, row_index_data, slice_data, truths_data, two_data};

use crate::done;
use crate::functions::write_frame_function;
use crate::hive::write_hive_parts;
use crate::join_options::write_kind_options;
use crate::kinds::type_name;
use crate::origins::{origin_name, output_text};
use crate::pieces::Piece;
use json::Writer;
use plan_core::{DataType, Node, PlSmallStr, ProjectionOptions, RowIndex, Schema};
use plan_expr::ExprIR;
use std::alloc::AllocError;

/// Writes a column: its name and its type.
fn write_field(writer: &mut Writer, name: &str, data_type: DataType) -> Result<(), AllocError>
    ensures tokens { OnOk result (writer.new.tokens
        ≡ writer.old.tokens ++ json_tokens (outline (field_data (name.now, data_type)))) }
    ensures before { OnOk result (writer.new.before ≡ writer.old.before) }
{
    done!(writer.begin_array());
    done!(writer.string(name));
    done!(writer.string(type_name(data_type)));
    writer.end_array()
}

/// Writes the array of the columns of a schema, in order. Refuses for want of memory alone, and then nothing is known
/// of what was written.
#[tactic(auto, unfolding(crate::specs::Values::list_data))]
pub fn write_columns(writer: &mut Writer, schema: &Schema) -> Result<(), AllocError>
    ensures tokens { OnOk result (writer.new.tokens
        ≡ writer.old.tokens ++ json_tokens (outline (columns_data schema.now))) }
    ensures before { OnOk result (writer.new.before ≡ writer.old.before) }
{
    done!(writer.begin_array());
    for (name, data_type) in schema.iter() {
        done!(write_field(writer, name, *data_type));
    }
    writer.end_array()
}

/// Writes the array of names. Refuses for want of memory alone, and then nothing is known of what was written.
#[tactic(auto, unfolding(crate::specs::Values::list_data))]
pub fn write_names(writer: &mut Writer, names: &[PlSmallStr]) -> Result<(), AllocError>
    ensures tokens { OnOk result (writer.new.tokens
        ≡ writer.old.tokens ++ json_tokens (outline (names_data names.now))) }
    ensures before { OnOk result (writer.new.before ≡ writer.old.before) }
{
    done!(writer.begin_array());
    for name in names {
        done!(writer.string(name.as_str()));
    }
    writer.end_array()
}

/// Writes a key, and the array of names under it.
pub fn write_names_at(
    writer: &mut Writer,
    key: &str,
    names: &[PlSmallStr],
) -> Result<(), AllocError>
    ensures tokens { OnOk result (writer.new.tokens
        ≡ writer.old.tokens ++ key_token key.now ∷ json_tokens (outline (names_data names.now))) }
    ensures before { OnOk result (writer.new.before ≡ writer.old.before) }
{
    done!(writer.key(key));
    write_names(writer, names)
}

/// Writes the object of paths.
pub fn write_paths(writer: &mut Writer, paths: &[PlSmallStr]) -> Result<(), AllocError>
    ensures tokens { OnOk result (writer.new.tokens
        ≡ writer.old.tokens ++ json_tokens (outline (paths_data paths.now))) }
    ensures before { OnOk result (writer.new.before ≡ writer.old.before) }
{
    done!(writer.begin_object());
    done!(writer.key("paths"));
    done!(write_names(writer, paths));
    writer.end_object()
}

/// Writes the array of numbers.
#[tactic(auto, unfolding(crate::specs::Values::list_data))]
fn write_numbers(writer: &mut Writer, numbers: &[u32]) -> Result<(), AllocError>
    ensures tokens { OnOk result (writer.new.tokens
        ≡ writer.old.tokens ++ json_tokens (outline (list_data number_data numbers.now))) }
    ensures before { OnOk result (writer.new.before ≡ writer.old.before) }
{
    done!(writer.begin_array());
    for number in numbers {
        done!(writer.u64(*number as u64));
    }
    writer.end_array()
}

/// Writes the object of the numbers of buffers.
pub fn write_buffers(writer: &mut Writer, numbers: &[u32]) -> Result<(), AllocError>
    ensures tokens { OnOk result (writer.new.tokens
        ≡ writer.old.tokens ++ json_tokens (outline (buffers_data numbers.now))) }
    ensures before { OnOk result (writer.new.before ≡ writer.old.before) }
{
    done!(writer.begin_object());
    done!(writer.key("buffers"));
    done!(write_numbers(writer, numbers));
    writer.end_object()
}

/// Writes the array of truth values.
#[tactic(auto, unfolding(crate::specs::Values::list_data))]
fn write_truths(writer: &mut Writer, given: &[bool]) -> Result<(), AllocError>
    ensures tokens { OnOk result (writer.new.tokens
        ≡ writer.old.tokens ++ json_tokens (outline (truths_data given.now))) }
    ensures before { OnOk result (writer.new.before ≡ writer.old.before) }
{
    done!(writer.begin_array());
    for truth in given {
        done!(writer.boolean(*truth));
    }
    writer.end_array()
}

/// Writes the array of two truth values.
fn write_two(writer: &mut Writer, first: bool, second: bool) -> Result<(), AllocError>
    ensures tokens { OnOk result (writer.new.tokens
        ≡ writer.old.tokens ++ json_tokens (outline (two_data (boolean first) (boolean second)))) }
    ensures before { OnOk result (writer.new.before ≡ writer.old.before) }
{
    done!(writer.begin_array());
    done!(writer.boolean(first));
    done!(writer.boolean(second));
    writer.end_array()
}

/// Writes the array of the numbers of nodes or of expressions.
#[tactic(auto, unfolding(crate::specs::Values::list_data))]
fn write_links(writer: &mut Writer, nodes: &[Node]) -> Result<(), AllocError>
    ensures tokens { OnOk result (writer.new.tokens
        ≡ writer.old.tokens ++ json_tokens (outline (list_data link_data nodes.now))) }
    ensures before { OnOk result (writer.new.before ≡ writer.old.before) }
{
    done!(writer.begin_array());
    for node in nodes {
        done!(writer.u64(node.0 as u64));
    }
    writer.end_array()
}

/// Writes the array of three that an output expression is: its number, where its name comes from, and its name.
#[tactic(auto, unfolding(crate::specs::Values::output_data))]
pub fn write_output(writer: &mut Writer, expr: &ExprIR) -> Result<(), AllocError>
    ensures tokens { OnOk result (writer.new.tokens
        ≡ writer.old.tokens ++ json_tokens (outline (output_data expr.now))) }
    ensures before { OnOk result (writer.new.before ≡ writer.old.before) }
{
    done!(writer.begin_array());
    done!(writer.u64(expr.node.0 as u64));
    done!(writer.string(origin_name(&expr.output_name)));
    done!(writer.string(output_text(&expr.output_name)));
    writer.end_array()
}

/// Writes the array of expressions that are put out.
#[tactic(auto, unfolding(crate::specs::Values::list_data))]
fn write_outputs(writer: &mut Writer, exprs: &[ExprIR]) -> Result<(), AllocError>
    ensures tokens { OnOk result (writer.new.tokens
        ≡ writer.old.tokens ++ json_tokens (outline (outputs_data exprs.now))) }
    ensures before { OnOk result (writer.new.before ≡ writer.old.before) }
{
    done!(writer.begin_array());
    for expr in exprs {
        done!(write_output(writer, expr));
    }
    writer.end_array()
}

/// Writes the three truth values of the options: whether expressions may run at one time, whether names that come twice
/// are looked for, and whether a single value is spread.
#[tactic(auto, unfolding(crate::specs::Values::options_data))]
fn write_options(writer: &mut Writer, given: ProjectionOptions) -> Result<(), AllocError>
    ensures tokens { OnOk result (writer.new.tokens
        ≡ writer.old.tokens ++ json_tokens (outline (options_data given))) }
    ensures before { OnOk result (writer.new.before ≡ writer.old.before) }
{
    done!(writer.begin_array());
    done!(writer.boolean(given.run_parallel));
    done!(writer.boolean(given.duplicate_check));
    done!(writer.boolean(given.should_broadcast));
    writer.end_array()
}

/// Writes the pair of the name of the column that numbers the rows and the number of the first row.
fn write_row_index(writer: &mut Writer, column: &RowIndex) -> Result<(), AllocError>
    ensures tokens { OnOk result (writer.new.tokens
        ≡ writer.old.tokens ++ json_tokens (outline (row_index_data column.now))) }
    ensures before { OnOk result (writer.new.before ≡ writer.old.before) }
{
    done!(writer.begin_array());
    done!(writer.string(column.name.as_str()));
    done!(writer.u64(column.offset as u64));
    writer.end_array()
}

/// Writes the pair of the first row and how many rows.
fn write_slice(writer: &mut Writer, offset: i64, len: usize) -> Result<(), AllocError>
    ensures tokens { OnOk result (writer.new.tokens
        ≡ writer.old.tokens ++ json_tokens (outline (slice_data (offset, len)))) }
    ensures before { OnOk result (writer.new.before ≡ writer.old.before) }
{
    done!(writer.begin_array());
    done!(writer.i64(offset));
    done!(writer.u64(len as u64));
    writer.end_array()
}

/// Writes the value of a piece.
fn write_piece(writer: &mut Writer, piece: &Piece<'_>) -> Result<(), AllocError>
    ensures tokens { OnOk result (writer.new.tokens
        ≡ writer.old.tokens ++ json_tokens (outline (piece_data piece.now))) }
    ensures before { OnOk result (writer.new.before ≡ writer.old.before) }
{
    match piece {
        Piece::Null => writer.null(),
        Piece::Boolean(truth) => writer.boolean(*truth),
        Piece::BooleanPair(first, second) => write_two(writer, *first, *second),
        Piece::Booleans(given) => write_truths(writer, given),
        Piece::Number(number) => writer.u64(*number as u64),
        Piece::Integer(number) => writer.i64(*number),
        Piece::Text(text) => writer.string(text),
        Piece::Names(names) => write_names(writer, names),
        Piece::Paths(paths) => write_paths(writer, paths),
        Piece::Buffers(numbers) => write_buffers(writer, numbers),
        Piece::HiveParts(parts) => write_hive_parts(writer, parts),
        Piece::Columns(schema) => write_columns(writer, schema),
        Piece::Links(nodes) => write_links(writer, nodes),
        Piece::Output(expr) => write_output(writer, expr),
        Piece::Outputs(exprs) => write_outputs(writer, exprs),
        Piece::Options(given) => write_options(writer, *given),
        Piece::Function(function) => write_frame_function(writer, function),
        Piece::KindOptions(given) => write_kind_options(writer, given),
        Piece::RowIndex(column) => write_row_index(writer, column),
        Piece::Slice(offset, len) => write_slice(writer, *offset, *len),
    }
}

/// Writes the object of these entries. Refuses for want of memory alone, and then nothing is known of what was written.
pub fn write_object(writer: &mut Writer, entries: &[(&str, Piece<'_>)]) -> Result<(), AllocError>
    ensures tokens { OnOk result (writer.new.tokens
        ≡ writer.old.tokens ++ json_tokens (outline (object_of entries.now))) }
    ensures before { OnOk result (writer.new.before ≡ writer.old.before) }
{
    done!(writer.begin_object());
    for (key, piece) in entries {
        done!(writer.key(key));
        done!(write_piece(writer, piece));
    }
    writer.end_object()
}
