//! The JSON values of pieces, and of objects of them.
ghost use Rattle.std.specs.Prelude.{◌≡◌, true, map, IfOk};
ghost use Rattle.serde_json.specs.Data.{string};
ghost use Rattle.serde_json.specs.View.{view};
ghost use Rattle.plan_text_pieces.specs.Lists.{are_ascending};
ghost use Rattle.plan_text_pieces.specs.Pieces.{object_of, piece_data, piece_key};
ghost use Rattle.plan_text_pieces.specs.Values.{columns_data, field_data, link_data, list_data, names_data, number_data, options_data, output_data, outputs_data, row_index_data, truths_data, two_data};

use crate::functions::frame_function;
use crate::hive::hive_parts;
use crate::join_options::kind_options;
use crate::lists::each;
use crate::members::{three, two};
use crate::scan_sources::{buffers, paths};
use plan_core::{DataType, Node, PlSmallStr, ProjectionOptions, RowIndex, Schema};
use plan_expr::ExprIR;
use plan_text_pieces::{Entries, Piece, done, origin_name, output_text, type_name};
use serde_json::{Map, Value};
use std::alloc::{AllocError, Global};

/// The array of two texts.
pub fn two_texts(alloc: Global, first: &str, second: &str) -> Result<Value, AllocError>
    ensures { IfOk result (λ v. view v ≡ two_data (string first.now) (string second.now)) }
{
    let first = done!(Value::try_from_str(alloc, first));
    let second = done!(Value::try_from_str(alloc, second));
    two(alloc, first, second)
}

/// The pair of a column: its name and the name of its type.
fn field(alloc: Global, name: &str, data_type: DataType) -> Result<Value, AllocError>
    ensures { IfOk result (λ v. view v ≡ field_data (name.now, data_type)) }
{
    two_texts(alloc, name, type_name(data_type))
}

/// The pair of the name of the column that numbers the rows and the number of the first row.
fn row_index(alloc: Global, column: &RowIndex) -> Result<Value, AllocError>
    ensures { IfOk result (λ v. view v ≡ row_index_data column.now) }
{
    let name = done!(Value::try_from_str(alloc, column.name.as_str()));
    two(alloc, name, Value::from(column.offset))
}

/// The array of the columns of a schema, in order, each a pair of its name and its type.
fn columns(alloc: Global, schema: &Schema) -> Result<Value, AllocError>
    ensures { IfOk result (λ v. view v ≡ columns_data schema.now) }
{
    let mut written = Vec::new(alloc);
    while let Some((name, data_type)) = schema.get_at_index(written.len()) {
        written.push(field(alloc, name, *data_type)?)?;
    }
    Ok(Value::Array(written))
}

/// The array of names, in order.
pub fn names(alloc: Global, names: &[PlSmallStr]) -> Result<Value, AllocError>
    ensures { IfOk result (λ v. view v ≡ names_data names.now) }
{
    let written = each(alloc, names, |name| {
        Value::try_from_str(alloc, name.as_str())
    })?;
    Ok(Value::Array(written))
}

/// The array of numbers, in order.
pub fn numbers(alloc: Global, given: &[u32]) -> Result<Value, AllocError>
    ensures { IfOk result (λ v. view v ≡ list_data number_data given.now) }
{
    let written = each(alloc, given, |number| Ok(Value::from(*number)))?;
    Ok(Value::Array(written))
}

/// The array of truths, in order.
fn truths(alloc: Global, given: &[bool]) -> Result<Value, AllocError>
    ensures { IfOk result (λ v. view v ≡ truths_data given.now) }
{
    let written = each(alloc, given, |truth| Ok(Value::from(*truth)))?;
    Ok(Value::Array(written))
}

/// The array of the numbers of nodes or of expressions, in order.
fn links(alloc: Global, nodes: &[Node]) -> Result<Value, AllocError>
    ensures { IfOk result (λ v. view v ≡ list_data link_data nodes.now) }
{
    let written = each(alloc, nodes, |node| Ok(Value::from(node.0)))?;
    Ok(Value::Array(written))
}

/// The array of three that an output expression is: its number, where its name comes from, and its name.
#[tactic(auto, unfolding(plan_text_pieces::specs::Values::output_data))]
pub fn output(alloc: Global, expr: &ExprIR) -> Result<Value, AllocError>
    ensures { IfOk result (λ v. view v ≡ output_data expr.now) }
{
    let name = &expr.output_name;
    let origin = done!(Value::try_from_str(alloc, origin_name(name)));
    let text = done!(Value::try_from_str(alloc, output_text(name)));
    three(alloc, Value::from(expr.node.0), origin, text)
}

/// The array of expressions that are put out, each with its name.
fn outputs(alloc: Global, exprs: &[ExprIR]) -> Result<Value, AllocError>
    ensures { IfOk result (λ v. view v ≡ outputs_data exprs.now) }
{
    let written = each(alloc, exprs, |expr| output(alloc, expr))?;
    Ok(Value::Array(written))
}

/// The three truths of the options: whether expressions may run at one time, whether names that come twice are looked
/// for, and whether a single value is spread.
#[tactic(auto, unfolding(plan_text_pieces::specs::Values::options_data))]
fn options(alloc: Global, given: ProjectionOptions) -> Result<Value, AllocError>
    ensures { IfOk result (λ v. view v ≡ options_data given) }
{
    three(
        alloc,
        Value::Bool(given.run_parallel),
        Value::Bool(given.duplicate_check),
        Value::Bool(given.should_broadcast),
    )
}

/// The value of a piece.
fn value(alloc: Global, piece: &Piece<'_>) -> Result<Value, AllocError>
    ensures { IfOk result (λ v. view v ≡ piece_data piece.now) }
{
    match piece {
        Piece::Null => Ok(Value::Null),
        Piece::Boolean(truth) => Ok(Value::Bool(*truth)),
        Piece::BooleanPair(first, second) => two(alloc, Value::Bool(*first), Value::Bool(*second)),
        Piece::Booleans(given) => truths(alloc, given),
        Piece::Number(number) => Ok(Value::from(*number)),
        Piece::Integer(number) => Ok(Value::from(*number)),
        Piece::Text(text) => Value::try_from_str(alloc, text),
        Piece::Names(given) => names(alloc, given),
        Piece::Paths(given) => paths(alloc, given),
        Piece::Buffers(given) => buffers(alloc, given),
        Piece::HiveParts(given) => hive_parts(alloc, given),
        Piece::Columns(schema) => columns(alloc, schema),
        Piece::Links(nodes) => links(alloc, nodes),
        Piece::Output(expr) => output(alloc, expr),
        Piece::Outputs(exprs) => outputs(alloc, exprs),
        Piece::Options(given) => options(alloc, *given),
        Piece::Function(function) => frame_function(alloc, function),
        Piece::KindOptions(given) => kind_options(alloc, given),
        Piece::RowIndex(column) => row_index(alloc, column),
        Piece::Slice(offset, len) => two(alloc, Value::from(*offset), Value::from(*len)),
    }
}

/// The object of these entries, whose keys stand in byte order. Refuses for want of memory alone.
pub fn object(alloc: Global, entries: Entries<'_>) -> Result<Value, AllocError>
    requires { are_ascending (map piece_key entries.items) ≡ true }
    ensures { IfOk result (λ v. view v ≡ object_of entries.entry.items) }
{
    let mut map = Map::new(alloc);
    let mut rest = entries;
    while let Some((key, piece)) = rest.pop() {
        let value = value(alloc, &piece)?;
        serde_json::put(&mut map, alloc, key, value)?;
    }
    Ok(Value::Object(map))
}
