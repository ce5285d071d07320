//! The parts that the readers of nodes and expressions are made of.
ghost use Rattle.std.specs.Prelude.{map};
ghost use Rattle.serde_json.specs.View.{view};
ghost use Rattle.plan_doc_parts.specs.Gives.{Gives, Shows};
ghost use Rattle.plan_doc_parts.specs.Parts.{entries_of, name_of, number_of, numbers_of, link_of, links_of, truth_of, integer_of, truths_of, names_of, two_of, three_of, type_of, plain_of, column_of, columns_of, output_of, outputs_of, slice_of, options_of};

use crate::arrays::each;
use crate::fault::Fault;
use plan_core::{DataType, Items, Node, PlSmallStr, PlainType, ProjectionOptions, Schema};
use plan_expr::{ExprIR, OutputName};
use serde_json::Value;
use std::alloc::Global;

/// A whole number from 0 to 4294967295. `Form` for any other value.
#[tactic(auto, unfolding(crate::specs::Parts::number_of))]
pub fn number(value: &Value) -> Result<u32, Fault>
    ensures { Gives result (number_of (view value.now)) }
{
    let number = value.as_u64().ok_or(Fault::Form)?;
    if number > 4294967295 {
        return Err(Fault::Form);
    }
    Ok(number as u32)
}

/// An array of whole numbers from 0 to 4294967295.
#[tactic(auto, unfolding(crate::specs::Parts::numbers_of))]
pub fn numbers(alloc: Global, value: &Value) -> Result<Items<u32>, Fault>
    ensures { Gives result (numbers_of (view value.now)) }
{
    let entries = entries(value)?;
    each(alloc, entries, |entry| number(entry))
}

/// The number of a node or an expression; whether such an entry is there isn't asked.
#[tactic(auto, unfolding(crate::specs::Parts::link_of))]
pub fn link(value: &Value) -> Result<Node, Fault>
    ensures { Gives result (link_of (view value.now)) }
{
    let number = number(value)?;
    Ok(Node(number as usize))
}

/// An array of numbers of nodes or of expressions.
#[tactic(auto, unfolding(crate::specs::Parts::links_of))]
pub fn links(alloc: Global, value: &Value) -> Result<Items<Node>, Fault>
    ensures { Gives result (links_of (view value.now)) }
{
    let entries = entries(value)?;
    each(alloc, entries, |entry| link(entry))
}

/// A whole number of 64 signed bits. `Form` for any other value.
#[tactic(auto, unfolding(crate::specs::Parts::integer_of))]
pub fn integer(value: &Value) -> Result<i64, Fault>
    ensures { Gives result (integer_of (view value.now)) }
{
    value.as_i64().ok_or(Fault::Form)
}

/// True or false. `Form` for any other value.
#[tactic(auto, unfolding(crate::specs::Parts::truth_of))]
pub fn truth(value: &Value) -> Result<bool, Fault>
    ensures { Gives result (truth_of (view value.now)) }
{
    value.as_bool().ok_or(Fault::Form)
}

/// An array of truth values.
#[tactic(auto, unfolding(crate::specs::Parts::truths_of))]
pub fn truths(alloc: Global, value: &Value) -> Result<Items<bool>, Fault>
    ensures { Gives result (truths_of (view value.now)) }
{
    let entries = entries(value)?;
    each(alloc, entries, |entry| truth(entry))
}

/// A text. `Form` for any other value.
#[tactic(auto, unfolding(crate::specs::Parts::name_of))]
pub fn text(value: &Value) -> Result<&str, Fault>
    ensures { Shows (λ s. s.now) result (name_of (view value.now)) }
{
    value.as_str().ok_or(Fault::Form)
}

/// A text, as a name. `Form` for any other value, and `Memory` where memory is short.
pub fn name(alloc: Global, value: &Value) -> Result<PlSmallStr, Fault>
    ensures { Gives result (name_of (view value.now)) }
{
    let text = text(value)?;
    Ok(PlSmallStr::new(alloc, text)?)
}

/// The entries of an array. `Form` for any other value.
pub fn entries(value: &Value) -> Result<&[Value], Fault>
    ensures { Shows (λ v. map view v.now) result (entries_of (view value.now)) }
{
    match value.as_array() {
        Some(entries) => Ok(entries.as_slice()),
        None => Err(Fault::Form),
    }
}

/// The entries of an array of two. `Form` for any other value.
#[tactic(auto, unfolding(crate::specs::Parts::two_of))]
pub fn two(value: &Value) -> Result<(&Value, &Value), Fault>
    ensures { Shows (λ p. (view p.0.now, view p.1.now)) result (two_of (view value.now)) }
{
    match entries(value)? {
        [first, second] => Ok((first, second)),
        _ => Err(Fault::Form),
    }
}

/// The entries of an array of three. `Form` for any other value.
#[tactic(auto, unfolding(crate::specs::Parts::three_of))]
pub fn three(value: &Value) -> Result<(&Value, &Value, &Value), Fault>
    ensures { Shows (λ p. (view p.0.now, view p.1.now, view p.2.now)) result
        (three_of (view value.now)) }
{
    match entries(value)? {
        [first, second, third] => Ok((first, second, third)),
        _ => Err(Fault::Form),
    }
}

/// An array of names.
#[tactic(auto, unfolding(crate::specs::Parts::names_of))]
pub fn names(alloc: Global, value: &Value) -> Result<Items<PlSmallStr>, Fault>
    ensures { Gives result (names_of (view value.now)) }
{
    let entries = entries(value)?;
    each(alloc, entries, |entry| name(alloc, entry))
}

/// The name of a type. `Form` for any other value.
#[tactic(auto, unfolding(crate::specs::Parts::type_of, crate::specs::Parts::type_named))]
pub fn data_type(value: &Value) -> Result<DataType, Fault>
    ensures { Gives result (type_of (view value.now)) }
{
    match text(value)? {
        "Int64" => Ok(DataType::Int64),
        "String" => Ok(DataType::String),
        "Boolean" => Ok(DataType::Boolean),
        "List(Int64)" => Ok(DataType::List(PlainType::Int64)),
        "List(String)" => Ok(DataType::List(PlainType::String)),
        "List(Boolean)" => Ok(DataType::List(PlainType::Boolean)),
        _ => Err(Fault::Form),
    }
}

/// The name of a type of a single value. `Form` for any other value.
#[tactic(auto, unfolding(crate::specs::Parts::plain_of, crate::specs::Parts::plain_named))]
pub fn plain_type(value: &Value) -> Result<PlainType, Fault>
    ensures { Gives result (plain_of (view value.now)) }
{
    match text(value)? {
        "Int64" => Ok(PlainType::Int64),
        "String" => Ok(PlainType::String),
        "Boolean" => Ok(PlainType::Boolean),
        _ => Err(Fault::Form),
    }
}

/// The name and the type of a pair.
#[tactic(auto, unfolding(crate::specs::Parts::column_of))]
fn column(alloc: Global, value: &Value) -> Result<(PlSmallStr, DataType), Fault>
    ensures { Gives result (column_of (view value.now)) }
{
    let (name_value, type_value) = two(value)?;
    let name = name(alloc, name_value)?;
    let data_type = data_type(type_value)?;
    Ok((name, data_type))
}

/// An array of names with types, no name twice.
#[tactic(auto, unfolding(crate::specs::Parts::columns_of))]
pub fn columns(alloc: Global, value: &Value) -> Result<Schema, Fault>
    ensures { Gives result (columns_of (view value.now)) }
{
    let entries = entries(value)?;
    let mut columns = Schema::new(alloc);
    for entry in entries {
        let (name, data_type) = column(alloc, entry)?;
        match columns.with_column(name, data_type)? {
            None => {}
            Some(_) => return Err(Fault::Form),
        }
    }
    Ok(columns)
}

/// An expression with its output name. `Form` for any other value, and `Memory` where memory is short.
#[tactic(auto, unfolding(crate::specs::Parts::output_of, crate::specs::Parts::output_name_of))]
pub fn output(alloc: Global, value: &Value) -> Result<ExprIR, Fault>
    ensures { Gives result (output_of (view value.now)) }
{
    let (link_value, kind, name_value) = three(value)?;
    let node = link(link_value)?;
    let kind = text(kind)?;
    let name = name(alloc, name_value)?;
    let output_name = match kind {
        "col" => OutputName::ColumnLhs(name),
        "lit" => OutputName::LiteralLhs(name),
        "alias" => OutputName::Alias(name),
        _ => return Err(Fault::Form),
    };
    Ok(ExprIR { node, output_name })
}

/// An array of expressions with their output names.
#[tactic(auto, unfolding(crate::specs::Parts::outputs_of))]
pub fn outputs(alloc: Global, value: &Value) -> Result<Items<ExprIR>, Fault>
    ensures { Gives result (outputs_of (view value.now)) }
{
    let entries = entries(value)?;
    each(alloc, entries, |entry| output(alloc, entry))
}

/// The first row, and how many rows.
#[tactic(auto, unfolding(crate::specs::Parts::slice_of))]
pub fn slice(value: &Value) -> Result<(i64, usize), Fault>
    ensures { Gives result (slice_of (view value.now)) }
{
    let (offset_value, len_value) = two(value)?;
    let offset = integer(offset_value)?;
    let len = number(len_value)?;
    Ok((offset, len as usize))
}

/// What a node that makes columns may do: three truth values.
#[tactic(auto, unfolding(crate::specs::Parts::options_of))]
pub fn options(value: &Value) -> Result<ProjectionOptions, Fault>
    ensures { Gives result (options_of (view value.now)) }
{
    let (parallel, check, broadcast) = three(value)?;
    let run_parallel = truth(parallel)?;
    let duplicate_check = truth(check)?;
    let should_broadcast = truth(broadcast)?;
    Ok(ProjectionOptions {
        run_parallel,
        duplicate_check,
        should_broadcast,
    })
}
