//! The texts that are written.
ghost use Rattle.std.specs.Prelude.{◌≡◌, IfOk, Some, false, option_copied, string_bytes};
ghost use Rattle.serde_json.specs.Read.{read};
ghost use Rattle.serde_json.specs.View.{view};
ghost use Rattle.serde_json.specs.Written.{compact_text, has_float};
ghost use Rattle.plan_text_pieces.specs.Values.{link_data, nullable_data};
ghost use Rattle.plan_text.specs.Written.{fault_data, line_of, plan_data, plan_text, listing_text, error_text, schema_data, schema_text};

use crate::listing::listing_bytes;
use crate::plan::plan as plan_value;
use json::Writer;
use plan_core::{Items, Node, PlSmallStr, PolarsError, Schema};
use plan_ir::PlanCopy;
use plan_table::Table;
use plan_text_pieces::{fault_name, place, write_columns};
use serde_json::{Value, json};
use std::alloc::{AllocError, Global};

/// The text of a plan, with no line feed: the object of its `exprs`, its `nodes` and its `root`,
/// as compact JSON with its keys in byte order. It fails only where memory is wanting.
#[tactic(auto, using(crate::proofs::FloatLemmas::plan_plain, crate::proofs::DepthLemmas::plan_deep), unfolding(crate::specs::Written::plan_text))]
pub fn write_plan(alloc: Global, plan: &PlanCopy) -> Result<String, AllocError>
    ensures text { IfOk result (λ s. string_bytes s
        ≡ plan_text plan.now.lp plan.now.ex plan.now.root) }

    // The text is read as the value that is written.
    ensures reads_back { IfOk result (λ s. read (string_bytes s)
        ≡ Some (plan_data plan.now.lp plan.now.ex plan.now.root)) }
{
    let value = plan_value(alloc, plan)?;
    value.to_string(alloc)
}

/// The text of a value that has no float, and a line feed.
fn line(alloc: Global, value: &Value) -> Result<String, AllocError>
    requires { has_float (view value.now) ≡ false }
    ensures { IfOk result (λ s. string_bytes s ≡ line_of (view value.now)) }
{
    let mut text = value.to_string(alloc)?;
    text.push_str("\n")?;
    Ok(text)
}

/// The text of bytes. No clause says that they are UTF-8, so they are checked.
fn text_of(bytes: Vec<u8>) -> Result<String, AllocError>
    ensures { IfOk result (λ s. string_bytes s ≡ bytes.items) }
{
    match String::from_utf8(bytes) {
        Ok(text) => Ok(text),
        Err(_) => Err(AllocError),
    }
}

/// The text of a listing, with a line feed: the object of a `plan`, of the names that each of its
/// scans `reads`, from left to right, and of its `rows`: the object of a table's `columns`, each
/// with its name, its type and its values, and of its `height`; null where no table is given. It
/// fails only where memory is wanting.
#[tactic(auto, unfolding(crate::specs::Written::listing_text))]
pub fn write_listing(
    alloc: Global,
    plan: &PlanCopy,
    reads: &[Items<PlSmallStr>],
    rows: Option<&Table>,
) -> Result<String, AllocError>
    ensures { IfOk result (λ s. string_bytes s
        ≡ listing_text plan.now.lp plan.now.ex plan.now.root reads.now (option_copied rows.entry)) }
{
    let mut bytes = listing_bytes(alloc, plan, reads, rows)?;
    bytes.push(b'\n')?;
    text_of(bytes)
}

/// The number of a node, or null.
fn optional_link(link: Option<Node>) -> Value
    ensures { view result ≡ nullable_data link_data link }
{
    match link {
        None => Value::Null,
        Some(node) => Value::from(node.0),
    }
}

/// The object of an error.
#[tactic(auto, unfolding(crate::specs::Written::fault_data))]
fn fault(alloc: Global, error: &PolarsError) -> Result<Value, AllocError>
    ensures { IfOk result (λ v. view v ≡ fault_data error.now) }
{
    let at = place(error);
    let node = optional_link(at.node);
    json!(in alloc; {"error": {"kind": fault_name(error), "node": node, "place": at.place}})
}

/// The text of an error, with a line feed: the object of an `error` with its `kind`, its `node`,
/// which is null where it lies at none, and its `place`. `OutOfMemory` has the node null and the
/// place 0; the program writes no text for it. It fails only where memory is wanting.
#[tactic(auto, using(crate::proofs::FloatLemmas::fault_plain), unfolding(crate::specs::Written::error_text))]
pub fn write_fault(alloc: Global, error: &PolarsError) -> Result<String, AllocError>
    ensures { IfOk result (λ s. string_bytes s ≡ error_text error.now) }
{
    let value = fault(alloc, error)?;
    line(alloc, &value)
}

/// The text of a schema, with no line feed.
#[tactic(auto, unfolding(crate::specs::Written::schema_data))]
fn schema_bytes(alloc: Global, schema: &Schema) -> Result<Vec<u8>, AllocError>
    ensures { IfOk result (λ text. text.items ≡ compact_text (schema_data schema.now)) }
{
    let mut writer = Writer::new(Vec::new(alloc));
    writer.begin_object()?;
    writer.key("schema")?;
    write_columns(&mut writer, schema)?;
    writer.end_object()?;
    Ok(writer.into_inner())
}

/// The text of a schema, with a line feed: the object of a `schema`, which lists its columns in
/// order, each with its name and its type. It fails only where memory is wanting.
#[tactic(auto, unfolding(crate::specs::Written::schema_text))]
pub fn write_schema(alloc: Global, schema: &Schema) -> Result<String, AllocError>
    ensures { IfOk result (λ text. string_bytes text ≡ schema_text schema.now) }
{
    let mut bytes = schema_bytes(alloc, schema)?;
    bytes.push(b'\n')?;
    text_of(bytes)
}
