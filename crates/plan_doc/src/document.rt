//! The reader of documents.
ghost use Rattle.serde_json.specs.View.{view};
ghost use Rattle.plan_doc_parts.specs.Gives.{Gives, Shows};
ghost use Rattle.plan_doc_parts.specs.Members.{object_of};
ghost use Rattle.plan_doc.specs.Document.{flags_of, named_flags as named_flags_of, nodes_of, exprs_of, document_keys, document_of as document_at, json_of, doc_of, IsJson, IsReading};

use crate::built::{built_flags, unshared};
use crate::exprs::expr;
use crate::tables::optional_tables_at;
use plan_core::{Arena, Node, OptFlags};
use plan_doc_nodes::node;
use plan_doc_parts::{Fault, arena_of_each, entries, field, link_at, number, object};
use plan_expr::AExpr;
use plan_ir::IR;
use plan_table::Tables;
use serde_json::Value;
use std::alloc::Global;
use thiserror::Error;

/// A plan with what is asked of it.
#[derive(Drop)]
pub struct Document {
    /// The number of the plan's topmost node.
    pub root: Node,
    /// The nodes, by their numbers.
    pub lp: Arena<IR>,
    /// The expressions, by their numbers.
    pub ex: Arena<AExpr>,
    /// The optimisations that are asked for.
    pub flags: OptFlags,
    /// Whether equal parts of the plan are shared.
    pub shared: bool,
    /// The tables of sources that it comes with, if it comes with any.
    pub tables: Option<Tables>,
}

/// Why bytes stand for no document.
#[derive(Clone, Copy, Debug, PartialEq, Eq, Error)]
pub enum ReadError {
    /// The bytes are no JSON text, or nest deeper than serde_json reads.
    #[error("the bytes are no JSON text")]
    NotJson,
    /// The JSON value is no document: a key, a type or a number isn't as it must be, or a form isn't built.
    #[error("the value is no document")]
    Form,
    /// There was not enough memory.
    #[error("out of memory")]
    OutOfMemory,
}

/// The flags with these bits, which all have names.
fn named_flags(bits: u32) -> Result<OptFlags, Fault>
    ensures { Gives result (named_flags_of bits) }
{
    OptFlags::from_bits(bits).ok_or(Fault::Form)
}

/// The passes that a number asks for.
#[tactic(auto, unfolding(crate::specs::Document::flags_of))]
fn flags(value: &Value) -> Result<OptFlags, Fault>
    ensures { Gives result (flags_of (view value.now)) }
{
    let bits = built_flags(number(value)?)?;
    named_flags(bits)
}

/// An arena of the nodes of an array, in order.
#[tactic(auto, unfolding(crate::specs::Document::nodes_of))]
fn nodes(alloc: Global, value: &Value) -> Result<Arena<IR>, Fault>
    ensures { Gives result (nodes_of (view value.now)) }
{
    let entries = entries(value)?;
    arena_of_each(alloc, entries, |entry| node(alloc, entry))
}

/// An arena of the expressions of an array, in order.
#[tactic(auto, unfolding(crate::specs::Document::exprs_of))]
fn exprs(alloc: Global, value: &Value) -> Result<Arena<AExpr>, Fault>
    ensures { Gives result (exprs_of (view value.now)) }
{
    let entries = entries(value)?;
    arena_of_each(alloc, entries, |entry| expr(alloc, entry))
}

/// An object with the keys of a document and no other.
#[tactic(auto, unfolding(crate::specs::Document::document_keys))]
fn document_object(value: &Value) -> Result<&Value, Fault>
    ensures { Shows (λ v. view v.now) result (object_of document_keys (view value.now)) }
{
    object(
        value,
        &["exprs", "flags", "nodes", "root", "shared", "tables"],
    )
}

/// The document that a JSON value stands for.
#[tactic(auto, unfolding(crate::specs::Document::document_of))]
fn document_of(alloc: Global, value: &Value) -> Result<Document, Fault>
    ensures { Gives result (document_at (view value.now)) }
{
    let object = document_object(value)?;
    let root = link_at(object, "root")?;
    let flags = flags(field(object, "flags")?)?;
    let lp = nodes(alloc, field(object, "nodes")?)?;
    let ex = exprs(alloc, field(object, "exprs")?)?;
    let shared = unshared(field(object, "shared")?)?;
    let tables = optional_tables_at(alloc, object, "tables")?;
    Ok(Document {
        root,
        lp,
        ex,
        flags,
        shared,
        tables,
    })
}

/// The JSON value that the bytes stand for.
#[tactic(auto, using(crate::proofs::ReadingLemmas::utf8_or_not), unfolding(crate::specs::Document::json_of))]
fn json(alloc: Global, bytes: &[u8]) -> Result<Value, ReadError>
    ensures { IsJson result (json_of bytes.now) }
{
    match Value::from_slice(alloc, bytes) {
        Ok(value) => Ok(value),
        Err(error) if error.is_memory() => Err(ReadError::OutOfMemory),
        Err(_) => Err(ReadError::NotJson),
    }
}

/// The document that the bytes stand for. `NotJson` where no JSON value is read from them, `Form` where that is no
/// document, and `OutOfMemory` where memory is short.
#[tactic(auto, unfolding(crate::specs::Document::doc_of))]
pub fn read_document(alloc: Global, bytes: &[u8]) -> Result<Document, ReadError>
    ensures { IsReading result (doc_of bytes.now) }
{
    let value = json(alloc, bytes)?;
    match document_of(alloc, &value) {
        Ok(document) => Ok(document),
        Err(Fault::Form) => Err(ReadError::Form),
        Err(Fault::Memory) => Err(ReadError::OutOfMemory),
    }
}
