//! The plans of documents, and lists of names.

use plan_core::{Items, PlSmallStr};
use plan_doc::read_document;
use plan_ir::PlanCopy;
use std::alloc::{AllocError, Global};
use std::test::Fail;

/// Names that are written in a table.
pub type Texts = &'static [&'static str];

/// The plan of a document.
pub fn read(alloc: Global, text: &str) -> Result<PlanCopy, Fail> {
    let document = read_document(alloc, text.as_bytes())?;
    Ok(PlanCopy {
        root: document.root,
        lp: document.lp,
        ex: document.ex,
    })
}

/// The names, in order.
pub fn texts(alloc: Global, list: Texts) -> Result<Items<PlSmallStr>, AllocError> {
    let mut items = Items::new(alloc);
    for text in list {
        items.push(PlSmallStr::new(alloc, *text)?)?;
    }
    Ok(items)
}
