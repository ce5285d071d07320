//! The documents of plans: from bytes to the arenas of a plan.
#![tactic(auto)]

mod built;
mod document;
mod exprs;
mod tables;

pub use document::{Document, ReadError, read_document};
