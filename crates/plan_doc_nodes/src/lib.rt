//! The nodes of documents: what the JSON values of their entries stand for.
#![tactic(auto)]

mod columns;
mod joins;
mod nodes;
mod rows;
mod several;

pub use nodes::node;
