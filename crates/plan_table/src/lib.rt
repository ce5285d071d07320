//! Tables of values, and what the sources of scans hold.
#![tactic(auto)]

mod column;
mod columns;
mod source_key;
mod table;
mod tables;
mod value;

pub use column::Column;
pub use columns::Columns;
pub use source_key::SourceKey;
pub use table::Table;
pub use tables::Tables;
pub use value::{AnyValue, PlainValue};
