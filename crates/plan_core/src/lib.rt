//! Arenas, lists, texts, schemas, types, errors and flags that the plan crates share.
#![tactic(auto)]

mod arena;
mod data_type;
mod error;
mod flags;
mod items;
mod names;
mod options;
mod schema;
mod schema_iter;
mod text;
mod try_clone;
mod unit_vec;

pub use arena::{Arena, ColumnNode, Node};
pub use data_type::{DataType, PlainType};
pub use error::{At, PolarsError, PolarsResult};
pub use flags::{AllowedOptimizations, OptFlags};
pub use items::Items;
pub use names::Names;
pub use options::{FileCount, FileScanOptions, HiveOptions, ProjectionOptions, RowIndex};
pub use schema::Schema;
pub use schema_iter::SchemaIter;
pub use text::PlSmallStr;
pub use try_clone::TryClone;
pub use unit_vec::UnitVec;
