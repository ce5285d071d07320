//! The options of functions, unions, groups, joins and sorts; schemas put together; texts with commas.
#![tactic(auto)]

mod distinct;
mod flags;
mod function;
mod group;
mod join;
pub mod laws;
mod schemas;
mod sink;
mod sort;
mod texts;
mod union;

pub use distinct::{DistinctOptionsDSL, DistinctOptionsIR, Selector, UniqueKeepStrategy};
pub use flags::FunctionFlags;
pub use function::{ApplyOptions, CastingRules, FunctionOptions, UnsafeBool};
pub use group::GroupbyOptions;
pub use join::{
    IEJoinOptions, InequalityOperator, JoinArgs, JoinCoalesce, JoinType, MaintainOrderJoin,
};
pub use schemas::{item, merge_schemas};
pub use sink::SinkType;
pub use sort::SortMultipleOptions;
pub use texts::{AsStr, comma_delimited};
pub use union::{HConcatOptions, UnionArgs, UnionOptions};
