//! Rules that put lighter plans in the place of others: the trait that all of them keep, and the rules that are known by kind.
#![tactic(auto)]

mod collapse;
mod filters;
mod flatten;
mod rechunk;
mod rule;

pub use collapse::SimpleProjectionAndCollapse;
pub use filters::DropTrueFilter;
pub use flatten::FlattenUnionRule;
pub use plan_pass_laws::RuleKind;
pub use rechunk::DelayRechunk;
pub use rule::OptimizationRule;
