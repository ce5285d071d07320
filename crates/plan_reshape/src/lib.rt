//! Rules called over a plan until none of them finds its pattern: the loop, the rules in one type, and rules of any type in boxes.
#![tactic(auto)]

mod boxed;
mod exprs;
mod items;
mod nodes;
mod rule;
mod stack;
mod walks;
mod work;

pub use boxed::BoxedRule;
pub use plan_rule::{OptimizationRule, RuleKind};
pub use rule::Rule;
pub use stack::StackOptimizer;
