//! Plans over two arenas of which nodes and expressions become others, and what rules answer: the laws.
#![tactic(auto)]

mod kind;
pub mod laws;
pub mod rule_laws;

pub use kind::RuleKind;
