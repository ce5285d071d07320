//! What plans mean: the definitions and their laws.
#![tactic(auto)]

pub mod choice_laws;
pub mod elementwise_laws;
pub mod laws;
