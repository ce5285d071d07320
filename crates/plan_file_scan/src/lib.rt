//! The frames of scans of files: the definitions, and their laws.
#![tactic(auto)]

pub mod laws;
