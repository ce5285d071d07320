//! The tests of plan_tool, plan_rule, plan_reshape and plan_top. They stand apart from these, so that each is proved once, and not with its tests
//! again. What documents are answered is told by those of cases; here are words, bytes, sources and sinks that no file of documents has,
//! what the loop over rules and the chain of passes make of plans of documents, and rules of types that no crate has.
#![tactic(auto)]

#[cfg(test)]
mod chains;
#[cfg(test)]
mod deep;
mod fakes;
mod heard;
#[cfg(test)]
mod loops;
mod once;
#[cfg(test)]
mod streams;
mod true_side;
#[cfg(test)]
mod true_side_loops;
