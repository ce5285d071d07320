//! The tests of plan_ir, plan_copy, plan_pruned, plan_builder, plan_prune and plan_text. They stand apart from these, so that each is proved
//! once, and not with its tests again. What the program does is told by the documents of cases; here are the calls that it doesn't make. The
//! plans are read from documents, and what is told of them is compared as text, so that the tests cost little to prove.
#![tactic(auto)]

#[cfg(test)]
mod built;
#[cfg(test)]
mod calls;
#[cfg(test)]
mod parts;
#[cfg(test)]
mod pruned;
#[cfg(test)]
mod read;
#[cfg(test)]
mod renamed;
