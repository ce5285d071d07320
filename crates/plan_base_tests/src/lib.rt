//! The tests of plan_core, plan_options, plan_stream, plan_scan and plan_hive. They stand apart from these, so that each is proved once,
//! and not with its tests again. Most tests compare one list of answers, so that they cost little to prove.
#![tactic(auto)]

#[cfg(test)]
mod hive;
#[cfg(test)]
mod options;
#[cfg(test)]
mod partitions;
#[cfg(test)]
mod shared;
#[cfg(test)]
mod sources;
#[cfg(test)]
mod streams;
