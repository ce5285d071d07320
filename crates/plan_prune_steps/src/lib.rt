//! What pruning does at a node of each kind: before its inputs are pruned, and after.
#![tactic(auto)]

mod cache;
mod distinct;
mod filter;
mod frame_scan;
mod function;
mod group_by;
mod hconcat;
mod hstack;
mod over;
mod projection;
mod reads;
mod scan;
pub mod select;
mod sink;
mod slice;
mod sort;
pub mod step;
mod union;
