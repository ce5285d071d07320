//! Join collapse: the filters over a cross join become keys of a join in its place.
#![tactic(auto)]

mod condition;
mod copies;
mod cross;
mod joined;
mod keys;
mod minterms;
mod named;
mod rest;
mod run;
mod split;
mod way;

pub use minterms::MintermIter;
