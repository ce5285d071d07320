//! Clustering of column additions that stand on one another: expressions move down into the addition below, until each that stays above
//! has to.
#![tactic(auto)]

pub mod cluster_with_columns;
pub mod layer;
mod look;
mod meeting;
mod parts;
mod places;
pub mod rest;
mod run;
mod staying;
