//! The scans and the functions of whole frames of documents: what the JSON values of their entries stand for.
#![tactic(auto)]

mod functions;
mod hive;
mod scans;

pub use functions::frame_function;
pub use scans::{frame_scan, scan};
