//! The tables that functions of whole frames and scans give.
#![tactic(auto)]

mod count;
mod explode;
mod file_scan;
mod function;
mod unpivot;

pub use file_scan::scan;
pub use function::mapped;
