//! The nodes of plans.
#![tactic(auto)]

mod copy;
mod functions;
mod ir;
mod iterator;
mod over;
mod pairs;
mod parts;
mod scan;
mod split;

pub use copy::PlanCopy;
pub use functions::{FunctionIR, UnpivotArgsIR};
pub use ir::IR;
pub use iterator::{AlpIter, ArenaLpIter};
pub use plan_scan::{FileScan, HivePartitions, ScanSources};
pub use scan::FileInfo;
