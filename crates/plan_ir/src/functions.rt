//! The functions of whole frames.
ghost use Rattle.std.specs.Prelude.{◌≡◌, IfOk};

use crate::pairs::copy_both;
use plan_core::{Items, PlSmallStr, TryClone};
use plan_scan::{FileScan, ScanSources};
use std::alloc::{AllocError, Global};

/// Which columns an unpivot makes one of, and how what it gives is named.
#[derive(Drop)]
pub struct UnpivotArgsIR {
    /// The columns whose values come one after another, in order; where there are none, all columns outside `index`.
    pub on: Items<PlSmallStr>,
    /// The columns that are repeated beside each of them, in order.
    pub index: Items<PlSmallStr>,
    /// The name of the column with the names of those columns; `variable` where it is absent.
    pub variable_name: Option<PlSmallStr>,
    /// The name of the column with their values; `value` where it is absent.
    pub value_name: Option<PlSmallStr>,
}

impl TryClone for UnpivotArgsIR {
    fn try_clone(&self, alloc: Global) -> Result<Self, AllocError>
        ensures { IfOk result (λ r. r ≡ self.now) }
    {
        let (on, index) = copy_both(alloc, &self.on, &self.index)?;
        let (variable_name, value_name) = copy_both(alloc, &self.variable_name, &self.value_name)?;
        Ok(UnpivotArgsIR {
            on,
            index,
            variable_name,
            value_name,
        })
    }
}

/// What a node makes of the whole frame of its input.
#[derive(Drop)]
pub enum FunctionIR {
    /// The columns under other names, all renamed at once. A name that no column has renames nothing.
    Rename {
        /// The names that are replaced, in order; none twice.
        existing: Items<PlSmallStr>,
        /// The names that they become, in order; as many, and none twice.
        new: Items<PlSmallStr>,
        /// Whether a name is among both. Nothing depends on it.
        swapping: bool,
    },
    /// The columns behind one that numbers the rows.
    RowIndex {
        /// The name of the column with the numbers.
        name: PlSmallStr,
        /// The number of the first row; 0 where it is absent.
        offset: Option<u32>,
    },
    /// The values of several columns in one column, one after another, each beside its column's name.
    Unpivot {
        /// Which columns, and how what is given is named.
        args: UnpivotArgsIR,
    },
    /// One row with the number of the rows of all sources. The frame of the input is ignored.
    FastCount {
        /// The sources, in order.
        sources: ScanSources,
        /// The format of the sources. Nothing depends on it.
        scan_type: FileScan,
        /// The name of the column with the number; `len` where it is absent.
        alias: Option<PlSmallStr>,
    },
    /// Each row as often as the longest of its lists has values, at least once, with one value of each list in each of these rows.
    Explode {
        /// The columns whose lists are taken apart, side by side.
        columns: Items<PlSmallStr>,
    },
}

impl TryClone for FunctionIR {
    fn try_clone(&self, alloc: Global) -> Result<Self, AllocError>
        ensures { IfOk result (λ r. r ≡ self.now) }
    {
        match self {
            FunctionIR::Rename {
                existing,
                new,
                swapping,
            } => {
                let (existing, new) = copy_both(alloc, existing, new)?;
                Ok(FunctionIR::Rename {
                    existing,
                    new,
                    swapping: *swapping,
                })
            }
            FunctionIR::RowIndex { name, offset } => Ok(FunctionIR::RowIndex {
                name: name.try_clone(alloc)?,
                offset: *offset,
            }),
            FunctionIR::Unpivot { args } => Ok(FunctionIR::Unpivot {
                args: args.try_clone(alloc)?,
            }),
            FunctionIR::FastCount {
                sources,
                scan_type,
                alias,
            } => {
                let (sources, alias) = copy_both(alloc, sources, alias)?;
                Ok(FunctionIR::FastCount {
                    sources,
                    scan_type: *scan_type,
                    alias,
                })
            }
            FunctionIR::Explode { columns } => Ok(FunctionIR::Explode {
                columns: columns.try_clone(alloc)?,
            }),
        }
    }
}
