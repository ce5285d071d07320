//! The options that scans and projections carry.
ghost use Rattle.std.specs.Prelude.{◌≡◌, IfOk};
ghost use Rattle.plan_core.specs.Options.{merged};

use crate::items::Items;
use crate::schema::Schema;
use crate::text::PlSmallStr;
use crate::try_clone::TryClone;
use std::alloc::{AllocError, Global};

/// A number of files.
pub type FileCount = u32;

/// A column that numbers the rows of a scan: its name, and the number of the first row.
#[derive(Drop, PartialEq, Eq, Debug)]
pub struct RowIndex {
    /// The name of the column.
    pub name: PlSmallStr,
    /// The number of the first row.
    pub offset: u32,
}

impl TryClone for RowIndex {
    fn try_clone(&self, alloc: Global) -> Result<Self, AllocError>
        ensures { IfOk result (λ r. r ≡ self.now) }
    {
        Ok(RowIndex {
            name: self.name.try_clone(alloc)?,
            offset: self.offset,
        })
    }
}

/// How columns are read from the folders of a path.
#[derive(Drop, PartialEq, Eq, Debug)]
pub struct HiveOptions {
    /// Whether folders name columns; None leaves the choice to the scan.
    pub enabled: Option<bool>,
    /// Where the folders begin in each path, in bytes.
    pub hive_start_idx: usize,
    /// The columns that the folders name, where they are given.
    pub schema: Option<Schema>,
    /// Whether dates are recognised in the names of folders.
    pub try_parse_dates: bool,
}

/// What a scan does beside naming its sources.
#[derive(Drop, PartialEq, Eq, Debug)]
pub struct FileScanOptions {
    /// The first row, and how many rows.
    pub slice: Option<(i64, usize)>,
    /// The names of the file columns that are read; all of them where it is absent.
    pub with_columns: Option<Items<PlSmallStr>>,
    /// Whether what is read is kept for other scans.
    pub cache: bool,
    /// The column that numbers the rows.
    pub row_index: Option<RowIndex>,
    /// Whether each column is made one piece after it is read.
    pub rechunk: bool,
    /// How many scans read these files.
    pub file_counter: FileCount,
    /// How columns are read from the folders of a path.
    pub hive_options: HiveOptions,
    /// Whether a path is a pattern.
    pub glob: bool,
    /// The name of a column with the path of each row.
    pub include_file_paths: Option<PlSmallStr>,
    /// Whether a file may lack columns of the first.
    pub allow_missing_columns: bool,
}

/// How a node that makes columns of expressions goes about it. A frame doesn't depend on it.
#[derive(Clone, Copy, PartialEq, Eq, Hash, Debug)]
pub struct ProjectionOptions {
    /// Whether the expressions may be evaluated at one time.
    pub run_parallel: bool,
    /// Whether names that come twice are looked for.
    pub duplicate_check: bool,
    /// Whether a single value is spread beside others.
    pub should_broadcast: bool,
}

impl ProjectionOptions {
    /// The options of two nodes that become one: what both may do, and what one of them has to do.
    pub fn merge_options(&self, other: &Self) -> Self
        ensures { result ≡ merged self.now other.now }
    {
        ProjectionOptions {
            run_parallel: self.run_parallel && other.run_parallel,
            duplicate_check: self.duplicate_check && other.duplicate_check,
            should_broadcast: self.should_broadcast || other.should_broadcast,
        }
    }
}

impl Default for ProjectionOptions {
    ghost use Rattle.std.specs.Prelude.{◌≡◌};
    ghost use Rattle.plan_core.specs.Options.{default_projection};

    ghost is_default = { λ o. o ≡ default_projection };

    fn default() -> Self {
        ProjectionOptions {
            run_parallel: true,
            duplicate_check: true,
            should_broadcast: true,
        }
    }
}

impl TryClone for HiveOptions {
    fn try_clone(&self, alloc: Global) -> Result<Self, AllocError>
        ensures { IfOk result (λ r. r ≡ self.now) }
    {
        Ok(HiveOptions {
            enabled: self.enabled,
            hive_start_idx: self.hive_start_idx,
            schema: self.schema.try_clone(alloc)?,
            try_parse_dates: self.try_parse_dates,
        })
    }
}

impl TryClone for FileScanOptions {
    fn try_clone(&self, alloc: Global) -> Result<Self, AllocError>
        ensures { IfOk result (λ r. r ≡ self.now) }
    {
        Ok(FileScanOptions {
            slice: self.slice,
            with_columns: self.with_columns.try_clone(alloc)?,
            cache: self.cache,
            row_index: self.row_index.try_clone(alloc)?,
            rechunk: self.rechunk,
            file_counter: self.file_counter,
            hive_options: self.hive_options.try_clone(alloc)?,
            glob: self.glob,
            include_file_paths: self.include_file_paths.try_clone(alloc)?,
            allow_missing_columns: self.allow_missing_columns,
        })
    }
}

impl Default for HiveOptions {
    ghost use Rattle.std.specs.Prelude.{◌≡◌};
    ghost use Rattle.plan_core.specs.Options.{default_hive};

    ghost is_default = { λ o. o ≡ default_hive };

    fn default() -> Self {
        HiveOptions {
            enabled: Some(true),
            hive_start_idx: 0,
            schema: None,
            try_parse_dates: true,
        }
    }
}

impl Default for FileScanOptions {
    ghost use Rattle.std.specs.Prelude.{◌≡◌};
    ghost use Rattle.plan_core.specs.Options.{default_scan};

    ghost is_default = { λ o. o ≡ default_scan };

    fn default() -> Self {
        FileScanOptions {
            slice: None,
            with_columns: None,
            cache: false,
            row_index: None,
            rechunk: false,
            file_counter: 0,
            hive_options: HiveOptions::default(),
            glob: false,
            include_file_paths: None,
            allow_missing_columns: false,
        }
    }
}
