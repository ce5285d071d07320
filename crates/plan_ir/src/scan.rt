//! The columns of the files of a scan.
ghost use Rattle.std.specs.Prelude.{◌≡◌, IfOk};

use crate::pairs::copy_both;
use plan_core::{Schema, TryClone};
use std::alloc::{AllocError, Global};

/// The columns of the files of a scan: those that it can put out, and those that a reader finds.
#[derive(Drop)]
pub struct FileInfo {
    /// The columns that the files can put out, in order.
    pub schema: Schema,
    /// The columns that a reader finds in the files, in order; absent where none has looked.
    pub reader_schema: Option<Schema>,
}

impl TryClone for FileInfo {
    fn try_clone(&self, alloc: Global) -> Result<Self, AllocError>
        ensures { IfOk result (λ r. r ≡ self.now) }
    {
        let (schema, reader_schema) = copy_both(alloc, &self.schema, &self.reader_schema)?;
        Ok(FileInfo {
            schema,
            reader_schema,
        })
    }
}
