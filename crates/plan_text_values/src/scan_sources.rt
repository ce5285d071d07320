//! The object of what is read from, as a JSON value.
ghost use Rattle.std.specs.Prelude.{◌≡◌, IfOk};
ghost use Rattle.serde_json.specs.View.{view};
ghost use Rattle.plan_text_pieces.specs.Values.{buffers_data, paths_data, sources_data};

use crate::members::only;
use crate::values::{names, numbers};
use plan_core::PlSmallStr;
use plan_scan::ScanSources;
use plan_text_pieces::done;
use serde_json::Value;
use std::alloc::{AllocError, Global};

/// The object of paths.
pub fn paths(alloc: Global, given: &[PlSmallStr]) -> Result<Value, AllocError>
    ensures { IfOk result (λ v. view v ≡ paths_data given.now) }
{
    let paths = done!(names(alloc, given));
    only(alloc, "paths", paths)
}

/// The object of the numbers of buffers.
pub fn buffers(alloc: Global, given: &[u32]) -> Result<Value, AllocError>
    ensures { IfOk result (λ v. view v ≡ buffers_data given.now) }
{
    let buffers = done!(numbers(alloc, given));
    only(alloc, "buffers", buffers)
}

/// The object of paths, or of the numbers of buffers. Refuses for want of memory alone.
pub fn sources(alloc: Global, given: &ScanSources) -> Result<Value, AllocError>
    ensures { IfOk result (λ v. view v ≡ sources_data given.now) }
{
    match given {
        ScanSources::Paths(given) => paths(alloc, given.as_slice()),
        ScanSources::Buffers(given) => buffers(alloc, given.as_slice()),
    }
}
