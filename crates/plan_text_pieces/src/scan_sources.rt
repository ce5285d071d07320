//! The object of what is read from, as text.
ghost use Rattle.std.specs.Prelude.{◌≡◌, ◌++◌, OnOk};
ghost use Rattle.json.specs.Tree.{json_tokens};
ghost use Rattle.serde_json.specs.Written.{outline};
ghost use Rattle.plan_text_pieces.specs.Values.{sources_data};

use crate::writing::{write_buffers, write_paths};
use json::Writer;
use plan_scan::ScanSources;
use std::alloc::AllocError;

/// Writes the object of paths, or of the numbers of buffers.
pub fn write_sources(writer: &mut Writer, given: &ScanSources) -> Result<(), AllocError>
    ensures tokens { OnOk result (writer.new.tokens
        ≡ writer.old.tokens ++ json_tokens (outline (sources_data given.now))) }
    ensures before { OnOk result (writer.new.before ≡ writer.old.before) }
{
    match given {
        ScanSources::Paths(paths) => write_paths(writer, paths.as_slice()),
        ScanSources::Buffers(buffers) => write_buffers(writer, buffers.as_slice()),
    }
}
