//! The hive columns that a path spells.
ghost use Rattle.std.specs.Prelude.{◌≡◌, IfOk, None, Some, if◌then◌else◌};
ghost use Rattle.plan_hive.specs.Parts.{has_byte as holds_byte, hive_part as part_spelled, hive_parts as parts_spelled, may_cut, value_of as value_said};

use percent_encoding::{DecodeError, percent_decode};
use plan_core::{Items, PlSmallStr};
use std::alloc::{AllocError, Global};

/// A hive column in a path: its name, and the text of its value, unless that is null.
pub(crate) type HivePart = (PlSmallStr, Option<PlSmallStr>);

/// Whether a byte stands in a text.
fn has_byte(text: &str, byte: u8) -> bool
    ensures { result ≡ holds_byte byte text.now }
{
    text.as_bytes().iter().any(|c| *c == byte)
}

/// The value that a decoded text says: None, which is null, for no text and for `__HIVE_DEFAULT_PARTITION__`.
fn value_of(alloc: Global, text: &str) -> Result<Option<PlSmallStr>, AllocError>
    ensures { IfOk result (λ value. value ≡ value_said text.now) }
{
    if text == "" || text == "__HIVE_DEFAULT_PARTITION__" {
        return Ok(None);
    }
    Ok(Some(PlSmallStr::new(alloc, text)?))
}

/// The hive column that a part of a path spells, if it does: it has one `=` with no `*` behind it, and what stands there is
/// UTF-8 once its percent escapes are read.
fn hive_part(alloc: Global, part: &str) -> Result<Option<HivePart>, AllocError>
    ensures { IfOk result (λ r. r ≡ part_spelled part.now) }
{
    let Some((name, value)) = part.split_once('=') else {
        return Ok(None);
    };
    if has_byte(value, b'=') || has_byte(value, b'*') {
        return Ok(None);
    }
    match percent_decode(value.as_bytes()).decode_utf8(alloc) {
        Ok(text) => Ok(Some((
            PlSmallStr::new(alloc, name)?,
            value_of(alloc, text.as_str())?,
        ))),
        Err(DecodeError::Utf8(_)) => Ok(None),
        Err(DecodeError::OutOfMemory) => Err(AllocError),
    }
}

/// The hive columns of a path whose folders begin at a place, counted in bytes, in order; None exactly where the path can't
/// be cut there.
pub(crate) fn hive_parts(
    alloc: Global,
    path: &str,
    start: usize,
) -> Result<Option<Items<HivePart>>, AllocError>
    ensures { IfOk result (λ r. r ≡ (if may_cut start path.now then Some (parts_spelled start path.now) else None)) }
{
    let Some((_, mut rest)) = path.split_at_checked(start) else {
        return Ok(None);
    };
    let mut parts = Items::new(alloc);
    while let Some((folder, more)) = rest.split_once('/') {
        if let Some(part) = hive_part(alloc, folder)? {
            parts.push(part)?;
        }
        rest = more;
    }
    Ok(Some(parts))
}
