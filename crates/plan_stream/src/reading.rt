//! A source read to its end, up to a limit.
ghost use Rattle.std.specs.Prelude.{◌≡◌, ◌<◌, ◌≤◌, ℕ, List, length, IfOk, IfSome, OnOk, IsErrOf, OnErr};
ghost use Rattle.std.specs.Io.KnownBytes.{IsAtEnd};
ghost use Rattle.plan_stream.specs.Causes.{Rose};
ghost use Rattle.plan_stream.specs.declared.reading.ReadFault.TheVariants.{Memory, Failed as SourceFailed};

use crate::{Failed, Source};
use std::alloc::{AllocError, AllocFailed, Global};

/// Why a source wasn't read to its end.
#[derive(Clone, Copy, Debug, PartialEq, Eq)]
pub enum ReadFault {
    /// The source has more bytes than the limit.
    Limit,
    /// A read failed.
    Failed,
    /// There was not enough memory for the bytes.
    Memory,
}

impl From<Failed> for ReadFault {
    ghost from_gives = { λ _ e. e ≡ SourceFailed };

    fn from(_e: Failed) -> ReadFault {
        ReadFault::Failed
    }
}

impl From<AllocError> for ReadFault {
    ghost from_gives = { λ _ e. e ≡ Memory };

    fn from(_e: AllocError) -> ReadFault {
        ReadFault::Memory
    }
}

/// How many bytes a read asks for at most.
const BUFFER: usize = 4096;

/// All bytes that are left, which are at most `limit`. On a fault some of them have been taken from the source.
pub fn read_all<S: Source>(
    alloc: Global,
    source: &mut S,
    limit: usize,
) -> Result<Vec<u8>, ReadFault>
    ensures fits { IfOk result (λ bytes. length bytes.items ≤ limit) }
    ensures whole { IfOk result (λ bytes. IfSome (S.left source.old) (λ all. bytes.items ≡ all)) }
    ensures ended { OnOk result (IsAtEnd (S.left source.new)) }
    ensures limit { IsErrOf result ReadFault.Limit
        → IfSome (S.left source.old) (λ all. limit < length all) }
    ensures failed { IsErrOf result ReadFault.Failed
        → Rose (S.faults source.old) (S.faults source.new) }
    ensures unfailed { (IsErrOf result ReadFault.Failed → ⊥) → S.faults source.new ≡ S.faults source.old }
    ensures later { S.faults source.old ≤ S.faults source.new }
{
    let mut bytes = Vec::new(alloc);
    let mut buffer = [0u8; BUFFER];
    loop {
        let count = source.read(&mut buffer)?;
        if count == 0 {
            return Ok(bytes);
        }
        if count > limit - bytes.len() {
            return Err(ReadFault::Limit);
        }
        bytes.extend_from_slice(&buffer[..count])?;
    }
}
