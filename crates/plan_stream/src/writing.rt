//! A text written whole, and one flush.
ghost use Rattle.std.specs.Prelude.{◌≡◌, ◌≤◌};
ghost use Rattle.plan_stream.specs.Causes.{HasCause};
ghost use Rattle.plan_stream.specs.Texts.{Leaves};

use crate::{Failed, Sink};

/// Why a text isn't known to be written.
#[derive(Clone, Copy, Debug, PartialEq, Eq)]
pub enum WriteFault {
    /// A write failed.
    Cut,
    /// The text was written whole, and the flush failed.
    Unflushed,
}

/// Writes a text whole and flushes the sink. Each write is offered all that is left of the text, and one flush follows.
pub fn write_text<K: Sink>(text: &[u8], sink: &mut K) -> Result<(), WriteFault>
    ensures leaves { Leaves (K.held sink.old) (K.held sink.new) (K.clean sink.new) text.now result }
    ensures cause { HasCause (K.faults sink.old) (K.faults sink.new) result }
{
    let mut at = 0;
    while at < text.len() {
        match sink.write(&text[at..]) {
            Ok(count) => at += count,
            Err(Failed) => return Err(WriteFault::Cut),
        }
    }
    match sink.flush() {
        Ok(()) => Ok(()),
        Err(Failed) => Err(WriteFault::Unflushed),
    }
}
