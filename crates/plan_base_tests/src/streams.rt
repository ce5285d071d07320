//! Sources and sinks, each public call once, and a sink that takes ten bytes a call.
ghost use Rattle.std.specs.Prelude.{◌≡◌, ◌<◌, ◌≤◌, length, IfOk, OnOk, true, false, Some};
ghost use Rattle.std.specs.Io.KnownBytes.{WriteAppends, Keeps};
ghost use Rattle.plan_stream.specs.Causes.{HasCause};

use plan_stream::*;
use std::alloc::{AllocError, Global};

/// A sink that takes at most ten bytes a call, and counts its calls.
#[derive(Drop)]
struct TenSink {
    bytes: Vec<u8>,
    calls: u64,
    faults: u64,
    clean: bool,
}

impl Sink for TenSink {
    ghost held = { λ s. Some s.bytes.items };

    ghost clean = { λ s. s.clean };

    ghost faults = { λ s. s.faults };

    fn write(&mut self, piece: &[u8]) -> Result<usize, Failed> {
        self.calls = self.calls.saturating_add(1);
        let count = piece.len().min(10);
        if self.bytes.extend_from_slice(&piece[..count]).is_err() {
            self.faults = self.faults.saturating_add(1);
            return Err(Failed);
        }
        self.clean = false;
        Ok(count)
    }

    fn flush(&mut self) -> Result<(), Failed> {
        self.clean = true;
        Ok(())
    }
}

/// Whether a source gives this piece.
fn gives_piece(source: &mut MemorySource<'_>, buffer: &mut [u8], piece: &[u8]) -> bool {
    if buffer.is_empty() {
        return false;
    }
    let count = source.read(buffer).unwrap_or(0);
    buffer.get(..count) == Some(piece)
}

/// Whether a source gives these pieces in turn.
fn gives(source: &mut MemorySource<'_>, buffer: &mut [u8], pieces: &[&[u8]]) -> bool {
    for piece in pieces {
        if !gives_piece(source, buffer, *piece) {
            return false;
        }
    }
    true
}

/// Whether a source gives its bytes by three, and whether a small buffer is filled.
fn sources() -> [bool; 2] {
    let mut by_three = MemorySource::new(b"abcdefg", 3);
    let mut small = MemorySource::new(b"abc", 3);
    [
        gives(&mut by_three, &mut [0; 5], &[b"abc", b"def", b"g", b""]),
        gives(&mut small, &mut [0; 2], &[b"ab", b"c", b""]),
    ]
}

/// What a sink with room for five bytes answers, and whether it holds the first five.
fn answers(sink: &mut MemorySink) -> [bool; 5] {
    [
        sink.write(b"abc") == Ok(3),
        sink.write(b"def") == Ok(2),
        sink.write(b"g") == Err(Failed),
        sink.flush() == Ok(()),
        sink.bytes() == b"abcde".as_slice(),
    ]
}

/// Whether a new one answers so.
fn sink_answers(alloc: Global) -> Result<bool, AllocError> {
    let mut sink = MemorySink::new(alloc, 5)?;
    Ok(answers(&mut sink) == [true; 5])
}

/// Whether a text is written or cut so where there is so much room, and what is held then.
fn is_written(
    alloc: Global,
    room: usize,
    answer: Result<(), WriteFault>,
    held: &[u8],
) -> Result<bool, AllocError> {
    let mut sink = MemorySink::new(alloc, room)?;
    Ok(write_text(b"abcdef", &mut sink) == answer && sink.bytes() == held)
}

/// Whether each write to a sink that takes ten bytes a call is offered the rest.
fn is_offered_the_rest(alloc: Global) -> bool {
    let mut sink = TenSink {
        bytes: Vec::new(alloc),
        calls: 0,
        faults: 0,
        clean: true,
    };
    let text = b"abcdefghijklmnopqrstuvwxyz".as_slice();
    let is_written = write_text(text, &mut sink).is_ok();
    let counts = (sink.calls, sink.faults, sink.clean);
    is_written && sink.bytes.as_slice() == text && counts == (3, 0, true)
}

/// Seven bytes, read up to a limit.
fn read(alloc: Global, limit: usize) -> Result<Vec<u8>, ReadFault> {
    let mut source = MemorySource::new(b"abcdefg", 3);
    read_all(alloc, &mut source, limit)
}

/// Whether seven bytes are read up to the seventh.
fn is_read(alloc: Global) -> bool {
    match read(alloc, 7) {
        Ok(bytes) => bytes.as_slice() == b"abcdefg".as_slice(),
        Err(_) => false,
    }
}

/// The same, and whether they are refused up to the sixth.
fn reads(alloc: Global) -> [bool; 2] {
    let refused = read(alloc, 6).err();
    [is_read(alloc), refused == Some(ReadFault::Limit)]
}

/// Whether sinks hold what they should.
fn sinks(alloc: Global) -> Result<[bool; 4], AllocError> {
    Ok([
        sink_answers(alloc)?,
        is_written(alloc, 6, Ok(()), b"abcdef")?,
        is_written(alloc, 5, Err(WriteFault::Cut), b"abcde")?,
        is_written(alloc, 0, Err(WriteFault::Cut), b"")?,
    ])
}

#[test]
fn sources_and_sinks_answer(rt: HostRuntime) {
    assert!(rt; sources() == [true; 2]);
    assert!(rt; sinks(rt.alloc()) == Ok([true; 4]));
    assert!(rt; is_offered_the_rest(rt.alloc()));
    assert!(rt; reads(rt.alloc()) == [true; 2]);
}
