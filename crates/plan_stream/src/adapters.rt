//! Any reader and writer of the library's as a source and a sink: the edge that is trusted to be what it tells.
ghost use Rattle.std.specs.Prelude.{◌≡◌, true};

use crate::{Failed, Sink, Source};
use std::io::{Read, Write};
use std::marker::Model;

/// A reader as a source. It counts each failure; a count at its last value stays there.
#[derive(Drop)]
pub struct ReadSource<R: Read> {
    inner: R,
    faults: u64,
}

impl<R: Read> Model for ReadSource<R> {
    ghost use Rattle.plan_stream.specs.Memory.{Reading};

    ghost Value = { Reading R };

    ghost view = { λ s. record { reader = s.inner; faults = s.faults } };
}

impl<R: Read> ReadSource<R> {
    /// A source over a reader, without failures yet.
    pub fn new(reader: R) -> Self
        ensures reader { result.reader ≡ reader }
        ensures faults { result.faults ≡ 0 }
    {
        ReadSource {
            inner: reader,
            faults: 0,
        }
    }
}

impl<R: Read> Source for ReadSource<R> {
    ghost left = { λ s. R.remaining s.reader };

    ghost faults = { λ s. s.faults };

    fn read(&mut self, buf: &mut [u8]) -> Result<usize, Failed> {
        match self.inner.read(buf) {
            Ok(count) => Ok(count),
            Err(_) => {
                self.faults = self.faults.saturating_add(1);
                Err(Failed)
            }
        }
    }
}

/// A writer as a sink. It counts each failure and each write of no byte; a count at its last value stays there.
#[derive(Drop)]
pub struct WriteSink<W: Write> {
    inner: W,
    faults: u64,
    clean: bool,
}

impl<W: Write> Model for WriteSink<W> {
    ghost use Rattle.plan_stream.specs.Memory.{Writing};

    ghost Value = { Writing W };

    ghost view = { λ s. record { writer = s.inner; faults = s.faults; clean = s.clean } };
}

impl<W: Write> WriteSink<W> {
    /// A sink over a writer: clean, and without failures yet.
    pub fn new(writer: W) -> Self
        ensures writer { result.writer ≡ writer }
        ensures faults { result.faults ≡ 0 }
        ensures clean { result.clean ≡ true }
    {
        WriteSink {
            inner: writer,
            faults: 0,
            clean: true,
        }
    }
}

impl<W: Write> Sink for WriteSink<W> {
    ghost held = { λ s. W.contents s.writer };

    ghost clean = { λ s. s.clean };

    ghost faults = { λ s. s.faults };

    fn write(&mut self, piece: &[u8]) -> Result<usize, Failed> {
        match self.inner.write(piece) {
            Ok(count) if count > 0 => {
                self.clean = false;
                Ok(count)
            }
            _ => {
                self.faults = self.faults.saturating_add(1);
                Err(Failed)
            }
        }
    }

    fn flush(&mut self) -> Result<(), Failed> {
        match self.inner.flush() {
            Ok(()) => {
                self.clean = true;
                Ok(())
            }
            Err(_) => {
                self.faults = self.faults.saturating_add(1);
                Err(Failed)
            }
        }
    }
}
