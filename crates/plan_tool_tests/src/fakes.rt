//! The words of a call, and a source and a sink that fail, for the tests.
ghost use Rattle.std.specs.Prelude.{◌≡◌, map, string_bytes, IfOk, None, Some};

use plan_stream::{Failed, Sink, Source};
use std::alloc::{AllocError, Global};

/// The words of a call, in order.
pub fn call(alloc: Global, words: &[&str]) -> Result<Vec<String>, AllocError>
    ensures { IfOk result (λ owned. map string_bytes owned.items ≡ map (λ w. w.now) words.now) }
{
    let mut owned = Vec::new(alloc);
    for word in words {
        owned.push(String::from_str(alloc, *word)?)?;
    }
    Ok(owned)
}

/// A source that gives some bytes at once, and then fails.
#[derive(Drop)]
pub struct FailingSource<'a> {
    /// The bytes that are left.
    pub bytes: &'a [u8],
    /// How often it has failed.
    pub faults: u64,
}

impl Source for FailingSource<'_> {
    ghost left = { λ s. Some s.bytes.now };

    ghost faults = { λ s. s.faults };

    fn read(&mut self, buf: &mut [u8]) -> Result<usize, Failed> {
        let count = self.bytes.len().min(buf.len());
        if count == 0 {
            self.faults = self.faults.saturating_add(1);
            return Err(Failed);
        }
        let (front, rest) = self.bytes.split_at(count);
        buf[..count].copy_from_slice(front);
        self.bytes = rest;
        Ok(count)
    }
}

/// A sink that takes ten bytes a call. It fails after so many writes, and at each flush.
#[derive(Drop)]
pub struct FailingSink {
    /// The bytes that it took.
    pub bytes: Vec<u8>,
    /// How many writes it takes yet.
    pub writes: usize,
    /// How often it has failed.
    pub faults: u64,
    /// Whether nothing was written since the last flush that succeeded.
    pub clean: bool,
}

impl Sink for FailingSink {
    ghost held = { λ s. Some s.bytes.items };

    ghost clean = { λ s. s.clean };

    ghost faults = { λ s. s.faults };

    fn write(&mut self, piece: &[u8]) -> Result<usize, Failed> {
        let count = piece.len().min(10);
        if self.writes == 0 || self.bytes.extend_from_slice(&piece[..count]).is_err() {
            self.faults = self.faults.saturating_add(1);
            return Err(Failed);
        }
        self.writes -= 1;
        self.clean = false;
        Ok(count)
    }

    fn flush(&mut self) -> Result<(), Failed> {
        self.faults = self.faults.saturating_add(1);
        Err(Failed)
    }
}
