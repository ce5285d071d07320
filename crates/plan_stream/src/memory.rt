//! A source and a sink in memory.
ghost use Rattle.std.specs.Prelude.{◌≡◌, ◌<◌, ◌≤◌, [], IfOk, OnOk, OnErr, true, false, Some, length, min, ◌-◌, IsOk};
ghost use Rattle.std.specs.Io.{ReadsAtMost};
ghost use Rattle.std.specs.Io.KnownBytes.{ReadConsumes, WriteAppends, Keeps};
ghost use Rattle.plan_stream.specs.Causes.{HasCause};

use crate::{Failed, Sink, Source};
use std::alloc::{AllocError, Global};
use std::marker::Model;

/// Bytes in memory, given in pieces. It never fails.
#[derive(Drop)]
pub struct MemorySource<'a> {
    bytes: &'a [u8],
    piece: usize,
}

impl<'a> Model for MemorySource<'a> {
    ghost use Rattle.std.specs.Prelude.{◌<◌};
    ghost use Rattle.plan_stream.specs.Memory.{Giving};

    ghost Value = { Giving };

    ghost view = { λ s. record { left = s.bytes.now; piece = s.piece } };

    ghost invariant = { λ s. 0 < s.piece };
}

impl<'a> MemorySource<'a> {
    /// A source of these bytes that gives at most `piece` of them a call.
    pub fn new(bytes: &'a [u8], piece: usize) -> Self
        requires { 0 < piece }
        ensures left { result.left ≡ bytes.now }
        ensures piece { result.piece ≡ piece }
    {
        MemorySource { bytes, piece }
    }
}

impl Source for MemorySource<'_> {
    ghost left = { λ s. Some s.left };

    ghost faults = { λ s. 0 };

    /// Gives the front of the bytes left: as many as fit the buffer and the piece.
    fn read(&mut self, buf: &mut [u8]) -> Result<usize, Failed>
        requires { 0 < length buf.old }
        ensures bound { ReadsAtMost result buf.new }
        ensures bytes { ReadConsumes (Some self.old.left) (Some self.new.left) result buf.new }
        ensures cause { HasCause 0 0 result }
        ensures count { IfOk result (λ n. n ≡ min (min self.old.piece (length buf.old)) (length self.old.left)) }
        ensures same_piece { self.new.piece ≡ self.old.piece }
        ensures never { IsOk result }
    {
        let count = self.piece.min(buf.len()).min(self.bytes.len());
        let (front, rest) = self.bytes.split_at(count);
        buf[..count].copy_from_slice(front);
        self.bytes = rest;
        Ok(count)
    }
}

/// Memory for a fixed number of bytes. A write fails where no room is left.
#[derive(Drop)]
pub struct MemorySink {
    bytes: Vec<u8>,
    room: usize,
    faults: u64,
    clean: bool,
}

impl Model for MemorySink {
    ghost use Rattle.std.specs.Prelude.{◌≤◌, length, vec_capacity};
    ghost use Rattle.plan_stream.specs.Memory.{Holding};

    ghost Value = { Holding };

    ghost view = { λ s. record { held = s.bytes.items; room = s.room; faults = s.faults; clean = s.clean } };

    ghost invariant = { λ s. (length s.bytes.items ≤ s.room) × (s.room ≤ vec_capacity s.bytes) };
}

impl MemorySink {
    /// A sink that holds no bytes yet, with the memory for `room` bytes.
    pub fn new(alloc: Global, room: usize) -> Result<Self, AllocError>
        ensures { IfOk result (λ s. s ≡ record { held = []; room = room; faults = 0; clean = true }) }
    {
        let bytes = Vec::with_capacity(alloc, room)?;
        Ok(MemorySink {
            bytes,
            room,
            faults: 0,
            clean: true,
        })
    }

    /// The bytes held.
    pub fn bytes(&self) -> &[u8]
        ensures { result.now ≡ self.now.held }
    {
        &self.bytes
    }
}

impl Sink for MemorySink {
    ghost held = { λ s. Some s.held };

    ghost clean = { λ s. s.clean };

    ghost faults = { λ s. s.faults };

    /// Takes as much of the piece as there is room for; fails exactly where there is none.
    fn write(&mut self, piece: &[u8]) -> Result<usize, Failed>
        requires { 0 < length piece.now }
        ensures bound { IfOk result (λ n. (0 < n) × (n ≤ length piece.now)) }
        ensures bytes { WriteAppends (Some self.old.held) (Some self.new.held) result piece.now }
        ensures dirty { OnOk result (self.new.clean ≡ false) }
        ensures unwritten { OnErr result (self.new.clean ≡ self.old.clean) }
        ensures cause { HasCause self.old.faults self.new.faults result }
        ensures count { IfOk result (λ n. n ≡ min (length piece.now) (self.old.room - length self.old.held)) }
        ensures room { length self.old.held < self.old.room → IsOk result }
        ensures same_room { self.new.room ≡ self.old.room }
    {
        let count = piece.len().min(self.room - self.bytes.len());
        if count == 0 || self.bytes.extend_from_slice(&piece[..count]).is_err() {
            self.faults = self.faults.saturating_add(1);
            return Err(Failed);
        }
        self.clean = false;
        Ok(count)
    }

    /// Never fails.
    fn flush(&mut self) -> Result<(), Failed>
        ensures bytes { Keeps (Some self.old.held) (Some self.new.held) }
        ensures clean { OnOk result (self.new.clean ≡ true) }
        ensures unflushed { OnErr result (self.new.clean ≡ self.old.clean) }
        ensures cause { HasCause self.old.faults self.new.faults result }
        ensures never { IsOk result }
        ensures same_room { self.new.room ≡ self.old.room }
    {
        self.clean = true;
        Ok(())
    }
}
