//! A source and a sink of bytes. Each counts its faults, so that a failure has a cause.
ghost use Rattle.std.specs.Prelude.{◌≡◌, ◌<◌, ◌≤◌, ℕ, List, Bool, true, false, length, IfOk, OnOk, OnErr};
ghost use Rattle.std.specs.declared.option.Option.{Option};
ghost use Rattle.std.specs.Io.{ReadsAtMost};
ghost use Rattle.std.specs.Io.KnownBytes.{ReadConsumes, WriteAppends, Keeps};
ghost use Rattle.plan_stream.specs.Causes.{HasCause};

/// A read, a write or a flush failed; the count of faults says so too.
#[derive(Clone, Copy, Debug, PartialEq, Eq)]
pub struct Failed;

/// What bytes are read from.
pub trait Source {
    /// The bytes left, where the source tells them.
    ghost left: { Self → Option (List ℕ) };

    /// How often it has failed; a count at its last value stays there.
    ghost faults: { Self → ℕ };

    /// Puts the next bytes at the front of `buf` and gives how many; 0 says that the source is at its end.
    fn read(&mut self, buf: &mut [u8]) -> Result<usize, Failed>
        requires { 0 < length buf.old }
        ensures bound { ReadsAtMost result buf.new }
        ensures bytes { ReadConsumes (left self.old) (left self.new) result buf.new }
        ensures cause { HasCause (faults self.old) (faults self.new) result };
}

/// What bytes are written to.
pub trait Sink {
    /// The bytes held, where the sink tells them.
    ghost held: { Self → Option (List ℕ) };

    /// Nothing was written since the last flush that succeeded.
    ghost clean: { Self → Bool };

    /// How often it has failed; a count at its last value stays there.
    ghost faults: { Self → ℕ };

    /// Takes bytes from the front of `piece` and gives how many, at least one.
    fn write(&mut self, piece: &[u8]) -> Result<usize, Failed>
        requires { 0 < length piece.now }
        ensures bound { IfOk result (λ n. (0 < n) × (n ≤ length piece.now)) }
        ensures bytes { WriteAppends (held self.old) (held self.new) result piece.now }
        ensures dirty { OnOk result (clean self.new ≡ false) }
        ensures unwritten { OnErr result (clean self.new ≡ clean self.old) }
        ensures cause { HasCause (faults self.old) (faults self.new) result };

    /// Passes on all that was written.
    fn flush(&mut self) -> Result<(), Failed>
        ensures bytes { Keeps (held self.old) (held self.new) }
        ensures clean { OnOk result (clean self.new ≡ true) }
        ensures unflushed { OnErr result (clean self.new ≡ clean self.old) }
        ensures cause { HasCause (faults self.old) (faults self.new) result };
}
