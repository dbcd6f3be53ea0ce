//! What a program reads and writes, a piece at a time.

ghost use Rattle.std.specs.Prelude.{◌≡◌, ◌<◌, ◌≤◌, ℕ, List, Option, length, IfOk, OnErr};
ghost use Rattle.sb_disk.specs.Causes.{HasCause};
ghost use Rattle.sb_disk.specs.Streams.{Took, Held};

/// A call on a device, a source or a sink failed.
#[derive(Clone, Copy, Debug, PartialEq, Eq)]
pub struct Failed;

/// Where bytes come from.
pub trait Source {
    /// The bytes that are left, where the source tells them.
    ghost left: { Self → Option (List ℕ) };

    /// How often the source has failed, up to the greatest u64.
    ghost faults: { Self → ℕ };

    /// Puts some bytes in front of the buffer and answers how many. No byte, for a buffer that has room, means the end.
    fn read(&mut self, buffer: &mut [u8]) -> Result<usize, Failed>
        ensures most { IfOk result (λ count. count ≤ length buffer.new) }
        ensures took { IfOk result (λ count. Took (left self.old) (left self.new) count buffer.new) }
        ensures err { OnErr result (left self.new ≡ left self.old) }
        ensures cause { HasCause (faults self.old) (faults self.new) result };

    fn faults(&self) -> u64
        ensures { result ≡ faults self.now };
}

/// Where bytes go.
pub trait Sink {
    /// The bytes that were taken so far, where the sink tells them.
    ghost held: { Self → Option (List ℕ) };

    /// How often the sink has failed, up to the greatest u64.
    ghost faults: { Self → ℕ };

    /// Takes the first bytes of the piece and answers how many, at least one where there is one.
    fn write(&mut self, piece: &[u8]) -> Result<usize, Failed>
        ensures most { IfOk result (λ count. count ≤ length piece.now) }
        ensures some { IfOk result (λ count. 0 < length piece.now → 0 < count) }
        ensures held { IfOk result (λ count. Held (held self.old) (held self.new) count piece.now) }
        ensures err { OnErr result (held self.new ≡ held self.old) }
        ensures cause { HasCause (faults self.old) (faults self.new) result };

    fn faults(&self) -> u64
        ensures { result ≡ faults self.now };
}
