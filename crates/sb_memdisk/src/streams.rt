//! A source and a sink in memory.

ghost use Rattle.std.specs.Prelude.{◌≡◌, ◌<◌, min, Some, [], length, is_err, true, IfOk, OnErr, IsErr};
ghost use Rattle.sb_disk.specs.Causes.{HasCause};
ghost use Rattle.sb_disk.specs.Streams.{Took, Held};
ghost use Rattle.sb_memdisk.specs.Streams.{is_due, new_pace, GoesOn};

use crate::pace::Pace;
use sb_disk::{Failed, Sink, Source};
use std::alloc::{AllocError, Global};
use std::marker::Model;

/// A source of some bytes, which gives at most so many a call and may fail at one call.
#[derive(Drop)]
pub struct MemSource {
    bytes: Vec<u8>,
    /// The place of the first byte that is left.
    at: usize,
    pace: Pace,
}

impl Model for MemSource {
    ghost use Rattle.std.specs.Prelude.{◌<◌, ◌≤◌, drop, length};
    ghost use Rattle.sb_memdisk.specs.Streams.{SourceState};

    ghost Value = { SourceState };

    ghost view = { λ s. record { left = drop s.at s.bytes.items; pace = s.pace } };

    ghost invariant = { λ s. (s.at ≤ length s.bytes.items) × (0 < s.pace.piece) };
}

impl MemSource {
    /// A source of these bytes. The call with the number `fail_at` fails, and no other; the first call has the number 0.
    pub fn new(
        alloc: Global,
        bytes: &[u8],
        piece: usize,
        fail_at: Option<u64>,
    ) -> Result<MemSource, AllocError>
        requires { 0 < piece }
        ensures { IfOk result (λ s. s ≡ record { left = bytes.now; pace = new_pace piece fail_at }) }
    {
        Ok(MemSource {
            bytes: bytes.to_vec(alloc)?,
            at: 0,
            pace: Pace::new(piece, fail_at),
        })
    }
}

impl Source for MemSource {
    ghost left = { λ s. Some s.left };

    ghost faults = { λ s. s.pace.faults };

    fn read(&mut self, buffer: &mut [u8]) -> Result<usize, Failed>
        ensures count { IfOk result (λ count. count ≡ min (min self.old.pace.piece (length buffer.new)) (length self.old.left)) }
        ensures took { IfOk result (λ count. Took (Some self.old.left) (Some self.new.left) count buffer.new) }
        ensures err { OnErr result (self.new.left ≡ self.old.left) }
        ensures cause { HasCause self.old.pace.faults self.new.pace.faults result }
        ensures exactly { is_err result ≡ is_due self.old.pace }
        ensures pace { GoesOn self.old.pace self.new.pace result }
    {
        self.pace.count_call()?;
        let left = &self.bytes[self.at..];
        let count = self.pace.piece.min(buffer.len()).min(left.len());
        buffer[..count].copy_from_slice(&left[..count]);
        self.at += count;
        Ok(count)
    }

    fn faults(&self) -> u64 {
        self.pace.faults
    }
}

/// A sink that holds what it takes, at most so many bytes a call, and may fail at one call.
#[derive(Drop)]
pub struct MemSink {
    held: Vec<u8>,
    pace: Pace,
}

impl Model for MemSink {
    ghost use Rattle.std.specs.Prelude.{◌<◌};
    ghost use Rattle.sb_memdisk.specs.Streams.{SinkState};

    ghost Value = { SinkState };

    ghost view = { λ s. record { held = s.held.items; pace = s.pace } };

    ghost invariant = { λ s. 0 < s.pace.piece };
}

impl MemSink {
    /// A sink that holds nothing yet. The call with the number `fail_at` fails, and another for want of memory alone; the first call has the number 0.
    pub fn new(alloc: Global, piece: usize, fail_at: Option<u64>) -> MemSink
        requires { 0 < piece }
        ensures { result ≡ record { held = []; pace = new_pace piece fail_at } }
    {
        MemSink {
            held: Vec::new(alloc),
            pace: Pace::new(piece, fail_at),
        }
    }

    pub fn held(&self) -> &[u8]
        ensures { result.now ≡ self.now.held }
    {
        &self.held
    }
}

impl Sink for MemSink {
    ghost held = { λ s. Some s.held };

    ghost faults = { λ s. s.pace.faults };

    fn write(&mut self, piece: &[u8]) -> Result<usize, Failed>
        ensures count { IfOk result (λ count. count ≡ min self.old.pace.piece (length piece.now)) }
        ensures some { IfOk result (λ count. 0 < length piece.now → 0 < count) }
        ensures held { IfOk result (λ count. Held (Some self.old.held) (Some self.new.held) count piece.now) }
        ensures err { OnErr result (self.new.held ≡ self.old.held) }
        ensures cause { HasCause self.old.pace.faults self.new.pace.faults result }
        ensures fails { is_due self.old.pace ≡ true → IsErr result }
        ensures pace { GoesOn self.old.pace self.new.pace result }
    {
        self.pace.count_call()?;
        let count = self.pace.piece.min(piece.len());
        if self.held.extend_from_slice(&piece[..count]).is_err() {
            return Err(self.pace.fault());
        }
        Ok(count)
    }

    fn faults(&self) -> u64 {
        self.pace.faults
    }
}
