//! A reader as a source and a writer as a sink.

ghost use Rattle.std.specs.Prelude.{◌≡◌, ◌<◌, ◌≤◌, None, length, IfOk};
ghost use Rattle.sb_disk.specs.Causes.{HasCause};
ghost use Rattle.sb_filedisk.specs.Counts.{Counts};

use crate::faults::Faults;
use sb_disk::{Failed, Sink, Source};
use std::io::{self, ErrorKind, Read, Write};

/// A reader that counts its failures. Its end is the end of the source.
#[derive(Drop)]
pub struct ReadSource<R> {
    reader: R,
    faults: Faults,
}

impl<R: Read> ReadSource<R> {
    /// A source that hasn't failed yet.
    pub fn new(reader: R) -> ReadSource<R>
        ensures { ⟦<ReadSource<R> as Source>⟧.faults result ≡ 0 }
    {
        ReadSource {
            reader,
            faults: Faults { count: 0 },
        }
    }
}

impl<R: Read> Source for ReadSource<R> {
    ghost left = { λ _. None };

    ghost faults = { λ s. s.faults.count };

    /// One read, tried again where a signal interrupts it.
    fn read(&mut self, buffer: &mut [u8]) -> Result<usize, Failed>
        ensures most { IfOk result (λ count. count ≤ length buffer.new) }
        ensures cause { HasCause self.old.faults.count self.new.faults.count result }
        ensures counted { Counts self.old.faults.count self.new.faults.count result }
    {
        let count = read_some(&mut self.reader, buffer);
        self.faults.note(count)
    }

    fn faults(&self) -> u64 {
        self.faults.count
    }
}

fn read_some<R: Read>(reader: &mut R, buffer: &mut [u8]) -> io::Result<usize>
    ensures { IfOk result (λ count. count ≤ length buffer.new) }
{
    for _ in 0..u64::MAX {
        match reader.read(buffer) {
            Err(error) if error.kind() == ErrorKind::Interrupted => {}
            outcome => return outcome,
        }
    }
    Err(ErrorKind::Interrupted.into())
}

/// A writer that counts its failures. One that takes nothing of a piece has failed. What a writer keeps in a buffer of its own counts as taken.
#[derive(Drop)]
pub struct WriteSink<W> {
    writer: W,
    faults: Faults,
}

impl<W: Write> WriteSink<W> {
    /// A sink that hasn't failed yet.
    pub fn new(writer: W) -> WriteSink<W>
        ensures { ⟦<WriteSink<W> as Sink>⟧.faults result ≡ 0 }
    {
        WriteSink {
            writer,
            faults: Faults { count: 0 },
        }
    }
}

impl<W: Write> Sink for WriteSink<W> {
    ghost held = { λ _. None };

    ghost faults = { λ s. s.faults.count };

    /// One write, tried again where a signal interrupts it.
    fn write(&mut self, piece: &[u8]) -> Result<usize, Failed>
        ensures most { IfOk result (λ count. count ≤ length piece.now) }
        ensures some { IfOk result (λ count. 0 < length piece.now → 0 < count) }
        ensures cause { HasCause self.old.faults.count self.new.faults.count result }
        ensures counted { Counts self.old.faults.count self.new.faults.count result }
    {
        let count = write_some(&mut self.writer, piece);
        self.faults.note(count)
    }

    fn faults(&self) -> u64 {
        self.faults.count
    }
}

fn write_some<W: Write>(writer: &mut W, piece: &[u8]) -> io::Result<usize>
    ensures most { IfOk result (λ count. count ≤ length piece.now) }
    ensures some { IfOk result (λ count. 0 < length piece.now → 0 < count) }
{
    for _ in 0..u64::MAX {
        match writer.write(piece) {
            Ok(0) if !piece.is_empty() => return Err(ErrorKind::WriteZero.into()),
            Err(error) if error.kind() == ErrorKind::Interrupted => {}
            outcome => return outcome,
        }
    }
    Err(ErrorKind::Interrupted.into())
}
