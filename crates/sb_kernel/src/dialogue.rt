//! Lines as they come, each answered before the next.

ghost use Rattle.std.specs.Prelude.{◌≡◌, ◌≤◌, ℕ, List, [], ◌∷◌, ◌++◌, false, Err, OnOk};
ghost use Rattle.sb_disk.specs.Causes.{Rose};
ghost use Rattle.sb_registry.specs.Boxes.{Meanings};
ghost use Rattle.sb_lines.specs.Lines.{whole_lines, lines_of};
ghost use Rattle.sb_opening.specs.Sessions.{CanRun};
ghost use Rattle.sb_kernel.specs.World.{At, at, world};
ghost use Rattle.sb_kernel.specs.Ending.{SinkCause};
ghost use Rattle.sb_kernel.specs.declared.ending.Stop.TheVariants.{DiskFailed};
ghost use Rattle.sb_kernel.specs.Answering.{Closes};
ghost use Rattle.sb_kernel.specs.Runs.{HasAnswered, Stands, LinesLead, BytesLead};

use crate::answering::answer_line;
use crate::ending::{Stop, goes_on};
use crate::starts::Starts;
use crate::writing::write_all;
use sb_disk::{Disk, Sink};
use sb_lines::{MOST_HELD, asks, content};
use sb_opening::Session;
use sb_printer::print_reply;
use sb_value::Bytes;
use sb_vectors::Vectors;
use std::alloc::Global;

/// A session, and what a run holds beside it between two pieces of its input.
#[derive(Drop)]
pub struct Dialogue<B> {
    pub session: Session<B>,
    pub starts: Starts,
    /// The line that has begun.
    pub line: Bytes,
    /// Room for the text of a reply.
    pub text: Bytes,
}

impl<B: Vectors + Drop> Dialogue<B> {
    pub fn new(alloc: Global, session: Session<B>) -> Dialogue<B>
        ensures session { result.session ≡ session }
        ensures starts { result.starts ≡ [] }
        ensures line { result.line ≡ [] }
    {
        Dialogue {
            session,
            starts: Starts::new(alloc),
            line: Bytes::new(alloc),
            text: Bytes::new(alloc),
        }
    }

    /// When the items began.
    pub fn into_starts(self) -> Starts
        ensures { result ≡ self.starts }
    {
        self.starts
    }

    /// Answers the line that has begun and has come to its end.
    fn answer<D: Disk, K: Sink>(
        &mut self,
        alloc: Global,
        disk: &mut D,
        sink: &mut K,
    ) -> Result<(), Stop>
        requires runs { CanRun B.meanings D.told D.len disk.old self.old.session }
        requires up { self.old.session.down ≡ false }

        ensures leads { (m : Meanings) (lines : List (List ℕ)) (first : At B D)
            → HasAnswered (world B.meanings D.told D.len D.clock D.faults) m lines first (at disk.old self.old.session (K.held sink.old) self.old.starts)
            → LinesLead (world B.meanings D.told D.len D.clock D.faults) m result lines (lines ++ self.old.line ∷ []) first
            (at disk.new self.new.session (K.held sink.new) self.new.starts) }
        ensures cause { SinkCause (K.faults sink.old) (K.faults sink.new) result }
        ensures failed { result ≡ Err DiskFailed → Rose (D.faults disk.old) (D.faults disk.new) }
        ensures runs { CanRun B.meanings D.told D.len disk.new self.new.session }
        ensures up { OnOk result (self.new.session.down ≡ false) }
        ensures later { D.faults disk.old ≤ D.faults disk.new }
    {
        let line = content(self.line.as_slice());
        if !asks(line) {
            return Ok(());
        }
        let reply = answer_line(&mut self.session, &mut self.starts, disk, alloc, line)?;
        self.text.truncate(0);
        print_reply(&reply, &mut self.text)?;
        write_all(sink, self.text.as_slice())?;
        goes_on(&reply)
    }

    /// Takes one byte of the input.
    fn take<D: Disk, K: Sink>(
        &mut self,
        alloc: Global,
        byte: u8,
        disk: &mut D,
        sink: &mut K,
    ) -> Result<(), Stop>
        requires runs { CanRun B.meanings D.told D.len disk.old self.old.session }
        requires up { self.old.session.down ≡ false }

        ensures leads { (m : Meanings) (bytes : List ℕ) (first : At B D)
            → Stands (world B.meanings D.told D.len D.clock D.faults) m bytes self.old.line first
            (at disk.old self.old.session (K.held sink.old) self.old.starts)
            → BytesLead (world B.meanings D.told D.len D.clock D.faults) m result bytes (bytes ++ byte ∷ []) self.new.line first
            (at disk.new self.new.session (K.held sink.new) self.new.starts) }
        ensures cause { SinkCause (K.faults sink.old) (K.faults sink.new) result }
        ensures failed { result ≡ Err DiskFailed → Rose (D.faults disk.old) (D.faults disk.new) }
        ensures runs { CanRun B.meanings D.told D.len disk.new self.new.session }
        ensures up { OnOk result (self.new.session.down ≡ false) }
        ensures later { D.faults disk.old ≤ D.faults disk.new }
    {
        if byte != b'\n' {
            if self.line.len() >= MOST_HELD {
                return Ok(());
            }
            self.line.push(byte)?;
            return Ok(());
        }
        self.answer(alloc, disk, sink)?;
        self.line.truncate(0);
        Ok(())
    }

    /// Takes a piece of the input, and answers each line that ends in it.
    pub(crate) fn feed<D: Disk, K: Sink>(
        &mut self,
        alloc: Global,
        piece: &[u8],
        disk: &mut D,
        sink: &mut K,
    ) -> Result<(), Stop>
        requires runs { CanRun B.meanings D.told D.len disk.old self.old.session }
        requires up { self.old.session.down ≡ false }

        ensures leads { (m : Meanings) (bytes : List ℕ) (first : At B D)
            → Stands (world B.meanings D.told D.len D.clock D.faults) m bytes self.old.line first
            (at disk.old self.old.session (K.held sink.old) self.old.starts)
            → BytesLead (world B.meanings D.told D.len D.clock D.faults) m result bytes (bytes ++ piece.now) self.new.line first
            (at disk.new self.new.session (K.held sink.new) self.new.starts) }
        ensures cause { SinkCause (K.faults sink.old) (K.faults sink.new) result }
        ensures failed { result ≡ Err DiskFailed → Rose (D.faults disk.old) (D.faults disk.new) }
        ensures runs { CanRun B.meanings D.told D.len disk.new self.new.session }
        ensures up { OnOk result (self.new.session.down ≡ false) }
        ensures later { D.faults disk.old ≤ D.faults disk.new }
    {
        for byte in piece {
            self.take(alloc, *byte, disk, sink)?;
        }
        Ok(())
    }

    /// Answers a last line without its end, where one has begun.
    pub(crate) fn finish<D: Disk, K: Sink>(
        &mut self,
        alloc: Global,
        disk: &mut D,
        sink: &mut K,
    ) -> Result<(), Stop>
        requires runs { CanRun B.meanings D.told D.len disk.old self.old.session }
        requires up { self.old.session.down ≡ false }

        ensures leads { (m : Meanings) (bytes : List ℕ) (first : At B D)
            → Stands (world B.meanings D.told D.len D.clock D.faults) m bytes self.old.line first
            (at disk.old self.old.session (K.held sink.old) self.old.starts)
            → LinesLead (world B.meanings D.told D.len D.clock D.faults) m result (whole_lines bytes) (lines_of bytes) first
            (at disk.new self.new.session (K.held sink.new) self.new.starts) }
        ensures cause { SinkCause (K.faults sink.old) (K.faults sink.new) result }
        ensures failed { result ≡ Err DiskFailed → Rose (D.faults disk.old) (D.faults disk.new) }
        ensures runs { CanRun B.meanings D.told D.len disk.new self.new.session }
        ensures later { D.faults disk.old ≤ D.faults disk.new }
    {
        if self.line.len() == 0 {
            return Ok(());
        }
        self.answer(alloc, disk, sink)
    }

    /// Takes an open transaction back, once nothing more is answered. Where the disk fails a call in that, a crash leaves the same.
    pub(crate) fn close<D: Disk>(&mut self, disk: &mut D)
        requires runs { CanRun B.meanings D.told D.len disk.old self.old.session }

        ensures closed { Closes (world B.meanings D.told D.len D.clock D.faults) disk.old disk.new self.old.session }
        ensures starts { self.new.starts ≡ self.old.starts }
    {
        drop(self.session.abort(disk));
    }
}
