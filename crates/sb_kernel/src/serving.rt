//! Input that is taken a piece at a time.

ghost use Rattle.std.specs.Prelude.{◌≡◌, ◌<◌, ◌≤◌, [], List, ℕ, Option, length, false};
ghost use Rattle.sb_registry.specs.Boxes.{Meanings};
ghost use Rattle.sb_opening.specs.Sessions.{CanRun};
ghost use Rattle.sb_kernel.specs.World.{At, at, world};
ghost use Rattle.sb_kernel.specs.Serving.{counted, Serves, PieceLeads, ContinuesWithin, NeverFall, HasEndingCause, BreaksWithCause, GoesOnUp, HasEnded, HasServed};

use crate::dialogue::Dialogue;
use crate::ending::Ending;
use crate::starts::Starts;
use sb_disk::{Disk, Sink, Source};
use sb_opening::Session;
use sb_vectors::Vectors;
use std::alloc::Global;
use std::ops::ControlFlow;

/// Takes one piece of the source into the buffer, and answers the lines that end in it.
fn serve_piece<B: Vectors + Drop, S: Source, K: Sink, D: Disk>(
    alloc: Global,
    source: &mut S,
    sink: &mut K,
    disk: &mut D,
    buffer: &mut [u8],
    dialogue: &mut Dialogue<B>,
) -> ControlFlow<Ending, u64>
    requires some { 0 < length buffer.old }
    requires short { length buffer.old ≤ 4096 }
    requires runs { CanRun B.meanings D.told D.len disk.old dialogue.old.session }
    requires up { dialogue.old.session.down ≡ false }

    ensures leads { (m : Meanings) (bytes : List ℕ) (left : Option (List ℕ)) (first : At B D) (room : ℕ) → length buffer.old ≤ room
        → Serves (world B.meanings D.told D.len D.clock D.faults) m bytes left (S.left source.old) dialogue.old.line first
        (at disk.old dialogue.old.session (K.held sink.old) dialogue.old.starts)
        → PieceLeads (world B.meanings D.told D.len D.clock D.faults) m result room bytes left (S.left source.new) dialogue.new.line first
        (at disk.new dialogue.new.session (K.held sink.new) dialogue.new.starts) }
    ensures progress { ContinuesWithin result (length buffer.old) }
    ensures counts { NeverFall (counted (S.faults source.old) (K.faults sink.old) (D.faults disk.old))
        (counted (S.faults source.new) (K.faults sink.new) (D.faults disk.new)) }
    ensures cause { BreaksWithCause result (counted (S.faults source.old) (K.faults sink.old) (D.faults disk.old))
        (counted (S.faults source.new) (K.faults sink.new) (D.faults disk.new)) }
    ensures runs { CanRun B.meanings D.told D.len disk.new dialogue.new.session }
    ensures up { GoesOnUp result dialogue.new.session.down }
{
    let Ok(count) = source.read(buffer) else {
        return ControlFlow::Break(Ending::SourceFailed);
    };
    if count == 0 {
        return match dialogue.finish(alloc, disk, sink) {
            Ok(()) => ControlFlow::Break(Ending::InputEnded),
            Err(stop) => ControlFlow::Break(Ending::Stopped(stop)),
        };
    }
    match dialogue.feed(alloc, &buffer[..count], disk, sink) {
        Ok(()) => ControlFlow::Continue(count as u64),
        Err(stop) => ControlFlow::Break(Ending::Stopped(stop)),
    }
}

/// Serves the source until it ends, at most `most` bytes of it.
fn serve_input<B: Vectors + Drop, S: Source, K: Sink, D: Disk>(
    alloc: Global,
    source: &mut S,
    sink: &mut K,
    disk: &mut D,
    most: u64,
    dialogue: &mut Dialogue<B>,
) -> Ending
    requires runs { CanRun B.meanings D.told D.len disk.old dialogue.old.session }
    requires up { dialogue.old.session.down ≡ false }

    ensures ended { (m : Meanings) (left : Option (List ℕ)) (first : At B D)
        → Serves (world B.meanings D.told D.len D.clock D.faults) m [] left (S.left source.old) dialogue.old.line first
        (at disk.old dialogue.old.session (K.held sink.old) dialogue.old.starts)
        → HasEnded (world B.meanings D.told D.len D.clock D.faults) m most left (S.left source.new) result first
        (at disk.new dialogue.new.session (K.held sink.new) dialogue.new.starts) }
    ensures counts { NeverFall (counted (S.faults source.old) (K.faults sink.old) (D.faults disk.old))
        (counted (S.faults source.new) (K.faults sink.new) (D.faults disk.new)) }
    ensures cause { HasEndingCause result (counted (S.faults source.old) (K.faults sink.old) (D.faults disk.old))
        (counted (S.faults source.new) (K.faults sink.new) (D.faults disk.new)) }
    ensures runs { CanRun B.meanings D.told D.len disk.new dialogue.new.session }
{
    let mut buffer = [0; 4096];
    let mut taken: u64 = 0;
    while taken < most {
        let room = (most - taken).min(4096) as usize;
        match serve_piece(alloc, source, sink, disk, &mut buffer[..room], dialogue) {
            ControlFlow::Continue(count) => taken += count,
            ControlFlow::Break(ending) => return ending,
        }
    }
    Ending::MostTaken
}

/// Answers the commands of the source on the sink, each before the next, until the source ends, `most` bytes were taken, or a command met a fault or
/// damage. Then an open transaction is taken back.
pub fn serve<B: Vectors + Drop, S: Source, K: Sink, D: Disk>(
    alloc: Global,
    source: &mut S,
    sink: &mut K,
    disk: &mut D,
    most: u64,
    session: Session<B>,
) -> (Ending, Starts)
    requires runs { CanRun B.meanings D.told D.len disk.old session }
    requires up { session.down ≡ false }

    ensures served { (m : Meanings) → HasServed (world B.meanings D.told D.len D.clock D.faults) m most (S.left source.old) (S.left source.new) result.0
        (at disk.old session (K.held sink.old) []) (at disk.new session (K.held sink.new) result.1) }
    ensures counts { NeverFall (counted (S.faults source.old) (K.faults sink.old) (D.faults disk.old))
        (counted (S.faults source.new) (K.faults sink.new) (D.faults disk.new)) }
    ensures cause { HasEndingCause result.0 (counted (S.faults source.old) (K.faults sink.old) (D.faults disk.old))
        (counted (S.faults source.new) (K.faults sink.new) (D.faults disk.new)) }
{
    let mut dialogue = Dialogue::new(alloc, session);
    let ending = serve_input(alloc, source, sink, disk, most, &mut dialogue);
    dialogue.close(disk);
    (ending, dialogue.into_starts())
}
