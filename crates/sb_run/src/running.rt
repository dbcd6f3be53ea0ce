//! The top call: lines from a source are answered to a sink, over a store on a disk.

ghost use Rattle.std.specs.Prelude.{◌≡◌, ◌≤◌, [], None, Some, IfErr, IfOk, IsErrOf, false, true};
ghost use Rattle.sb_disk.specs.Causes.{Rose};
ghost use Rattle.sb_images.specs.Layout.{need};
ghost use Rattle.sb_registry.specs.Boxes.{Meanings, repeated_in};
ghost use Rattle.sb_sound_plays.specs.Sessions.{CanRun};
ghost use Rattle.sb_sound_plays.specs.World.{world};
ghost use Rattle.sb_run.specs.Starting.{AreSizes, HasStarted};
ghost use Rattle.sb_run.specs.Run.{AreTaken, IsNoSession, IsRun, RunsMounted, RunsOn, seen, tells};

use crate::refusing::{refuse_store, refuse_words};
use crate::report::Report;
use sb_disk::{Disk, Sink, Source};
use sb_images::need;
use sb_recover::OpenFault;
use sb_sound_plays::{Session, Starts, create, open, serve};
use sb_value::Str;
use sb_vectors::Vectors;
use sb_words::{Words, read_words};
use std::alloc::Global;

/// Opens a session over the store of a mounted disk, or over a new one, as the words ask.
fn start<B: Vectors + Drop, D: Disk>(
    alloc: Global,
    words: &Words,
    boxes: B,
    disk: &mut D,
) -> Result<Session<B>, OpenFault>
    requires words { AreSizes words.now }
    requires unique { repeated_in (B.meanings boxes) ≡ None }

    ensures started { IfOk result (λ session. HasStarted (world B.meanings D.told D.len D.clock D.faults) (B.meanings boxes) words.now
        words.now.create disk.old disk.new session) }
    ensures refused { IfErr result (λ e. IsNoSession (tells D.told D.len D.faults) (B.meanings boxes) words.now words.now.create e
        disk.old disk.new) }
    ensures runs { IfOk result (λ session. CanRun B.meanings D.told D.len disk.new session) }
    ensures up { IfOk result (λ session. session.down ≡ false) }
    ensures fault { IsErrOf result OpenFault.Fault → Rose (D.faults disk.old) (D.faults disk.new) }
    ensures later { D.faults disk.old ≤ D.faults disk.new }
{
    if words.create {
        create(boxes, alloc, disk, words.pages, words.log, words.frames)
    } else {
        open(boxes, alloc, disk, words.frames)
    }
}

/// Answers over a mounted disk.
fn run_mounted<B: Vectors + Drop, S: Source, K: Sink, D: Disk>(
    alloc: Global,
    words: &Words,
    boxes: B,
    source: &mut S,
    sink: &mut K,
    disk: &mut D,
    most: u64,
) -> Report
    requires words { AreSizes words.now }
    requires unique { repeated_in (B.meanings boxes) ≡ None }

    ensures run { RunsMounted (tells D.told D.len D.faults) (B.meanings boxes) words.now most (seen (S.left source.old) (K.held sink.old))
        (seen (S.left source.new) (K.held sink.new)) disk.old disk.new result }
    ensures disk_failed { result.status ≡ 3 → Rose (D.faults disk.old) (D.faults disk.new) }
    ensures source_failed { result.status ≡ 4 → Rose (S.faults source.old) (S.faults source.new) }
    ensures sink_failed { result.status ≡ 5 → Rose (K.faults sink.old) (K.faults sink.new) }
{
    match start(alloc, words, boxes, disk) {
        Ok(session) => {
            let (ending, starts) = serve(alloc, source, sink, disk, most, session);
            Report {
                status: ending.status(),
                starts,
            }
        }
        Err(fault) => refuse_store(alloc, sink, &fault),
    }
}

/// How large the disk must be for a store that is made.
fn size_of(words: &Words) -> Option<u64>
    requires { AreSizes words.now }
    ensures made { words.now.create ≡ true → result ≡ Some (need words.now.pages words.now.log) }
    ensures opened { words.now.create ≡ false → result ≡ None }
{
    if words.create {
        Some(need(words.pages, words.log))
    } else {
        None
    }
}

/// The report of a run that ends before an item has begun.
fn ended(alloc: Global, status: u8) -> Report
    ensures status { result.status ≡ status }
    ensures starts { result.starts ≡ [] }
{
    Report {
        status,
        starts: Starts::new(alloc),
    }
}

/// Mounts the disk, and answers over it.
fn run_with<B: Vectors + Drop, S: Source, K: Sink, D: Disk>(
    alloc: Global,
    words: &Words,
    boxes: Result<B, u16>,
    source: &mut S,
    sink: &mut K,
    disk: &mut D,
    most: u64,
) -> Report
    requires words { AreSizes words.now }
    requires unique { IfOk boxes (λ b. repeated_in (B.meanings b) ≡ None) }

    ensures run { (m : Meanings) → AreTaken B.meanings boxes m
        → RunsOn (tells D.told D.len D.faults) m words.now most (seen (S.left source.old) (K.held sink.old))
        (seen (S.left source.new) (K.held sink.new)) disk.old disk.new result }
    ensures disk_failed { result.status ≡ 3 → Rose (D.faults disk.old) (D.faults disk.new) }
    ensures source_failed { result.status ≡ 4 → Rose (S.faults source.old) (S.faults source.new) }
    ensures sink_failed { result.status ≡ 5 → Rose (K.faults sink.old) (K.faults sink.new) }
{
    if disk.mount(words.store.as_bytes(), size_of(words)).is_err() {
        return ended(alloc, 3);
    }
    match boxes {
        Ok(boxes) => run_mounted(alloc, words, boxes, source, sink, disk, most),
        Err(code) => refuse_store(alloc, sink, &OpenFault::BadExtensions { code }),
    }
}

/// Answers the commands of the source on the sink, one line at a time, over the store on the disk that the words name: until the source ends, `most` bytes
/// were taken, or a command met a fault or damage. The boxes carry the commands out; where a code repeats among them, they are that code.
///
/// The status of the report says what ended the run: 0 the end of the source, 2 the words, 3 a disk that failed, 4 a failed source, 5 a failed sink, 6 a
/// store that isn't opened or a damaged page, 7 memory that was wanting outside a command, 8 that `most` bytes were taken, with the end still unseen.
pub fn run_boxes<B: Vectors + Drop, S: Source, K: Sink, D: Disk>(
    alloc: Global,
    words: &[Str],
    boxes: Result<B, u16>,
    source: &mut S,
    sink: &mut K,
    disk: &mut D,
    most: u64,
) -> Report
    requires unique { IfOk boxes (λ b. repeated_in (B.meanings b) ≡ None) }

    ensures run { (m : Meanings) → AreTaken B.meanings boxes m
        → IsRun (tells D.told D.len D.faults) m words.now most (seen (S.left source.old) (K.held sink.old))
        (seen (S.left source.new) (K.held sink.new)) disk.old disk.new result }

    // A failure is told only where the object has failed in this run.
    ensures disk_failed { result.status ≡ 3 → Rose (D.faults disk.old) (D.faults disk.new) }
    ensures source_failed { result.status ≡ 4 → Rose (S.faults source.old) (S.faults source.new) }
    ensures sink_failed { result.status ≡ 5 → Rose (K.faults sink.old) (K.faults sink.new) }
{
    match read_words(alloc, words) {
        Ok(Some(words)) => run_with(alloc, &words, boxes, source, sink, disk, most),
        Ok(None) => refuse_words(alloc, sink),
        Err(_) => ended(alloc, 7),
    }
}
