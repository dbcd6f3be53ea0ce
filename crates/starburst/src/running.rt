//! The top call: lines from a source are answered to a sink, over a store on a disk.

ghost use Rattle.std.specs.Prelude.{◌≡◌, ◌^◌};
ghost use Rattle.sb_disk.specs.Causes.{Rose};
ghost use Rattle.sb_run.specs.Run.{IsRun, seen, tells};

use sb_disk::{Disk, Sink, Source};
use sb_registry::{Extensions, Meant, Registry};
use sb_run::{Report, run_boxes};
use sb_value::Str;
use std::alloc::Global;

/// Answers the commands of the source on the sink, one line at a time, over the store on the disk that the words name: until the source ends, `most` bytes
/// were taken, or a command met a fault or damage. The boxes carry the commands out. What the status of the report says stands at [`run_boxes`].
pub fn run_to<S: Source, K: Sink, D: Disk>(
    alloc: Global,
    words: &[Str],
    exts: Extensions,
    source: &mut S,
    sink: &mut K,
    disk: &mut D,
    most: u64,
) -> Report
    ensures run { IsRun (tells D.told D.len D.faults) (⟦<Extensions as Meant>⟧.meant exts) words.now most (seen (S.left source.old) (K.held sink.old))
        (seen (S.left source.new) (K.held sink.new)) disk.old disk.new result }

    // A failure is told only where the object has failed in this run.
    ensures disk_failed { result.status ≡ 3 → Rose (D.faults disk.old) (D.faults disk.new) }
    ensures source_failed { result.status ≡ 4 → Rose (S.faults source.old) (S.faults source.new) }
    ensures sink_failed { result.status ≡ 5 → Rose (K.faults sink.old) (K.faults sink.new) }
{
    match Registry::take(exts) {
        Ok(boxes) => run_boxes(alloc, words, Ok(boxes), source, sink, disk, most),
        Err((code, _)) => {
            run_boxes::<Registry, S, K, D>(alloc, words, Err(code), source, sink, disk, most)
        }
    }
}

/// [`run_to`] with 2^32 bytes at most.
pub fn run<S: Source, K: Sink, D: Disk>(
    alloc: Global,
    words: &[Str],
    exts: Extensions,
    source: &mut S,
    sink: &mut K,
    disk: &mut D,
) -> Report
    ensures run { IsRun (tells D.told D.len D.faults) (⟦<Extensions as Meant>⟧.meant exts) words.now (2 ^ 32) (seen (S.left source.old) (K.held sink.old))
        (seen (S.left source.new) (K.held sink.new)) disk.old disk.new result }
    ensures disk_failed { result.status ≡ 3 → Rose (D.faults disk.old) (D.faults disk.new) }
    ensures source_failed { result.status ≡ 4 → Rose (S.faults source.old) (S.faults source.new) }
    ensures sink_failed { result.status ≡ 5 → Rose (K.faults sink.old) (K.faults sink.new) }
{
    run_to(alloc, words, exts, source, sink, disk, 1 << 32)
}
