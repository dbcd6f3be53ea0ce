//! Pages as the log restores them.

ghost use Rattle.std.specs.Prelude.{◌≡◌, ◌+◌, ◌*◌, ◌≤◌, ◌<◌, ◌∷◌, [], true, length, IfOk, OnOk, IfErr, IsErrOf};
ghost use Rattle.std.specs.Ordering.{nat_cmp};
ghost use Rattle.std.specs.BTreeSet.{contains_by};
ghost use Rattle.sb_disk.specs.Causes.{Rose};
ghost use Rattle.sb_images.specs.Layout.{need, place_of, IsGeometry};
ghost use Rattle.sb_journal.specs.Opening.{OnlyReads};
ghost use Rattle.sb_recover.specs.Changes.{change_of, changes_of, AllFit};
ghost use Rattle.sb_recover.specs.Faults.{IsFree};
ghost use Rattle.sb_recover.specs.Frames.{texts, AreFrames, ChangedOn, HeldOn, IsPageOf};
ghost use Rattle.sb_recover.specs.Restoring.{RestoredOn};

use crate::OpenFault;
use crate::change::{Change, standing};
use crate::found::{Found, find};
use crate::frames::Frames;
use sb_bytes::{PAGE_LEN, splice};
use sb_disk::Disk;
use sb_images::place_of;
use sb_log::Geometry;
use std::alloc::Global;
use std::collections::BTreeSet;

/// The page as the disk has it.
fn read_page<D: Disk>(
    alloc: Global,
    disk: &mut D,
    g: &Geometry,
    page: u32,
) -> Result<Vec<u8>, OpenFault>
    requires sizes { IsGeometry g.now }
    requires room { need g.now.pages g.now.log ≤ D.len disk.old }
    requires page { page < g.now.pages }
    ensures page { IfOk result (λ bytes. IsPageOf (D.told disk.old) g.now page bytes.items) }
    ensures long { IfOk result (λ bytes. length bytes.items ≡ 4096) }
    ensures refused { IfErr result IsFree }
    ensures fault { IsErrOf result OpenFault.Fault → Rose (D.faults disk.old) (D.faults disk.new) }
    ensures reads { OnlyReads D.told D.len D.faults disk.old disk.new }
{
    let mut bytes = vec![in alloc; 0u8; PAGE_LEN]?;
    disk.read_at(place_of(*g, page), &mut bytes)?;
    Ok(bytes)
}

/// Reads the page from the disk where it isn't held.
fn hold_page<D: Disk>(
    alloc: Global,
    disk: &mut D,
    g: &Geometry,
    frames: &mut Frames,
    page: u32,
) -> Result<(), OpenFault>
    requires sizes { IsGeometry g.now }
    requires room { need g.now.pages g.now.log ≤ D.len disk.old }
    requires page { page < g.now.pages }
    requires frames { AreFrames g.now.pages (texts frames.old.items) }
    ensures held { OnOk result (HeldOn (D.told disk.old) g.now page (texts frames.old.items) (texts frames.new.items)) }
    ensures refused { IfErr result IsFree }
    ensures fault { IsErrOf result OpenFault.Fault → Rose (D.faults disk.old) (D.faults disk.new) }
    ensures reads { OnlyReads D.told D.len D.faults disk.old disk.new }
{
    if frames[page as usize].is_empty() {
        frames[page as usize] = read_page(alloc, disk, g, page)?;
    }
    Ok(())
}

/// Writes the change over its page, if its transaction is committed and the store has the page.
fn write_change<D: Disk>(
    alloc: Global,
    disk: &mut D,
    g: &Geometry,
    frames: &mut Frames,
    change: &Change<'_>,
    committed: &BTreeSet<u32>,
) -> Result<(), OpenFault>
    requires sizes { IsGeometry g.now }
    requires room { need g.now.pages g.now.log ≤ D.len disk.old }
    requires frames { AreFrames g.now.pages (texts frames.old.items) }
    requires fits { change.now.offset + length change.now.after.now ≤ 4096 }
    ensures changed { OnOk result (
        ChangedOn (D.told disk.old) g.now (λ tx. contains_by (nat_cmp tx) committed.now) (change_of change.now ∷ []) (texts frames.old.items) (texts frames.new.items)) }
    ensures frames { OnOk result (AreFrames g.now.pages (texts frames.new.items)) }
    ensures refused { IfErr result IsFree }
    ensures fault { IsErrOf result OpenFault.Fault → Rose (D.faults disk.old) (D.faults disk.new) }
    ensures reads { OnlyReads D.told D.len D.faults disk.old disk.new }
{
    if change.page >= g.pages || !committed.contains(&change.tx) {
        return Ok(());
    }
    hold_page(alloc, disk, g, frames, change.page)?;
    splice(
        &mut frames[change.page as usize],
        change.offset as usize,
        change.after,
    );
    Ok(())
}

/// Writes the changes over their pages, the first of them first.
fn write_changes<D: Disk>(
    alloc: Global,
    disk: &mut D,
    g: &Geometry,
    frames: &mut Frames,
    changes: &[Change<'_>],
    committed: &BTreeSet<u32>,
) -> Result<(), OpenFault>
    requires sizes { IsGeometry g.now }
    requires room { need g.now.pages g.now.log ≤ D.len disk.old }
    requires frames { AreFrames g.now.pages (texts frames.old.items) }
    requires fit { AllFit (changes_of changes.now) }
    ensures changed { OnOk result (
        ChangedOn (D.told disk.old) g.now (λ tx. contains_by (nat_cmp tx) committed.now) (changes_of changes.now) (texts frames.old.items) (texts frames.new.items)) }
    ensures frames { OnOk result (AreFrames g.now.pages (texts frames.new.items)) }
    ensures refused { IfErr result IsFree }
    ensures fault { IsErrOf result OpenFault.Fault → Rose (D.faults disk.old) (D.faults disk.new) }
    ensures reads { OnlyReads D.told D.len D.faults disk.old disk.new }
{
    for change in changes {
        write_change(alloc, disk, g, frames, change, committed)?;
    }
    Ok(())
}

/// The pages that have an image or a standing change of a committed transaction, as the chunks restore them.
pub(crate) fn restore<D: Disk>(
    alloc: Global,
    disk: &mut D,
    g: &Geometry,
    chunks: &[Vec<u8>],
) -> Result<Frames, OpenFault>
    requires sizes { IsGeometry g.now }
    requires room { need g.now.pages g.now.log ≤ D.len disk.old }
    ensures restored { IfOk result (λ frames. RestoredOn (D.told disk.old) g.now (texts chunks.now) (texts frames.items)) }
    ensures frames { IfOk result (λ frames. AreFrames g.now.pages (texts frames.items)) }
    ensures refused { IfErr result IsFree }
    ensures fault { IsErrOf result OpenFault.Fault → Rose (D.faults disk.old) (D.faults disk.new) }
    ensures reads { OnlyReads D.told D.len D.faults disk.old disk.new }
{
    let Found {
        changes,
        mut counts,
        committed,
        mut frames,
    } = find(alloc, chunks, g.pages)?;
    let changes = standing(alloc, &changes, &mut counts)?;
    write_changes(alloc, disk, g, &mut frames, &changes, &committed)?;
    Ok(frames)
}
