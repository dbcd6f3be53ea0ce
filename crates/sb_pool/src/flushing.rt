//! The calls on the disk that write the pages of a pool.

ghost use Rattle.std.specs.Prelude.{◌≡◌, ◌⊎◌, ◌<◌, ◌≤◌, true, false, length, map, OnOk, OnErr};
ghost use Rattle.std.specs.List.{All};
ghost use Rattle.sb_disk.specs.Causes.{HasCause, Rose};
ghost use Rattle.sb_disk.specs.Disk.{WhereTold};
ghost use Rattle.sb_disk.specs.Moments.{LeavesOnly, RanOk, RanErr};
ghost use Rattle.sb_images.specs.Layout.{need, IsGeometry};
ghost use Rattle.sb_journal.specs.State.{Lies, StandsOn, IsForcedOn, Forced, after_force, after_fault};
ghost use Rattle.sb_pool.specs.Calls.{KeepsForced};
ghost use Rattle.sb_pool.specs.Frames.{IsFrame, held_of, dirty_from, puts};
ghost use Rattle.sb_pool.specs.State.{cleaned};

use crate::frame::Frame;
use sb_disk::{Disk, Failed};
use sb_images::place_of;
use sb_journal::Journal;
use sb_log::Geometry;

/// Forces what is pending.
pub(crate) fn force<D: Disk>(disk: &mut D, journal: &mut Journal) -> Result<(), Failed>
    requires lies { Lies (D.len disk.old) journal.old.gates journal.old.log }
    requires stands { StandsOn (D.told disk.old) journal.old }
    requires clean { journal.old.clean ≡ true }
    requires free { 0 < journal.old.pending → length journal.old.lens < journal.old.gates.len }

    ensures done { OnOk result (journal.new ≡ after_force journal.old) }
    ensures up { OnOk result (journal.old.failed ≡ false) }
    ensures forced { OnOk result (WhereTold (D.told disk.old) (D.told disk.new) (Forced journal.old journal.new)) }
    ensures err { OnErr result (journal.new ≡ after_fault journal.old) }
    ensures any_moment { LeavesOnly (D.told disk.old) (D.told disk.new) (IsForcedOn (D.told disk.old) journal.old) }
    ensures cause { OnErr result ((journal.old.failed ≡ true) ⊎ Rose (D.faults disk.old) (D.faults disk.new)) }
    ensures keeps { KeepsForced D.told D.len D.faults disk.old disk.new journal.old journal.new }
{
    match journal.force(disk) {
        Ok(()) => Ok(()),
        Err(_) => Err(Failed),
    }
}

/// Writes each dirty page, in their order, and syncs.
pub(crate) fn put_all_out<D: Disk>(
    frames: &[Frame],
    geometry: Geometry,
    disk: &mut D,
) -> Result<(), Failed>
    requires count { length frames.now ≡ geometry.pages }
    requires long { All IsFrame frames.now }
    requires sizes { IsGeometry geometry }
    requires room { need geometry.pages geometry.log ≤ D.len disk.old }

    ensures ran { OnOk result (
        RanOk (puts geometry (dirty_from 0 (map held_of frames.now))) (D.told disk.old) (D.told disk.new)) }
    ensures ran_err { OnErr result (
        RanErr (puts geometry (dirty_from 0 (map held_of frames.now))) (D.told disk.old) (D.told disk.new)) }
    ensures len { D.len disk.new ≡ D.len disk.old }
    ensures cause { HasCause (D.faults disk.old) (D.faults disk.new) result }
{
    for (page, frame) in frames.iter().enumerate() {
        frame.put_out(disk, place_of(geometry, page as u32))?;
    }
    disk.sync()
}

/// The pages are on the disk now.
pub(crate) fn mark_all_clean(frames: &mut [Frame])
    requires long { All IsFrame frames.old }
    ensures clean { map held_of frames.new ≡ map cleaned (map held_of frames.old) }
    ensures long { All IsFrame frames.new }
{
    for frame in frames.iter_mut() {
        frame.mark_clean();
    }
}
