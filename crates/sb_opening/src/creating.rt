//! Making a store, and opening a session over it.

ghost use Rattle.std.specs.Prelude.{◌≡◌, ◌↔◌, ◌<◌, ◌≤◌, [], None, false, IfErr, IfOk, OnOk, IsErrOf};
ghost use Rattle.sb_disk.specs.Causes.{Rose};
ghost use Rattle.sb_disk.specs.Moments.{IsSettled, LeavesOnly};
ghost use Rattle.sb_images.specs.Layout.{geometry_of, need as need_of, IsGeometry};
ghost use Rattle.sb_images.specs.Store.{IfTold};
ghost use Rattle.sb_recover.specs.FirstPages.{first_page};
ghost use Rattle.sb_recover.specs.Formatting.{IsFormatting, KeepsStore};
ghost use Rattle.sb_recover.specs.Geometries.{HoldsNone};
ghost use Rattle.sb_registry.specs.Boxes.{repeated_in};
ghost use Rattle.sb_session.specs.Sessions.{CanRun, IsFor};
ghost use Rattle.sb_space.specs.Table.{table_len};
ghost use Rattle.sb_opening.specs.Creating.{CreateErr};
ghost use Rattle.sb_opening.specs.Naming.{HasLive};
ghost use Rattle.sb_opening.specs.Opening.{opened};

use crate::opening::open;
use sb_disk::Disk;
use sb_recover::{OpenFault, format};
use sb_session::Session;
use sb_vectors::Vectors;
use std::alloc::Global;

/// Makes a store of so many pages, with a log of so many bytes, on a disk that holds none, and opens it for a session of commands with these
/// boxes.
///
/// It refuses, in this order: as `TooSmall`, a disk that is too short, as `AlreadyStore`, one that holds a store, whatever its sizes; and then a
/// call that the disk fails and want of memory, before the store is made or behind it. A store that was made stays, and `open` opens it.
pub fn create<B: Vectors + Drop, D: Disk>(
    boxes: B,
    alloc: Global,
    disk: &mut D,
    pages: u32,
    log: u64,
    frames: u32,
) -> Result<Session<B>, OpenFault>
    requires sizes { IsGeometry (geometry_of pages log) }
    requires frames { (8 ≤ frames) × (frames ≤ 65536) }
    requires unique { repeated_in (B.meanings boxes) ≡ None }

    // The new store keeps the empty database, whichever boxes there are: so does the session, between transactions.
    ensures stands { IfOk result (λ session. IfTold (D.told disk.old)
        (IsFor B.meanings D.told D.len (first_page pages) (opened (B.meanings session.boxes) []) disk.new session)) }
    ensures live { IfOk result (λ session. IfTold (D.told disk.old) (HasLive (B.meanings boxes) [] (B.meanings session.boxes))) }
    ensures sizes { IfOk result (λ session. IfTold (D.told disk.old) (session.space.store.pool.geometry ≡ geometry_of pages log)) }
    ensures runs { IfOk result (λ session. CanRun B.meanings D.told D.len disk.new session) }
    ensures place { IfOk result (λ session. session.place ≡ record { owner = 2; root = table_len session.space.store.pool.geometry.pages }) }
    ensures up { IfOk result (λ session. session.down ≡ false) }
    ensures before { OnOk result (HoldsNone (D.told disk.old)) }

    // A crash anywhere in the call leaves no store, or a new one.
    ensures any_moment { IsSettled (D.told disk.old) → HoldsNone (D.told disk.old)
        → LeavesOnly (D.told disk.old) (D.told disk.new) (IsFormatting (geometry_of pages log)) }

    // A store that is there stays as it is, at a fault too.
    ensures keeps_store { KeepsStore (D.told disk.old) (D.told disk.new) }

    ensures small { IsErrOf result (OpenFault.TooSmall (D.len disk.old) (need_of pages log)) ↔ (D.len disk.old < need_of pages log) }
    ensures refused { IfErr result (λ e. CreateErr D.told e (D.len disk.old) (geometry_of pages log) disk.old disk.new) }
    ensures fault { IsErrOf result OpenFault.Fault → Rose (D.faults disk.old) (D.faults disk.new) }
    ensures len { D.len disk.new ≡ D.len disk.old }
    ensures later { D.faults disk.old ≤ D.faults disk.new }
{
    format(alloc, disk, pages, log)?;
    open(boxes, alloc, disk, frames)
}
