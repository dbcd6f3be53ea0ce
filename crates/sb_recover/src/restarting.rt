//! Restart of a store.

ghost use Rattle.std.specs.Prelude.{◌≡◌, ◌≤◌, ℕ, List, IfOk, IfErr, IsErrOf};
ghost use Rattle.sb_disk.specs.Causes.{Rose};
ghost use Rattle.sb_disk.specs.Disk.{WhereTold};
ghost use Rattle.sb_disk.specs.Moments.{LeavesOnly};
ghost use Rattle.sb_log.specs.declared.geometry.Geometry.{Geometry as Sizes};
ghost use Rattle.sb_images.specs.Images.{Restores};
ghost use Rattle.sb_images.specs.Layout.{need, IsGeometry};
ghost use Rattle.sb_images.specs.Store.{IsMounted};
ghost use Rattle.sb_recover.specs.Restarted.{IsRestarted, RestartErr};

use crate::OpenFault;
use crate::log::read_log;
use crate::restored::restore;
use crate::store::read_store;
use crate::writing::write_pages;
use sb_disk::Disk;
use sb_log::Geometry;
use std::alloc::Global;

/// Makes the pages of a store what its log restores, closes its gates, and answers its sizes.
///
/// It syncs first. `NotStore` comes exactly where the disk holds no store of any sizes. `BadLog` comes exactly where some open chunk ends outside the region, with offset 0, or holds anything but whole records; the chunk is the first of these. A record of a page that isn't in the store has no effect.
pub fn restart<D: Disk>(alloc: Global, disk: &mut D) -> Result<Geometry, OpenFault>
    ensures ok { IfOk result (λ g. WhereTold (D.told disk.old) (D.told disk.new) (IsRestarted g)) }
    ensures sizes { IfOk result (λ g. IsGeometry g) }
    ensures room { IfOk result (λ g. need g.pages g.log ≤ D.len disk.new) }

    // A crash anywhere in the call leaves pages that are restored as before.
    ensures any_moment { (want : ℕ → List ℕ) (g : Sizes) → IsMounted want (D.told disk.old) g
        → LeavesOnly (D.told disk.old) (D.told disk.new) (Restores g want) }

    ensures refused { IfErr result (λ e. RestartErr e (D.told disk.old) (D.told disk.new)) }
    ensures fault { IsErrOf result OpenFault.Fault → Rose (D.faults disk.old) (D.faults disk.new) }
    ensures len { D.len disk.new ≡ D.len disk.old }
    ensures later { D.faults disk.old ≤ D.faults disk.new }
{
    disk.sync()?;
    let g = read_store(disk)?;
    let (mut journal, chunks) = read_log(alloc, disk, &g)?;
    let frames = restore(alloc, disk, &g, &chunks)?;
    write_pages(disk, &g, &frames)?;
    journal.close_all(disk)?;
    Ok(g)
}
