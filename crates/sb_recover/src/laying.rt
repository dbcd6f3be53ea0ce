//! The writes that make a store, but for its gate.

ghost use Rattle.std.specs.Prelude.{◌≡◌, ◌+◌, ◌*◌, ◌≤◌, length, OnOk};
ghost use Rattle.sb_disk.specs.Causes.{HasCause};
ghost use Rattle.sb_disk.specs.Disk.{WhereTold};
ghost use Rattle.sb_disk.specs.Moments.{LeavesOnly, LeavesTorn};
ghost use Rattle.sb_images.specs.Layout.{need as need_of, IsGeometry};
ghost use Rattle.sb_recover.specs.FirstPages.{free_page, first_page};
ghost use Rattle.sb_recover.specs.Laying.{AreLaid, IsLaid, behind_gate};

use crate::first_pages::{fill_first, fill_free, fill_super};
use sb_bytes::PAGE_LEN;
use sb_disk::{Disk, Failed};
use sb_images::{GATES, GATES_START, LOG_START};
use sb_log::Geometry;

/// The pages that the gates take.
const GATE_PAGES: u64 = GATES as u64 / PAGE_LEN as u64;

/// Writes all of a new store but its gate and its log, and syncs.
pub(crate) fn lay<D: Disk>(disk: &mut D, page: &mut [u8], g: Geometry) -> Result<(), Failed>
    requires sizes { IsGeometry g }
    requires room { need_of g.pages g.log ≤ D.len disk.old }
    requires length { length page.old ≡ PAGE_LEN }

    ensures laid { OnOk result (WhereTold (D.told disk.old) (D.told disk.new) (IsLaid g)) }

    // A crash anywhere in the call leaves the gate as it was.
    ensures any_moment { LeavesOnly (D.told disk.old) (D.told disk.new)
        (LeavesTorn 1 (behind_gate g) (D.told disk.old)) }

    ensures len { D.len disk.new ≡ D.len disk.old }
    ensures cause { HasCause (D.faults disk.old) (D.faults disk.new) result }
{
    fill_super(page, g.pages, g.log);
    disk.write_at(1, &page[1..])?;
    fill_free(page);
    lay_gates(disk, page)?;
    lay_pages(disk, page, g)?;
    disk.sync()
}

// Shuts all gates of chunks.
fn lay_gates<D: Disk>(disk: &mut D, zeros: &[u8]) -> Result<(), Failed>
    requires room { GATES_START + PAGE_LEN * GATE_PAGES ≤ D.len disk.old }
    requires zeros { zeros.now ≡ free_page }
    ensures laid { OnOk result (WhereTold (D.told disk.old) (D.told disk.new) (AreLaid GATES_START GATE_PAGES (λ k. free_page))) }
    ensures any_moment { LeavesOnly (D.told disk.old) (D.told disk.new) (LeavesTorn GATES_START (PAGE_LEN * GATE_PAGES) (D.told disk.old)) }
    ensures len { D.len disk.new ≡ D.len disk.old }
    ensures cause { HasCause (D.faults disk.old) (D.faults disk.new) result }
{
    for k in 0..GATE_PAGES {
        disk.write_at(GATES_START + PAGE_LEN as u64 * k, zeros)?;
    }
    Ok(())
}

// Writes the pages of data.
fn lay_pages<D: Disk>(disk: &mut D, page: &mut [u8], g: Geometry) -> Result<(), Failed>
    requires sizes { IsGeometry g }
    requires room { need_of g.pages g.log ≤ D.len disk.old }
    requires length { length page.old ≡ PAGE_LEN }
    ensures laid { OnOk result (WhereTold (D.told disk.old) (D.told disk.new) (AreLaid (LOG_START + g.log) g.pages (first_page g.pages))) }
    ensures any_moment { LeavesOnly (D.told disk.old) (D.told disk.new) (LeavesTorn (LOG_START + g.log) (PAGE_LEN * g.pages) (D.told disk.old)) }
    ensures len { D.len disk.new ≡ D.len disk.old }
    ensures cause { HasCause (D.faults disk.old) (D.faults disk.new) result }
{
    let first = LOG_START + g.log;
    for p in 0..g.pages {
        fill_first(page, g.pages, p);
        disk.write_at(first + PAGE_LEN as u64 * p as u64, page)?;
    }
    Ok(())
}
