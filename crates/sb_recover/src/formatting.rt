//! Making a store on a disk.

ghost use Rattle.std.specs.Prelude.{◌≡◌, ◌↔◌, ◌<◌, ◌≤◌, [], ◌∷◌, length, slice_index, OnOk, OnErr, IfOk, IfErr, IsErrOf};
ghost use Rattle.sb_disk.specs.Causes.{HasCause};
ghost use Rattle.sb_disk.specs.Disk.{WhereTold};
ghost use Rattle.sb_disk.specs.Moments.{LeavesOnly, IsSettled, RanOk, RanErr, Write, Sync};
ghost use Rattle.sb_images.specs.Layout.{geometry_of, need as need_of, IsGeometry};
ghost use Rattle.sb_recover.specs.Formatting.{IsFormatting, IsNew, FormatErr, KeepsStore, KeepsDisk};
ghost use Rattle.sb_recover.specs.Geometries.{HoldsNone};
ghost use Rattle.sb_recover.specs.Laying.{IsGate, ShutsGate};
ghost use Rattle.sb_recover.specs.SuperPage.{IsNoStore};

use crate::OpenFault;
use crate::laying::lay;
use crate::super_page::{OPEN, found_in};
use sb_bytes::PAGE_LEN;
use sb_disk::{Disk, Failed};
use sb_images::need;
use sb_log::Geometry;
use std::alloc::Global;

/// Makes a store of so many pages, with a log of so many bytes, on a disk that holds none.
///
/// The first byte of the disk is the gate of the store, which is shut until all else is on the disk. The log's region isn't written.
pub fn format<D: Disk>(
    alloc: Global,
    disk: &mut D,
    pages: u32,
    log: u64,
) -> Result<Geometry, OpenFault>
    requires { IsGeometry (geometry_of pages log) }

    ensures ok { IfOk result (λ g. g ≡ geometry_of pages log) }
    ensures made { OnOk result (IsNew (geometry_of pages log) (D.told disk.old) (D.told disk.new)) }

    // A crash anywhere in the call leaves no store, or a new one.
    ensures any_moment { IsSettled (D.told disk.old) → HoldsNone (D.told disk.old)
        → LeavesOnly (D.told disk.old) (D.told disk.new) (IsFormatting (geometry_of pages log)) }

    // A store that is there stays as it is, at a fault too.
    ensures keeps_store { KeepsStore (D.told disk.old) (D.told disk.new) }

    ensures small { IsErrOf result (OpenFault.TooSmall (D.len disk.old) (need_of pages log))
        ↔ (D.len disk.old < need_of pages log) }
    ensures refused { IfErr result (λ e.
        FormatErr D.told e (D.len disk.old) (geometry_of pages log) disk.old disk.new) }
    ensures keeps { KeepsDisk D.len D.faults disk.old disk.new result }
{
    let have = disk.len();
    let need = need(pages, log);
    if have < need {
        return Err(OpenFault::TooSmall { have, need });
    }
    let mut page = vec![in alloc; 0u8; PAGE_LEN]?;
    disk.read_at(0, &mut page)?;
    if found_in(&page, have).is_some() {
        return Err(OpenFault::AlreadyStore);
    }
    let geometry = Geometry {
        pages,
        log,
        version: 1,
    };
    make(disk, &mut page, geometry)?;
    Ok(geometry)
}

// Makes a store of these sizes, where there is none. The page holds the first bytes of the disk.
fn make<D: Disk>(disk: &mut D, page: &mut [u8], g: Geometry) -> Result<(), Failed>
    requires sizes { IsGeometry g }
    requires room { need_of g.pages g.log ≤ D.len disk.old }
    requires length { length page.old ≡ PAGE_LEN }
    requires gate { IsGate (D.told disk.old) (slice_index page.old 0) }
    requires none { HoldsNone (D.told disk.old) }
    ensures made { OnOk result (IsNew g (D.told disk.old) (D.told disk.new)) }
    ensures any_moment { IsSettled (D.told disk.old)
        → LeavesOnly (D.told disk.old) (D.told disk.new) (IsFormatting g) }
    ensures keeps_store { KeepsStore (D.told disk.old) (D.told disk.new) }
    ensures len { D.len disk.new ≡ D.len disk.old }
    ensures cause { HasCause (D.faults disk.old) (D.faults disk.new) result }
{
    shut(disk, page[0])?;
    lay(disk, page, g)?;
    set_gate(disk, OPEN)
}

// Shuts the gate of the super page where it is open.
fn shut<D: Disk>(disk: &mut D, gate: u8) -> Result<(), Failed>
    requires len { 1 ≤ D.len disk.old }
    requires gate { IsGate (D.told disk.old) gate }
    requires none { HoldsNone (D.told disk.old) }
    ensures shut { OnOk result (WhereTold (D.told disk.old) (D.told disk.new) ShutsGate) }
    ensures any_moment { IsSettled (D.told disk.old)
        → LeavesOnly (D.told disk.old) (D.told disk.new) IsNoStore }
    ensures len { D.len disk.new ≡ D.len disk.old }
    ensures cause { HasCause (D.faults disk.old) (D.faults disk.new) result }
{
    if gate == OPEN {
        return set_gate(disk, 0);
    }
    Ok(())
}

// Writes the gate of the super page, and syncs.
fn set_gate<D: Disk>(disk: &mut D, gate: u8) -> Result<(), Failed>
    requires { 1 ≤ D.len disk.old }
    ensures ran { OnOk result (RanOk (Write 0 (gate ∷ []) ∷ Sync ∷ []) (D.told disk.old) (D.told disk.new)) }
    ensures ran_err { OnErr result (RanErr (Write 0 (gate ∷ []) ∷ Sync ∷ []) (D.told disk.old) (D.told disk.new)) }
    ensures len { D.len disk.new ≡ D.len disk.old }
    ensures cause { HasCause (D.faults disk.old) (D.faults disk.new) result }
{
    disk.write_at(0, &[gate])?;
    disk.sync()
}
