//! What a store is opened with.

ghost use Rattle.std.specs.Prelude.{◌≡◌, ◌≤◌, [], Option, true, IfOk, IfErr, IsErrOf};
ghost use Rattle.sb_disk.specs.Causes.{Rose};
ghost use Rattle.sb_disk.specs.Disk.{Story};
ghost use Rattle.sb_disk.specs.Moments.{IsSettled};
ghost use Rattle.sb_images.specs.Layout.{need, gates_of, log_of, IsGeometry};
ghost use Rattle.sb_images.specs.Store.{AreShut};
ghost use Rattle.sb_journal.specs.Opening.{Opened, OnlyReads, opened};
ghost use Rattle.sb_journal.specs.State.{State, Sound, StandsOn};
ghost use Rattle.sb_pool.specs.State.{empty_pool};
ghost use Rattle.sb_pool.specs.Pages.{AgreesOn};
ghost use Rattle.sb_txn.specs.Opened.{NotOpened};

use sb_disk::Disk;
use sb_images::{gate_region, log_region};
use sb_journal::Journal;
use sb_log::Geometry;
use sb_pool::Pool;
use sb_recover::OpenFault;
use std::alloc::Global;

/// Opens the journal of a store that was restarted, so that no gate of it is open.
pub(crate) fn open_journal<D: Disk>(
    alloc: Global,
    disk: &mut D,
    g: &Geometry,
) -> Result<Journal, OpenFault>
    requires sizes { IsGeometry g.now }
    requires room { need g.now.pages g.now.log ≤ D.len disk.old }
    requires settled { IsSettled (D.told disk.old) }
    requires shut { AreShut (D.told disk.old) g.now }

    ensures empty { IfOk result (λ j. j ≡ opened (gates_of g.now) (log_of g.now) [] true) }
    ensures read { IfOk result (Opened (D.told disk.old) (gates_of g.now) (log_of g.now)) }
    ensures sound { IfOk result Sound }
    ensures stands { IfOk result (StandsOn (D.told disk.new)) }

    ensures refused { IfErr result (NotOpened (D.told disk.old)) }
    ensures fault { IsErrOf result OpenFault.Fault → Rose (D.faults disk.old) (D.faults disk.new) }
    ensures reads { OnlyReads D.told D.len D.faults disk.old disk.new }
{
    let journal = Journal::open(alloc, disk, gate_region(*g), log_region(*g))?;
    if journal.chunks() > 0 || !journal.clean() {
        return Err(OpenFault::BadLog {
            chunk: 0,
            offset: 0,
        });
    }
    Ok(journal)
}

/// A pool that holds no page.
pub(crate) fn new_pool(alloc: Global, frames: u32, g: Geometry) -> Result<Pool, OpenFault>
    requires { (8 ≤ frames) × (frames ≤ 65536) }
    ensures empty { IfOk result (λ pool. pool ≡ empty_pool g) }
    ensures agrees { IfOk result (λ pool. (told : Option Story) (j : State) → AgreesOn told j pool) }
    ensures err { IfErr result (λ e. e ≡ OpenFault.NoMemory) }
{
    match Pool::new(alloc, frames, g) {
        Ok(pool) => Ok(pool),
        Err(_) => Err(OpenFault::NoMemory),
    }
}
