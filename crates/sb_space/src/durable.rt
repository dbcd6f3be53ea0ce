//! A store, its disk and a transaction, borrowed for the calls of one driver.

ghost use Rattle.std.specs.Prelude.{◌≡◌, ◌<◌, ℕ, List, OnOk, IfOk, IfErr};
ghost use Rattle.sb_pool.specs.State.{IsHeld};
ghost use Rattle.sb_space.specs.Durable.{Calls, Leads, Lent, parts_in};
ghost use Rattle.sb_space.specs.View.{lent};
ghost use Rattle.sb_space.specs.Works.{MeansDown, Serves};

use crate::fault::fault_of;
use sb_disk::Disk;
use sb_drive::SpaceFault;
use sb_txn::{Store, Tx};

/// The pages of a store, for as long as the store, its disk and a transaction are lent.
#[derive(Drop)]
pub struct Durable<'a, D: Disk> {
    pub(crate) store: &'a mut Store,
    pub(crate) disk: &'a mut D,
    pub(crate) tx: &'a Tx,
}

impl<'a, D: Disk> Durable<'a, D> {
    /// What is lent. The transaction is to be the only active one.
    pub fn new(store: &'a mut Store, disk: &'a mut D, tx: &'a Tx) -> Durable<'a, D>
        ensures same_store { result.store.ghost_name ≡ store.entry.ghost_name }
        ensures same_disk { result.disk.ghost_name ≡ disk.entry.ghost_name }
        ensures store { result.store.now ≡ store.old }
        ensures disk { result.disk.now ≡ disk.old }
        ensures tx { result.tx.now ≡ tx.now }
    {
        Durable { store, disk, tx }
    }
}

impl<D: Disk> Durable<'_, D> {
    /// Brings a page into memory.
    pub(crate) fn load(&mut self, n: u32) -> Result<(), SpaceFault>
        requires ready { Serves (lent self.old).tx (parts_in D.told D.len (lent self.old)) }
        requires page { n < self.old.store.now.pool.geometry.pages }
        ensures held { OnOk result (IsHeld self.new.store.now.pool n) }
        ensures err { IfErr result MeansDown }
        ensures calls { Calls D.told D.len D.faults 0 (lent self.old) (lent self.new) result }
    {
        match self.store.load(self.disk, n) {
            Ok(()) => Ok(()),
            Err(fault) => Err(fault_of(fault)),
        }
    }
}
