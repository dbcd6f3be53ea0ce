//! Transactions over both halves.

ghost use Rattle.std.specs.Prelude.{◌≡◌, ◌+◌, ◌<◌, ◌≤◌, [], true, false, cond, ℕ, Some, length, take, OnOk, OnErr, IfOk, IfErr};
ghost use Rattle.sb_ctx.specs.View.{nothing};
ghost use Rattle.sb_disk.specs.Moments.{LeavesOnly};
ghost use Rattle.sb_drive.specs.Instances.{IsLeastFree, IsLeastOwner};
ghost use Rattle.sb_drive.specs.Slots.{Slots};
ghost use Rattle.sb_drive.specs.Spaces.{IsFull, IsStoreFault, Leaves, UnlessDown, Wanted};
ghost use Rattle.sb_drive.specs.declared.turns.Ask.TheVariants.{Fresh};
ghost use Rattle.sb_halves.specs.Both.{both, HasPagesIn, total_in, KeepsOther, KeepsSavepoints, WorksIn};
ghost use Rattle.sb_images.specs.Images.{IsOldOrNew};
ghost use Rattle.sb_journal.specs.State.{used_of};
ghost use Rattle.sb_txn.specs.Book.{ActiveTransaction, transaction_with, standing_of};
ghost use Rattle.sb_txn.specs.Clauses.{AsksNothing, Begins, Grows, CommitAsksNothing, IsReady, LeavesWanted};
ghost use Rattle.sb_txn.specs.Parts.{parts};
ghost use Rattle.sb_memory.specs.Contents.{stack};
ghost use Rattle.sb_owners.specs.Instances.{HasCome, HasNone, without_owner};
ghost use Rattle.sb_space.specs.Instances.{IsNewInstance};
ghost use Rattle.sb_space.specs.Table.{slots_in, table_len};
ghost use Rattle.sb_space.specs.Transactions.{AreFormed, KeepsSpace, WasAt};
ghost use Rattle.sb_space.specs.Works.{HasPages, MeansDown, Serves};

use sb_disk::Disk;
use sb_drive::SpaceFault;
use sb_memory::{Memory, MemoryMark};
use sb_owners::Owners;
use sb_space::{Durable, Space};
use std::alloc::Global;

/// An active transaction, the only one of its halves. It is spent by `commit` or `abort`.
#[derive(Drop)]
pub struct Tx {
    pub durable: sb_space::Tx,
}

/// A savepoint: how many changes of the transaction stood in each half.
#[derive(Clone, Copy, Debug, PartialEq, Eq)]
pub struct Mark {
    durable: sb_space::Mark,
    volatile: MemoryMark,
}

/// The pages of a store, and pages in memory that a crash takes. Calls of boxes are driven over `Durable::new(&mut halves.durable.store, disk, &tx.durable.store)`
/// and over `halves.volatile`.
#[derive(Drop)]
pub struct Halves {
    pub durable: Space,
    pub volatile: Memory,
}

impl Halves {
    /// The owner of a half's catalogue, and its root.
    pub fn catalogue(&self, durable: bool) -> (u16, u32)
        ensures { result ≡ cond durable (2, table_len self.now.durable.store.pool.geometry.pages) (2, 0) }
    {
        if durable {
            sb_space::catalogue(&self.durable.store)
        } else {
            sb_memory::catalogue()
        }
    }

    /// Begins a transaction, as a space does. The volatile pages stay, and no write of them is left that could be taken back.
    pub fn begin<D: Disk>(&mut self, disk: &mut D) -> Result<Tx, SpaceFault>
        requires ready { IsReady (parts D.told D.len disk.old self.old.durable.store) }
        requires none { self.old.durable.store.book.down ≡ false → self.old.durable.store.book.actives ≡ [] }
        requires few { self.old.durable.store.pool.geometry.pages ≤ 65536 }

        ensures begun { IfOk result (λ tx. Serves tx.durable.store.number (parts D.told D.len disk.new self.new.durable.store)
            × (standing_of tx.durable.store.number self.new.durable.store.book.actives ≡ 0)) }
        ensures begins { IfOk result (λ tx. Begins (parts D.told D.len disk.old self.old.durable.store) (parts D.told D.len disk.new self.new.durable.store)
            tx.durable.store.number) }
        ensures pages { UnlessDown result ((want : Wanted) (s : Slots) → HasPages want s (parts D.told D.len disk.old self.old.durable.store)
            → HasPages want s (parts D.told D.len disk.new self.new.durable.store)) }
        ensures quiet { AsksNothing disk.old disk.new self.old.durable.store }
        ensures any_moment { LeavesWanted (parts D.told D.len disk.old self.old.durable.store) (parts D.told D.len disk.new self.new.durable.store) }
        ensures err { IfErr result MeansDown }
        ensures keeps { KeepsSpace D.told D.len D.faults disk.old disk.new self.old.durable.store self.new.durable.store result }

        ensures volatile { self.new.volatile.now ≡ self.old.volatile.now }
        ensures past { OnOk result (self.new.volatile.past ≡ []) }
        ensures same { OnErr result (self.new.volatile ≡ self.old.volatile) }
    {
        match self.durable.begin(disk) {
            Ok(durable) => {
                self.volatile.keep();
                Ok(Tx { durable })
            }
            Err(fault) => Err(fault),
        }
    }

    /// How many changes of the transaction stand now in each half.
    pub fn mark(&self, tx: &Tx) -> Mark
        ensures durable { result.durable.store.changes ≡ standing_of tx.now.durable.store.number self.now.durable.store.book.actives }
        ensures volatile { result.volatile.writes ≡ length self.now.volatile.past }
    {
        Mark {
            durable: self.durable.mark(&tx.durable),
            volatile: self.volatile.mark(),
        }
    }

    /// Takes back the changes of the transaction that were made behind the savepoint, in both halves. The savepoint must not have been passed on the way back before.
    pub fn back_to<D: Disk>(&mut self, disk: &mut D, tx: &Tx, mark: Mark) -> Result<(), SpaceFault>
        requires ready { Serves tx.now.durable.store.number (parts D.told D.len disk.old self.old.durable.store) }
        requires mark { self.old.durable.store.book.down ≡ false
            → mark.durable.store.changes ≤ standing_of tx.now.durable.store.number self.old.durable.store.book.actives }
        requires volatile { mark.volatile.writes ≤ length self.old.volatile.past }

        ensures back { OnOk result ((want : Wanted) (s : Slots)
            → WasAt tx.now.durable.store.number want s mark.durable.store.changes (parts D.told D.len disk.old self.old.durable.store)
            → HasPages want s (parts D.told D.len disk.new self.new.durable.store)) }
        ensures earlier { OnOk result ((want : Wanted) (s : Slots) (n : ℕ) → n ≤ mark.durable.store.changes
            → WasAt tx.now.durable.store.number want s n (parts D.told D.len disk.old self.old.durable.store)
            → WasAt tx.now.durable.store.number want s n (parts D.told D.len disk.new self.new.durable.store)) }
        ensures standing { OnOk result (standing_of tx.now.durable.store.number self.new.durable.store.book.actives ≡ mark.durable.store.changes) }
        ensures serves { Serves tx.now.durable.store.number (parts D.told D.len disk.new self.new.durable.store) }
        ensures grows { OnOk result (Grows self.old.durable.store self.new.durable.store 0 0) }
        ensures any_moment { LeavesWanted (parts D.told D.len disk.old self.old.durable.store) (parts D.told D.len disk.new self.new.durable.store) }
        ensures err { IfErr result MeansDown }
        ensures keeps { KeepsSpace D.told D.len D.faults disk.old disk.new self.old.durable.store self.new.durable.store result }

        ensures volatile { OnOk result (stack self.new.volatile ≡ take (mark.volatile.writes + 1) (stack self.old.volatile)) }
        ensures same { OnErr result (self.new.volatile ≡ self.old.volatile) }
    {
        match self.durable.back_to(disk, &tx.durable, mark.durable) {
            Ok(()) => {
                self.volatile.back_to(mark.volatile);
                Ok(())
            }
            Err(fault) => Err(fault),
        }
    }

    /// Undoes all changes of the transaction: in memory, all writes that stand.
    pub fn abort<D: Disk>(&mut self, disk: &mut D, tx: Tx) -> Result<(), SpaceFault>
        requires ready { Serves tx.durable.store.number (parts D.told D.len disk.old self.old.durable.store) }

        ensures pages { OnOk result ((want : Wanted) (s : Slots) → WasAt tx.durable.store.number want s 0 (parts D.told D.len disk.old self.old.durable.store)
            → HasPages want s (parts D.told D.len disk.new self.new.durable.store)) }

        // They are the pages wanted, which a crash would have left.
        ensures alone { OnOk result ((want : Wanted) (s : Slots) → HasPages want s (parts D.told D.len disk.old self.old.durable.store)
            → AreFormed self.old.durable.store.pool.geometry.pages want
            → HasPages want (slots_in self.old.durable.store.pool.geometry.pages want) (parts D.told D.len disk.new self.new.durable.store)) }

        ensures none { OnOk result (self.new.durable.store.book.actives ≡ []) }
        ensures grows { OnOk result (Grows self.old.durable.store self.new.durable.store 0 0) }
        ensures any_moment { LeavesWanted (parts D.told D.len disk.old self.old.durable.store) (parts D.told D.len disk.new self.new.durable.store) }
        ensures err { IfErr result MeansDown }
        ensures keeps { KeepsSpace D.told D.len D.faults disk.old disk.new self.old.durable.store self.new.durable.store result }

        ensures volatile { OnOk result (stack self.new.volatile ≡ take 1 (stack self.old.volatile)) }
        ensures same { OnErr result (self.new.volatile ≡ self.old.volatile) }
    {
        let Tx { durable } = tx;
        match self.durable.abort(disk, durable) {
            Ok(()) => {
                self.volatile.back_to(MemoryMark { writes: 0 });
                Ok(())
            }
            Err(fault) => Err(fault),
        }
    }

    /// Commits the transaction: when it answers Ok, the durable pages now are there after any crash, and the volatile ones while the run lasts.
    pub fn commit<D: Disk>(&mut self, disk: &mut D, tx: Tx) -> Result<(), SpaceFault>
        requires ready { Serves tx.durable.store.number (parts D.told D.len disk.old self.old.durable.store) }

        ensures commits { OnOk result ((want : Wanted) (s : Slots) (has : HasPages want s (parts D.told D.len disk.old self.old.durable.store))
            → HasPages has.now s (parts D.told D.len disk.new self.new.durable.store)) }
        ensures any_moment { (want : Wanted) (s : Slots) (has : HasPages want s (parts D.told D.len disk.old self.old.durable.store))
            → LeavesOnly (D.told disk.old) (D.told disk.new) (IsOldOrNew self.old.durable.store.pool.geometry want has.now) }
        ensures none { OnOk result (self.new.durable.store.book.actives ≡ []) }
        ensures idle { (o : ActiveTransaction) → transaction_with tx.durable.store.number self.old.durable.store.book.actives ≡ Some o
            → CommitAsksNothing o disk.old disk.new self.old.durable.store self.new.durable.store }
        ensures grows { OnOk result (Grows self.old.durable.store self.new.durable.store 1024 1) }
        ensures err { IfErr result MeansDown }
        ensures keeps { KeepsSpace D.told D.len D.faults disk.old disk.new self.old.durable.store self.new.durable.store result }

        ensures volatile { self.new.volatile.now ≡ self.old.volatile.now }
        ensures past { OnOk result (self.new.volatile.past ≡ []) }
        ensures same { OnErr result (self.new.volatile ≡ self.old.volatile) }
    {
        let Tx { durable } = tx;
        match self.durable.commit(disk, durable) {
            Ok(()) => {
                self.volatile.keep();
                Ok(())
            }
            Err(fault) => Err(fault),
        }
    }

    /// Writes the changed pages of the store to the disk and empties the log. The volatile half stays.
    pub fn checkpoint<D: Disk>(&mut self, disk: &mut D) -> Result<(), SpaceFault>
        requires ready { IsReady (parts D.told D.len disk.old self.old.durable.store) }
        requires none { self.old.durable.store.book.down ≡ false → self.old.durable.store.book.actives ≡ [] }

        ensures pages { UnlessDown result ((want : Wanted) (s : Slots) → HasPages want s (parts D.told D.len disk.old self.old.durable.store)
            → HasPages want s (parts D.told D.len disk.new self.new.durable.store)) }
        ensures empties { OnOk result (used_of self.new.durable.store.journal ≡ 0) }
        ensures none { OnOk result (self.new.durable.store.book.actives ≡ []) }
        ensures any_moment { LeavesWanted (parts D.told D.len disk.old self.old.durable.store) (parts D.told D.len disk.new self.new.durable.store) }
        ensures err { IfErr result MeansDown }
        ensures keeps { KeepsSpace D.told D.len D.faults disk.old disk.new self.old.durable.store self.new.durable.store result }

        ensures volatile { self.new.volatile ≡ self.old.volatile }
    {
        self.durable.checkpoint(disk)
    }

    /// Makes an instance in a half: the least owner that none of its pages has, and its root, a page of zeros, the least one that is nobody's. Each half has numbers of its own for owners and pages.
    pub fn new_instance<D: Disk>(
        &mut self,
        alloc: Global,
        disk: &mut D,
        tx: &Tx,
        durable: bool,
    ) -> Result<(u16, u32), SpaceFault>
        requires ready { Serves tx.now.durable.store.number (parts D.told D.len disk.old self.old.durable.store) }

        ensures made { IfOk result (λ made. (want : Wanted) (s : Slots) → HasPagesIn D.told D.len durable want s (both disk.old self.old)
            → HasCome (HasPagesIn D.told D.len durable) want s made.0 made.1 (both disk.new self.new)) }
        ensures owner { IfOk result (λ made. (want : Wanted) (s : Slots) → HasPagesIn D.told D.len durable want s (both disk.old self.old)
            → IsLeastOwner s [] made.0) }
        ensures root { IfOk result (λ made. (want : Wanted) (s : Slots) → HasPagesIn D.told D.len durable want s (both disk.old self.old)
            → IsLeastFree s made.1) }
        ensures high { IfOk result (λ made. 2 < made.0) }
        ensures below { durable ≡ true → IfOk result (λ made. made.1 < self.old.durable.store.pool.geometry.pages) }
        ensures least { durable ≡ true → IfOk result (λ made. (want : Wanted) (s : Slots)
            → HasPages want s (parts D.told D.len disk.old self.old.durable.store)
            → IsNewInstance want s self.old.durable.store.pool.geometry.pages made.0 made.1 (parts D.told D.len disk.new self.new.durable.store)) }
        ensures same { UnlessDown result ((want : Wanted) (s : Slots) → HasPagesIn D.told D.len durable want s (both disk.old self.old)
            → OnErr result (HasPagesIn D.told D.len durable want s (both disk.new self.new))) }
        ensures full { IfErr result (λ e. (want : Wanted) (s : Slots) → HasPagesIn D.told D.len durable want s (both disk.old self.old)
            → IsFull durable (total_in durable (both disk.old self.old)) s nothing Fresh e) }

        ensures serves { Serves tx.now.durable.store.number (parts D.told D.len disk.new self.new.durable.store) }
        ensures works { WorksIn D.told D.len D.faults tx.now.durable.store.number durable 2 (both disk.old self.old) (both disk.new self.new) result }
        ensures any_moment { LeavesWanted (parts D.told D.len disk.old self.old.durable.store) (parts D.told D.len disk.new self.new.durable.store) }
        ensures savepoints { KeepsSavepoints D.told D.len tx.now.durable.store.number (both disk.old self.old) (both disk.new self.new) }
        ensures other { KeepsOther durable (both disk.old self.old) (both disk.new self.new) }
    {
        if durable {
            let mut pages = Durable::new(&mut self.durable.store, disk, &tx.durable.store);
            pages.new_instance(alloc)
        } else {
            Owners::new_instance(&mut self.volatile, alloc)
        }
    }

    /// Makes every page of the owner in a half nobody's. Refused over the durable half, it may have freed some: going back gives them back.
    pub fn free_owner<D: Disk>(
        &mut self,
        alloc: Global,
        disk: &mut D,
        tx: &Tx,
        owner: u16,
        durable: bool,
    ) -> Result<(), SpaceFault>
        requires ready { Serves tx.now.durable.store.number (parts D.told D.len disk.old self.old.durable.store) }
        requires owner { 1 < owner }

        ensures pages { UnlessDown result ((want : Wanted) (s : Slots) → HasPagesIn D.told D.len durable want s (both disk.old self.old)
            → Leaves (HasPagesIn D.told D.len durable) owner want s (both disk.new self.new) (λ after. OnOk result (HasNone after))) }
        ensures freed { durable ≡ true → OnOk result ((want : Wanted) (s : Slots)
            → HasPages want s (parts D.told D.len disk.old self.old.durable.store)
            → HasPages want (without_owner owner s) (parts D.told D.len disk.new self.new.durable.store)) }
        ensures err { IfErr result IsStoreFault }

        ensures serves { Serves tx.now.durable.store.number (parts D.told D.len disk.new self.new.durable.store) }
        ensures works { WorksIn D.told D.len D.faults tx.now.durable.store.number durable (table_len self.old.durable.store.pool.geometry.pages)
            (both disk.old self.old) (both disk.new self.new) result }
        ensures any_moment { LeavesWanted (parts D.told D.len disk.old self.old.durable.store) (parts D.told D.len disk.new self.new.durable.store) }
        ensures savepoints { KeepsSavepoints D.told D.len tx.now.durable.store.number (both disk.old self.old) (both disk.new self.new) }
        ensures other { KeepsOther durable (both disk.old self.old) (both disk.new self.new) }
    {
        if durable {
            let mut pages = Durable::new(&mut self.durable.store, disk, &tx.durable.store);
            pages.free_owner(owner)
        } else {
            Owners::free_owner(&mut self.volatile, alloc, owner)
        }
    }
}
