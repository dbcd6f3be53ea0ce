//! How a transaction changes a range of a page.

ghost use Rattle.std.specs.Prelude.{◌≡◌, ◌+◌, ◌<◌, ◌≤◌, ℕ, Some, cond, false, length, IfErr, OnErr, OnOk};
ghost use Rattle.sb_pool.specs.State.{IsHeld, held};
ghost use Rattle.sb_txn.specs.Book.{ActiveTransaction, IsAmong, transaction_with, others, AreClear, change_len as len_of_change};
ghost use Rattle.sb_txn.specs.Changes.{AddsUndo, IsInStore, NoRoom, AddErr};
ghost use Rattle.sb_txn.specs.Clauses.{IsReady, IsFaultOrDown, StaysReady, LeavesWanted, Changes, ChangeErr, HasRoom};
ghost use Rattle.sb_txn.specs.Parts.{parts};

use crate::StoreFault;
use crate::book::Book;
use crate::changing::{Wants, log_change};
use crate::store::{Store, Tx};
use sb_disk::Disk;
use sb_images::GATES;
use sb_log::Rec;
use sb_pool::Pool;
use std::alloc::AllocError;

/// The bytes of the log that are kept for what ends a transaction.
const RESERVE: u64 = 1024;

/// A range of a page, as a transaction wants it.
#[derive(Clone, Copy)]
struct Edit<'a> {
    tx: u32,
    owner: u16,
    page: u32,
    offset: u16,
    bytes: &'a [u8],
}

impl Store {
    /// Changes a range of a page. First it takes the memory that undoing the change will need.
    ///
    /// `LogFull` and `GatesFull` come before anything has changed, with the numbers as they are then; where both would come it is `LogFull`. No standing change of another transaction may meet the range.
    pub fn change<D: Disk>(
        &mut self,
        disk: &mut D,
        tx: &Tx,
        owner: u16,
        page: u32,
        offset: u16,
        bytes: &[u8],
    ) -> Result<(), StoreFault>
        requires ready { IsReady (parts D.told D.len disk.old self.old) }
        requires among { self.old.book.down ≡ false → IsAmong tx.now.number self.old.book.actives }
        requires page { page < self.old.pool.geometry.pages }
        requires some { 0 < length bytes.now }
        requires range { offset + length bytes.now ≤ 4096 }
        requires apart { self.old.book.down ≡ false → AreClear page offset (length bytes.now) (others tx.now.number self.old.book.actives) }

        ensures changes { OnOk result ((o : ActiveTransaction) → transaction_with tx.now.number self.old.book.actives ≡ Some o
            → Changes (parts D.told D.len disk.old self.old) (parts D.told D.len disk.new self.new) o owner page offset bytes.now) }
        ensures room { OnOk result ((o : ActiveTransaction) → transaction_with tx.now.number self.old.book.actives ≡ Some o
            → HasRoom self.old o page (length bytes.now)) }
        ensures refused { IfErr result (λ e. (o : ActiveTransaction) → transaction_with tx.now.number self.old.book.actives ≡ Some o
            → ChangeErr (parts D.told D.len disk.old self.old) (parts D.told D.len disk.new self.new) o page (length bytes.now) e) }
        ensures any_moment { LeavesWanted (parts D.told D.len disk.old self.old) (parts D.told D.len disk.new self.new) }
        ensures keeps { StaysReady D.told D.len D.faults disk.old disk.new self.old self.new result }
    {
        self.load(disk, page)?;
        self.check_room(tx.number, page, bytes.len())?;
        let edit = Edit {
            tx: tx.number,
            owner,
            page,
            offset,
            bytes,
        };
        self.add_change(disk, &edit)
    }

    /// Refuses a change of so many bytes for which the log has no room.
    fn check_room(&self, tx: u32, page: u32, count: usize) -> Result<(), StoreFault>
        requires store { IsInStore self.now.journal self.now.pool self.now.book }
        requires among { IsAmong tx self.now.book.actives }
        requires page { page < length self.now.book.imaged }
        requires count { count ≤ 4096 }

        ensures ok { OnOk result ((o : ActiveTransaction) → transaction_with tx self.now.book.actives ≡ Some o → HasRoom self.now o page count) }
        ensures err { IfErr result (λ e. (o : ActiveTransaction) → transaction_with tx self.now.book.actives ≡ Some o
            → NoRoom self.now.journal self.now.book o page count e) }
    {
        let used = self.journal.used();
        let need = change_len(self.book.wants(tx, page), count)
            + 4
            + RESERVE * self.book.active_count() as u64;
        let total = self.pool.geometry().log;
        if used + need > total {
            return Err(StoreFault::LogFull { used, need, total });
        }
        let chunks = self.journal.chunks();
        if chunks as usize + self.book.active_count() >= GATES as usize {
            return Err(StoreFault::GatesFull {
                used: chunks,
                total: GATES,
            });
        }
        Ok(())
    }

    /// Changes a range of a page that is held, where there is room for it.
    fn add_change<D: Disk>(&mut self, disk: &mut D, edit: &Edit<'_>) -> Result<(), StoreFault>
        requires ready { IsReady (parts D.told D.len disk.old self.old) }
        requires up { self.old.book.down ≡ false }
        requires among { IsAmong edit.now.tx self.old.book.actives }
        requires room { (o : ActiveTransaction) → transaction_with edit.now.tx self.old.book.actives ≡ Some o
            → HasRoom self.old o edit.now.page (length edit.now.bytes.now) }
        requires held { IsHeld self.old.pool edit.now.page }
        requires page { edit.now.page < self.old.pool.geometry.pages }
        requires some { 0 < length edit.now.bytes.now }
        requires range { edit.now.offset + length edit.now.bytes.now ≤ 4096 }
        requires apart { AreClear edit.now.page edit.now.offset (length edit.now.bytes.now) (others edit.now.tx self.old.book.actives) }

        ensures changes { OnOk result ((o : ActiveTransaction) → transaction_with edit.now.tx self.old.book.actives ≡ Some o
            → Changes (parts D.told D.len disk.old self.old) (parts D.told D.len disk.new self.new)
            o edit.now.owner edit.now.page edit.now.offset edit.now.bytes.now) }
        ensures refused { IfErr result (AddErr (parts D.told D.len disk.old self.old) (parts D.told D.len disk.new self.new)) }
        ensures any_moment { LeavesWanted (parts D.told D.len disk.old self.old) (parts D.told D.len disk.new self.new) }
        ensures keeps { StaysReady D.told D.len D.faults disk.old disk.new self.old self.new result }
    {
        let wants = self.book.wants(edit.tx, edit.page);
        let n = self.book.standing_of(edit.tx) as u32;
        add_undo(
            &mut self.book,
            &self.pool,
            edit.tx,
            edit.page,
            edit.offset,
            edit.bytes.len(),
        )?;
        let image = self.pool.page(edit.page);
        let at = edit.offset as usize;
        let change = Rec::Change {
            tx: edit.tx,
            owner: edit.owner,
            page: edit.page,
            offset: edit.offset,
            before: &image[at..at + edit.bytes.len()],
            after: edit.bytes,
        };
        match log_change(
            disk,
            &mut self.journal,
            wants,
            edit.tx,
            n,
            edit.page,
            image,
            &change,
        ) {
            Ok(()) => self.write_range(disk, edit.page, edit.offset, edit.bytes),
            Err(_) => {
                self.book.fail();
                Err(StoreFault::Fault)
            }
        }
    }
}

/// The bytes of the records of a change of so many bytes.
fn change_len(wants: Wants, count: usize) -> u64
    requires { count ≤ 4096 }
    ensures { result ≡ len_of_change wants count }
{
    len_if(wants.begin, 5)
        + len_if(wants.back, 9)
        + len_if(wants.image, 4101)
        + 15
        + 2 * count as u64
}

/// So many bytes, where they are wanted.
fn len_if(wanted: bool, len: u64) -> u64
    ensures { result ≡ cond wanted len 0 }
{
    if wanted { len } else { 0 }
}

/// Takes into the book what a range of a page that is held can be given back.
fn add_undo(
    book: &mut Book,
    pool: &Pool,
    tx: u32,
    page: u32,
    offset: u16,
    count: usize,
) -> Result<(), AllocError>
    requires held { IsHeld pool.now page }
    requires range { offset + count ≤ 4096 }
    requires page { page < length book.old.imaged }
    requires among { IsAmong tx book.old.actives }

    ensures ok { OnOk result (AddsUndo tx (held pool.now page) book.old book.new page offset count) }
    ensures err { OnErr result (book.new ≡ book.old) }
{
    let undo = book.undo(page, offset, count, pool.page(page))?;
    book.add(tx, undo)
}
