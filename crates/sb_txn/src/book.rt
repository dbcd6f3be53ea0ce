//! What a store has in memory of its log.

ghost use Rattle.std.specs.Prelude.{◌≡◌, ◌==◌, ◌+◌, ◌-◌, ◌^◌, ◌<◌, ◌≤◌, ◌∷◌, ◌++◌, [], suc, true, false, Some, length, map, take, drop, position, IfOk, OnOk, OnErr};
ghost use Rattle.sb_txn.specs.Book.{ActiveTransaction as Actives, MayBegin, transaction_with, IsAmong, others, standing_of as count_of, empty_book, new_transaction, begun_book, emptied_book, changed_transaction, with_change, wants_of, with_actives, Pops};
ghost use Rattle.sb_txn.specs.View.{undo_of, transaction_of};

use crate::changing::Wants;
use std::alloc::{AllocError, Global};
use std::marker::Model;

/// The most transactions that may be active at once.
const MOST_ACTIVE: usize = 8;

/// The number of the first transaction behind a checkpoint.
const FIRST_NUMBER: u32 = 1;

/// An undo: the place of a change, and the bytes before it.
#[derive(Drop)]
pub(crate) struct Undo {
    pub page: u32,
    pub offset: u16,
    pub before: Vec<u8>,
}

/// An active transaction: it has begun and not ended.
#[derive(Drop)]
pub(crate) struct ActiveTransaction {
    tx: u32,
    /// Its changes that stand, the first of them first.
    undos: Vec<Undo>,
    /// Whether the log has a record of it.
    begun: bool,
    /// Whether something was undone since its last record.
    undone: bool,
}

impl ActiveTransaction {
    /// A transaction that has changed nothing.
    fn new(alloc: Global, tx: u32) -> ActiveTransaction
        ensures { transaction_of result ≡ new_transaction tx }
    {
        ActiveTransaction {
            tx,
            undos: Vec::new(alloc),
            begun: false,
            undone: false,
        }
    }

    /// A change more, which is in the log.
    fn add(&mut self, undo: Undo) -> Result<(), AllocError>
        ensures ok { OnOk result (transaction_of self.new ≡ changed_transaction (transaction_of self.old) (undo_of undo)) }
        ensures err { OnErr result (transaction_of self.new ≡ transaction_of self.old) }
    {
        self.undos.push(undo)?;
        self.begun = true;
        self.undone = false;
        Ok(())
    }

    /// The last change, which is undone.
    fn pop(&mut self) -> Undo
        requires { 0 < length self.old.undos.items }
        ensures undos { self.old.undos.items ≡ self.new.undos.items ++ result ∷ [] }
        ensures undone { self.new.undone ≡ true }
        ensures begun { self.new.begun ≡ self.old.begun }
        ensures tx { self.new.tx ≡ self.old.tx }
    {
        self.undone = true;
        self.undos.pop().unwrap()
    }
}

/// The number of the next transaction, the pages that have an Image in the log, and the active transactions.
#[derive(Drop)]
pub(crate) struct Book {
    next: u32,
    imaged: Vec<bool>,
    actives: Vec<ActiveTransaction>,
    down: bool,
}

impl Model for Book {
    ghost use Rattle.std.specs.Prelude.{◌≤◌, length, vec_capacity};
    ghost use Rattle.sb_txn.specs.Book.{Book as Books};

    ghost Value = { Books };

    ghost use Rattle.sb_txn.specs.View.{book_of};

    ghost view = { book_of };

    ghost invariant = { λ b. 8 ≤ vec_capacity b.actives };
}

impl Book {
    /// The book of a store whose log is empty.
    pub fn new(alloc: Global, pages: u32) -> Result<Book, AllocError>
        ensures { IfOk result (λ book. book ≡ empty_book pages) }
    {
        let imaged = vec![in alloc; false; pages as usize]?;
        let actives = Vec::with_capacity(alloc, MOST_ACTIVE)?;
        Ok(Book {
            next: FIRST_NUMBER,
            imaged,
            actives,
            down: false,
        })
    }

    /// Whether a call has failed.
    pub fn is_down(&self) -> bool
        ensures { result ≡ self.now.down }
    {
        self.down
    }

    /// A call has failed.
    pub fn fail(&mut self)
        ensures { self.new ≡ record self.old { down = true } }
    {
        self.down = true;
    }

    /// The number of the next transaction.
    pub fn next(&self) -> u32
        ensures { result ≡ self.now.next }
    {
        self.next
    }

    /// How many transactions are active.
    pub fn active_count(&self) -> usize
        ensures { result ≡ length self.now.actives }
    {
        self.actives.len()
    }

    /// Whether a transaction more may begin.
    pub fn may_begin(&self) -> bool
        ensures yes { result ≡ true → MayBegin self.now }
        ensures no { result ≡ false → MayBegin self.now → ⊥ }
    {
        self.actives.len() < MOST_ACTIVE && (self.actives.is_empty() || self.next < u32::MAX)
    }

    /// The log is empty now: no page has an Image, and the numbers begin anew.
    pub fn empty(&mut self)
        ensures { self.new ≡ emptied_book self.old }
    {
        self.next = FIRST_NUMBER;
        self.imaged.fill(false);
    }

    /// A transaction more, which has changed nothing, and its number.
    pub fn begin(&mut self) -> u32
        requires room { length self.old.actives < 8 }
        requires number { self.old.next < 2 ^ 32 - 1 }
        ensures number { result ≡ self.old.next }
        ensures actives { self.new ≡ begun_book self.old }
    {
        let tx = self.next;
        let alloc = *self.imaged.allocator();
        self.next += 1;
        self.actives
            .push(ActiveTransaction::new(alloc, tx))
            .unwrap();
        tx
    }

    /// How many changes of a transaction stand: none of one that isn't active.
    pub fn standing_of(&self, tx: u32) -> usize
        ensures { result ≡ count_of tx self.now.actives }
    {
        match place_of(&self.actives, tx) {
            Some(at) => self.actives[at].undos.len(),
            None => 0,
        }
    }

    /// The place of a transaction among the active ones.
    fn place(&self, tx: u32) -> usize
        requires { IsAmong tx self.now.actives }
        ensures { position (λ o. o.tx == tx) self.now.actives ≡ Some result }
    {
        place_of(&self.actives, tx).unwrap()
    }

    /// The transaction of this number.
    fn active(&self, tx: u32) -> &ActiveTransaction
        requires { IsAmong tx self.now.actives }
        ensures { transaction_with tx self.now.actives ≡ Some (transaction_of result.now) }
    {
        &self.actives[self.place(tx)]
    }

    /// Whether the log has a record of the transaction.
    pub fn is_begun(&self, tx: u32) -> bool
        requires { IsAmong tx self.now.actives }
        ensures { (o : Actives) → transaction_with tx self.now.actives ≡ Some o → result ≡ o.begun }
    {
        self.active(tx).begun
    }

    /// Whether changes of the transaction were undone since its last record.
    pub fn is_undone(&self, tx: u32) -> bool
        requires { IsAmong tx self.now.actives }
        ensures { (o : Actives) → transaction_with tx self.now.actives ≡ Some o → result ≡ o.undone }
    {
        self.active(tx).undone
    }

    /// The records that are wanted before a change of the page by the transaction.
    pub fn wants(&self, tx: u32, page: u32) -> Wants
        requires page { page < length self.now.imaged }
        requires among { IsAmong tx self.now.actives }
        ensures { (o : Actives) → transaction_with tx self.now.actives ≡ Some o → result ≡ wants_of self.now o page }
    {
        let transaction = self.active(tx);
        Wants {
            begin: !transaction.begun,
            back: transaction.undone,
            image: !self.imaged[page as usize],
        }
    }

    /// What undoes a change of so many bytes of this page from a place on.
    pub fn undo(
        &self,
        page: u32,
        offset: u16,
        count: usize,
        image: &[u8],
    ) -> Result<Undo, AllocError>
        requires { offset + count ≤ length image.now }
        ensures { IfOk result (λ u. undo_of u ≡ record { page = page; offset = offset; before = take count (drop offset image.now) }) }
    {
        let at = offset as usize;
        let before = image[at..at + count].to_vec(*self.imaged.allocator())?;
        Ok(Undo {
            page,
            offset,
            before,
        })
    }

    /// A change more of the transaction, of a page that has an Image now.
    pub fn add(&mut self, tx: u32, undo: Undo) -> Result<(), AllocError>
        requires page { undo.page < length self.old.imaged }
        requires among { IsAmong tx self.old.actives }
        ensures ok { OnOk result ((o : Actives) → transaction_with tx self.old.actives ≡ Some o → self.new ≡ with_change self.old o (undo_of undo)) }
        ensures err { OnErr result (self.new ≡ self.old) }
    {
        let page = undo.page as usize;
        let at = self.place(tx);
        self.actives[at].add(undo)?;
        self.imaged[page] = true;
        Ok(())
    }

    /// The last change of the transaction, which is undone.
    pub fn pop(&mut self, tx: u32) -> Undo
        requires { 0 < count_of tx self.old.actives }
        ensures { (o : Actives) → transaction_with tx self.old.actives ≡ Some o → Pops o self.old self.new (undo_of result) }
    {
        let at = self.place(tx);
        self.actives[at].pop()
    }

    /// The transaction ends.
    pub fn end(&mut self, tx: u32)
        requires { IsAmong tx self.old.actives }
        ensures { self.new ≡ with_actives self.old (others tx self.old.actives) }
    {
        let at = self.place(tx);
        self.actives.remove(at);
    }
}

/// Where the first transaction of this number stands.
fn place_of(actives: &[ActiveTransaction], tx: u32) -> Option<usize>
    ensures { result ≡ position (λ o. o.tx == tx) actives.now }
{
    actives.iter().position(|active| active.tx == tx)
}
