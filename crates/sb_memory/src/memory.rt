//! Pages in memory, and what they were before each write.

ghost use Rattle.std.specs.Prelude.{◌≡◌, ◌≢◌, ℕ, ◌+◌, ◌<◌, ◌≤◌, ◌++◌, ◌↔◌, IsTrue, [], ◌∷◌, length, take, All, OnOk, OnErr, IfOk, IfSome};
ghost use Rattle.sb_forms.specs.Pages.{ArePages, IsNext, new_pages};
ghost use Rattle.sb_drive.specs.Instances.{IsLeastOwner, IsLeastFree, IsUsed};
ghost use Rattle.sb_memory.specs.MemorySpaces.{HasPages};
ghost use Rattle.sb_memory.specs.Contents.{Grows, IsNextFrom, Keeps, nothing, slots, pages_of, stack, was_at};
ghost use Rattle.sb_memory.specs.Writes.{written, AreAmong, ArePagesTo};

use crate::slots::{Slot, Write, exchange_all, has_owner, make_room};
use sb_bytes::PAGE_LEN;
use std::alloc::{AllocError, Global};
use std::marker::Model;

/// How many pages there are at most.
pub const MOST_PAGES: u32 = 16384;

/// The catalogue's owner, and its root.
pub fn catalogue() -> (u16, u32)
    ensures { result ≡ (2, 0) }
{
    (2, 0)
}

/// How many writes stood: a point to go back to.
#[derive(Clone, Copy, Debug, PartialEq, Eq)]
pub struct MemoryMark {
    pub writes: usize,
}

/// The pages of several instances, by number, and what is to be written back to undo each write that stands.
#[derive(Drop)]
pub struct Memory {
    pages: Vec<Slot>,
    undo: Vec<Write>,
}

impl Model for Memory {
    ghost use Rattle.sb_memory.specs.Contents.{Contents, slots, listed};
    ghost use Rattle.sb_memory.specs.Writes.{pasts, IsMemory};

    ghost Value = { Contents };

    ghost view = { λ m. record { now = listed (slots m.pages.items); past = pasts m.undo.items (slots m.pages.items) } };

    ghost invariant = { λ m. IsMemory m.pages.items m.undo.items };
}

impl Memory {
    /// All pages are nobody's.
    pub fn new(alloc: Global) -> Memory
        ensures { result ≡ nothing }
    {
        Memory {
            pages: Vec::new(alloc),
            undo: Vec::new(alloc),
        }
    }

    /// Makes an instance: its owner and its root, a page of zeros. An owner that has freed all of its pages is named
    /// among those that are `taken`. Refused where memory runs out, no page is free or no owner is left.
    pub fn new_instance(&mut self, taken: &[u16]) -> Result<(u16, u32), AllocError>
        ensures owner { IfOk result (λ made. IsLeastOwner (slots self.old.now) taken.now made.0) }
        ensures root { IfOk result (λ made. IsLeastFree (slots self.old.now) made.1) }
        ensures below { IfOk result (λ made. made.1 < 16384) }
        ensures pages { IfOk result (λ made. pages_of self.new.now made.0 ≡ new_pages made.1) }
        ensures others { IfOk result (λ made. Keeps made.0 self.old self.new) }
        ensures err { OnErr result (self.new ≡ self.old) }
    {
        let alloc = *self.pages.allocator();
        let owner = self.unused_owner(taken).ok_or(AllocError)?;
        let root = self.free_page().ok_or(AllocError)?;
        let slot = Slot::new(owner, vec![in alloc; 0; PAGE_LEN]?);
        let mut writes = Vec::new(alloc);
        writes.push(Write { number: root, slot })?;
        self.write(writes)?;
        Ok((owner, root))
    }

    /// A memory whose catalogue has its root, a page of zeros; all other pages are nobody's.
    pub fn with_catalogue(alloc: Global) -> Result<Memory, AllocError>
        ensures root { IfOk result (λ memory. pages_of memory.now 2 ≡ new_pages 0) }
        ensures others { IfOk result (λ memory. (o n : ℕ) → (o ≡ 2 → ⊥) → pages_of memory.now o n ≡ []) }
        ensures past { IfOk result (λ memory. memory.past ≡ []) }
    {
        let (owner, _) = catalogue();
        let mut pages = Vec::new(alloc);
        pages.push(Slot::new(owner, vec![in alloc; 0; PAGE_LEN]?))?;
        Ok(Memory {
            pages,
            undo: Vec::new(alloc),
        })
    }

    /// The writes that stand.
    pub fn mark(&self) -> MemoryMark
        ensures { result.writes ≡ length self.now.past }
    {
        MemoryMark {
            writes: self.undo.len(),
        }
    }

    /// Writes back what was there, until only the writes stand that stood at the mark.
    pub fn back_to(&mut self, mark: MemoryMark)
        requires { mark.writes ≤ length self.old.past }
        ensures stack { stack self.new ≡ take (mark.writes + 1) (stack self.old) }
        ensures now { self.new.now ≡ was_at mark.writes self.old }
        ensures writes { length self.new.past ≡ mark.writes }
    {
        while self.mark().writes > mark.writes {
            self.take_back();
        }
    }

    /// Writes back what was there before the last write.
    fn take_back(&mut self)
        requires { 0 < length self.old.past }
        ensures { stack self.old ≡ stack self.new ++ self.old.now ∷ [] }
    {
        if let Some(write) = self.undo.pop() {
            self.pages[write.number as usize] = write.slot;
        }
    }

    /// No write is left that could be taken back.
    pub fn keep(&mut self)
        ensures now { self.new.now ≡ self.old.now }
        ensures past { self.new.past ≡ [] }
    {
        self.undo.clear();
    }

    /// The owner of a page; 0 where it is nobody's.
    pub fn owner_of(&self, n: u32) -> u16
        ensures { result ≡ (slots self.now.now n).0 }
    {
        match self.pages.get(n as usize) {
            Some(slot) => slot.owner(),
            None => 0,
        }
    }

    /// The bytes of an owner's page; none where it isn't this owner's.
    pub fn page(&self, owner: u16, n: u32) -> &[u8]
        ensures { result.now ≡ pages_of self.now.now owner n }
    {
        match self.pages.get(n as usize) {
            Some(slot) => slot.bytes_for(owner),
            None => &[],
        }
    }

    /// The number of the owner's next page behind this one, or of its first one.
    pub fn next_page(&self, owner: u16, low: Option<u32>) -> Option<u32>
        ensures { IsNext (pages_of self.now.now owner) low result }
    {
        match low {
            Some(n) => self.next_from(owner, n as usize + 1),
            None => self.next_from(owner, 0),
        }
    }

    /// The number of the owner's first page from this one on.
    fn next_from(&self, owner: u16, first: usize) -> Option<u32>
        ensures { IsNextFrom (pages_of self.now.now owner) first result }
    {
        for n in first..self.pages.len() {
            if !self.page(owner, n as u32).is_empty() {
                return Some(n as u32);
            }
        }
        None
    }

    /// Makes the writes in a row, all of them or none.
    pub fn write(&mut self, writes: Vec<Write>) -> Result<(), AllocError>
        requires among { AreAmong 16384 writes.items }
        requires whole { ArePagesTo writes.items }
        ensures now { OnOk result (slots self.new.now ≡ written writes.items (slots self.old.now)) }
        ensures grows { OnOk result (Grows self.old self.new) }
        ensures none { writes.items ≡ [] → self.new ≡ self.old }
        ensures err { OnErr result (self.new ≡ self.old) }
    {
        let mut writes = writes;
        make_room(&mut self.pages, &writes)?;
        self.undo.reserve(writes.len())?;
        exchange_all(&mut self.pages, &mut writes);
        let Ok(()) = self.undo.append(&mut writes) else {
            unreachable!()
        };
        Ok(())
    }

    /// A lemma: these are its pages, and each page of an owner is whole.
    pub fn are_pages(&self)
        ensures has { HasPages (slots self.now.now) self.now }
        ensures now { (owner : ℕ) → ArePages (pages_of self.now.now owner) }
        ensures past { (owner : ℕ) → All (λ pages. ArePages (pages_of pages owner)) self.now.past }
    {
        let _ = &self.pages;
    }

    /// The least page that is nobody's.
    fn free_page(&self) -> Option<u32>
        ensures least { IfSome result (IsLeastFree (slots self.now.now)) }
        ensures below { IfSome result (λ n. n < 16384) }
    {
        for n in 0..MOST_PAGES {
            if self.owner_of(n) == 0 {
                return Some(n);
            }
        }
        None
    }

    /// The least owner from 3 on that no page has and that isn't taken.
    fn unused_owner(&self, taken: &[u16]) -> Option<u16>
        ensures { IfSome result (IsLeastOwner (slots self.now.now) taken.now) }
    {
        for owner in 3..u16::MAX {
            if !self.is_used(taken, owner) {
                return Some(owner);
            }
        }
        None
    }

    /// Whether some page is this owner's, or it is among these.
    fn is_used(&self, taken: &[u16], owner: u16) -> bool
        requires { owner ≢ 0 }
        ensures { IsTrue result ↔ IsUsed (slots self.now.now) taken.now owner }
    {
        taken.contains(&owner) || self.has_pages(owner)
    }

    /// Whether some page is this owner's.
    fn has_pages(&self, owner: u16) -> bool
        requires { owner ≢ 0 }
        ensures { IsTrue result ↔ (n : ℕ) × ((slots self.now.now n).0 ≡ owner) }
    {
        has_owner(&self.pages, owner)
    }
}
