//! Pages with their owners.

ghost use Rattle.std.specs.Prelude.{◌≡◌, ℕ, ◌<◌, ◌≤◌, ◌==◌, [], length, max, OnOk};
ghost use Rattle.std.specs.List.{list_any};
ghost use Rattle.sb_drive.specs.Slots.{AreWhole, nobodys, bytes_for, with_slot};
ghost use Rattle.sb_memory.specs.Contents.{slots};
ghost use Rattle.sb_memory.specs.Writes.{written, undone, AreAmong, ArePagesTo};

use std::alloc::{AllocError, Global};
use std::marker::Model;
use std::mem;

/// A page with its owner. Owner 0 is nobody, whose pages have no bytes.
#[derive(Drop)]
pub struct Slot {
    owner: u16,
    bytes: Vec<u8>,
}

impl Model for Slot {
    ghost use Rattle.std.specs.Prelude.{List, ℕ};

    ghost Value = { ℕ × List ℕ };

    ghost view = { λ s. (s.owner, s.bytes.items) };
}

impl Slot {
    pub fn new(owner: u16, bytes: Vec<u8>) -> Slot
        ensures { result ≡ (owner, bytes.items) }
    {
        Slot { owner, bytes }
    }

    pub fn nobodys(alloc: Global) -> Slot
        ensures { result ≡ nobodys }
    {
        Slot {
            owner: 0,
            bytes: Vec::new(alloc),
        }
    }

    pub fn owner(&self) -> u16
        ensures { result ≡ self.now.0 }
    {
        self.owner
    }

    /// Its bytes as this owner sees them.
    pub fn bytes_for(&self, owner: u16) -> &[u8]
        ensures { result.now ≡ bytes_for owner self.now }
    {
        if owner != 0 && self.owner == owner {
            &self.bytes
        } else {
            &[]
        }
    }
}

/// What is to be written in the place of a page, or back there.
#[derive(Drop)]
pub struct Write {
    pub number: u32,
    pub slot: Slot,
}

/// Whether some page is this owner's.
pub fn has_owner(pages: &[Slot], owner: u16) -> bool
    ensures { result ≡ list_any (λ slot. slot.0 == owner) pages.now }
{
    pages.iter().any(|slot| slot.owner() == owner)
}

/// Adds pages that are nobody's, until there are so many.
pub fn grow(pages: &mut Vec<Slot>, len: usize) -> Result<(), AllocError>
    ensures same { slots pages.new.items ≡ slots pages.old.items }
    ensures ok { OnOk result (len ≤ length pages.new.items) }
    ensures least { length pages.old.items ≤ length pages.new.items }
    ensures most { length pages.new.items ≤ max len (length pages.old.items) }
{
    while pages.len() < len {
        pages.push(Slot::nobodys(*pages.allocator()))?;
    }
    Ok(())
}

/// Adds pages that are nobody's, until the writes have their places.
pub fn make_room(pages: &mut Vec<Slot>, writes: &[Write]) -> Result<(), AllocError>
    requires below { AreAmong 16384 writes.now }
    requires most { length pages.old.items ≤ 16384 }
    ensures same { slots pages.new.items ≡ slots pages.old.items }
    ensures ok { OnOk result (AreAmong (length pages.new.items) writes.now) }
    ensures least { length pages.old.items ≤ length pages.new.items }
    ensures most { length pages.new.items ≤ 16384 }
{
    for write in writes {
        grow(pages, write.number as usize + 1)?;
    }
    Ok(())
}

/// Makes the writes in a row, and keeps in their place what stood there.
pub fn exchange_all(pages: &mut [Slot], writes: &mut [Write])
    requires { AreAmong (length pages.old) writes.old }
    ensures pages { slots pages.new ≡ written writes.old (slots pages.old) }
    ensures back { undone writes.new (slots pages.new) ≡ slots pages.old }
    ensures among { AreAmong (length pages.new) writes.new }
    ensures len { length pages.new ≡ length pages.old }
    ensures as_many { length writes.new ≡ length writes.old }
    ensures whole { AreWhole (slots pages.old) → ArePagesTo writes.old → AreWhole (slots pages.new) × ArePagesTo writes.new }
{
    for write in writes.iter_mut() {
        exchange(pages, write);
    }
}

/// Makes one write, and keeps in its place what stood there.
fn exchange(pages: &mut [Slot], write: &mut Write)
    requires { write.old.number < length pages.old }
    ensures pages { slots pages.new ≡ with_slot write.old.number write.old.slot (slots pages.old) }
    ensures back { write.new ≡ record { number = write.old.number; slot = slots pages.old write.old.number } }
    ensures len { length pages.new ≡ length pages.old }
{
    mem::swap(&mut pages[write.number as usize], &mut write.slot);
}
