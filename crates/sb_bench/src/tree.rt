//! How many pages a look-up in a tree asks for, as the tree grows, and how long it takes.

use sb_btree::{Walk, find};
use sb_ctx::Ctx;
use sb_drive::{Ask, PageSpace};
use sb_map::{Place, get, put};
use sb_memory::Memory;
use std::alloc::Global;

/// A tree of keys of 8 bytes with values of 8 bytes, in pages in memory. The keys rise as they are put in.
#[derive(Drop)]
pub struct Tree {
    memory: Memory,
    place: Place,
    entries: u64,
}

impl Tree {
    pub fn new(alloc: Global) -> Option<Tree> {
        let mut memory = Memory::new(alloc);
        let (owner, root) = memory.new_instance(&[]).ok()?;
        let place = Place { owner, root };
        sb_map::make(&mut memory, alloc, place).ok()?;
        memory.keep();
        Some(Tree {
            memory,
            place,
            entries: 0,
        })
    }

    /// Puts entries in until there are so many.
    pub fn grow(&mut self, alloc: Global, entries: u64) -> Option<()> {
        for key in self.entries..entries {
            let bytes = key.to_be_bytes();
            put(&mut self.memory, alloc, self.place, &bytes, &bytes).ok()?;
            self.memory.keep();
        }
        self.entries = entries;
        Some(())
    }

    /// How many of the keys are found with their values.
    pub fn found(&mut self, alloc: Global) -> Option<u64> {
        let mut found: u64 = 0;
        for key in 0..self.entries {
            let bytes = key.to_be_bytes();
            let value = get(&mut self.memory, alloc, self.place, &bytes).ok()??;
            if value.as_slice() == bytes.as_slice() {
                found = found.saturating_add(1);
            }
        }
        Some(found)
    }

    /// How many pages a look-up of a key asks for.
    pub fn pages_asked(&mut self, alloc: Global, key: u64) -> Option<u32> {
        let mut ctx = Ctx::new(alloc);
        // A tree has at most 17 levels.
        for _ in 0..18 {
            match find(alloc, &ctx, self.place.root, &key.to_be_bytes()) {
                Walk::Ready(found) => {
                    let _entry = found?;
                    return Some(ctx.asks());
                }
                Walk::Need(n) => self
                    .memory
                    .answer(self.place.owner, &mut ctx, Ask::Page(n))
                    .ok()?,
                Walk::Fresh | Walk::Broken(_) | Walk::NoMemory => return None,
            }
        }
        None
    }
}
