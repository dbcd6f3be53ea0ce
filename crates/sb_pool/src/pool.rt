//! The pool and its calls.

ghost use Rattle.std.specs.Prelude.{◌≡◌, ◌⊎◌, ◌+◌, ◌<◌, ◌≤◌, ℕ, List, Option, true, false, Some, length, OnOk, OnErr, IfOk, IfErr};
ghost use Rattle.sb_disk.specs.Disk.{Story};
ghost use Rattle.sb_images.specs.Store.{IfTold};
ghost use Rattle.sb_journal.specs.State.{State, used_of, after_force};
ghost use Rattle.sb_log.specs.Records.{Record};
ghost use Rattle.sb_log.specs.Restored.{imaged};
ghost use Rattle.sb_pool.specs.declared.fault.PoolFault.TheVariants.{NoMemory};
ghost use Rattle.sb_pool.specs.Calls.{moment, Serves, KeepsPool, KeepsFlushed, IsSameOrForced, AreTied, InStore, KeepsImages, FlushesImages, IsLoad, ReadsClean};
ghost use Rattle.sb_pool.specs.Pages.{AgreesOn, Becomes, KeepsPages, AreFlushed, with_bytes, pool_page, bytes_or};
ghost use Rattle.sb_pool.specs.State.{held, IsHeld, IsDirty, is_dirty, NoneMoreDirty, empty_pool, flushed};

use crate::PoolFault;
use crate::flushing::{force, mark_all_clean, put_all_out};
use crate::frame::{Frame, empty_frames};
use sb_disk::Disk;
use sb_images::place_of;
use sb_journal::Journal;
use sb_log::Geometry;
use std::alloc::Global;
use std::marker::Model;

/// The pages of a store in memory, as they were last written.
///
/// It has a buffer for every page. A page is read from the disk when it is first asked for, and `flush_all` alone writes pages. No call after `new` takes memory.
#[derive(Drop)]
pub struct Pool {
    geometry: Geometry,
    frames: Vec<Frame>,
    position: u64,
}

impl Model for Pool {
    ghost use Rattle.sb_pool.specs.State.{State};

    ghost Value = { State };

    ghost use Rattle.sb_pool.specs.View.{state_of, Kept};

    ghost view = { state_of };

    ghost invariant = { Kept };
}

impl Pool {
    ghost use Rattle.std.specs.Prelude.{⊤};
    ghost use Rattle.std.specs.Borrow.{sem};
    ghost use Rattle.sb_pool.specs.contracts.pool.Pool.{the_row};
    ghost use mathlib.Core.Option.{none};
    ghost use denote.Follow.{follows_so};

    /// A pool that holds no page. The number of frames has no effect yet.
    pub fn new(alloc: Global, frames: u32, geometry: Geometry) -> Result<Pool, PoolFault>
        requires { (8 ≤ frames) × (frames ≤ 65536) }
        ensures ok { IfOk result (λ pool. pool ≡ empty_pool geometry) }
        ensures agrees { IfOk result (λ pool. (told : Option Story) (j : State) → AgreesOn told j pool) }
        ensures tied { IfOk result (λ pool. (j : State) (opened pending : List Record) → AreTied pool j opened pending) }
        ensures err { IfErr result (λ e. e ≡ NoMemory) }
    {
        let frames = empty_frames(alloc, geometry.pages)?;
        Ok(Pool {
            geometry,
            frames,
            position: 0,
        })
    }

    /// How many pages the store has.
    pub fn pages(&self) -> u32
        ensures { result ≡ self.now.geometry.pages }
    {
        self.geometry.pages
    }

    /// The sizes of the store.
    pub fn geometry(&self) -> Geometry
        ensures { result ≡ self.now.geometry }
    {
        self.geometry
    }

    /// Brings the page into memory, where it isn't held.
    pub fn load<D: Disk>(
        &mut self,
        disk: &mut D,
        journal: &mut Journal,
        page: u32,
    ) -> Result<(), PoolFault>
        requires serves { Serves (D.told disk.old) (D.len disk.old) journal.old self.old.geometry }
        requires agrees { AgreesOn (D.told disk.old) journal.old self.old }
        requires page { page < self.old.geometry.pages }

        ensures held { OnOk result (IsHeld self.new page × (self.new.position ≡ self.old.position)) }
        ensures pages { KeepsPages journal.new self.old self.new (D.told disk.old) (D.told disk.new) }
        ensures dirty { NoneMoreDirty self.old self.new }

        // A crash anywhere in the call leaves what the store restores.
        ensures images { InStore (D.told disk.old) journal.old self.old (λ want recs.
            KeepsImages want self.old.geometry recs journal.new self.new (D.told disk.old) (D.told disk.new) result) }

        // With no page dirty it only reads.
        ensures reads { ReadsClean self.old journal.old journal.new (D.told disk.old) (D.told disk.new) }

        ensures journal { OnOk result (IsSameOrForced journal.old journal.new) }
        ensures keeps { KeepsPool (moment D.told D.len D.faults disk.old journal.old self.old)
            (moment D.told D.len D.faults disk.new journal.new self.new) result }
    {
        let at = place_of(self.geometry, page);
        let frame = &mut self.frames[page as usize];
        frame.load(disk, at)?;
        Ok(())
    }

    /// The bytes of a page that is held.
    pub fn page(&self, page: u32) -> &[u8]
        requires { IsHeld self.now page }
        ensures bytes { held self.now page ≡ Some (record { bytes = result.now; dirty = is_dirty (held self.now page) }) }
        ensures long { length result.now ≡ 4096 }
    {
        &self.frames[page as usize].bytes
    }

    /// The bytes of the page, which is brought into memory where it isn't held.
    pub fn read<D: Disk>(
        &mut self,
        disk: &mut D,
        journal: &mut Journal,
        page: u32,
    ) -> Result<&[u8], PoolFault>
        requires serves { Serves (D.told disk.old) (D.len disk.old) journal.old self.old.geometry }
        requires agrees { AgreesOn (D.told disk.old) journal.old self.old }
        requires page { page < self.old.geometry.pages }

        ensures page { IfOk result (λ bytes. IfTold (D.told disk.old)
            (journal.new.failed ≡ false → bytes.now ≡ pool_page (D.told disk.old) self.old page)) }
        ensures long { IfOk result (λ bytes. length bytes.now ≡ 4096) }

        // The pool is left as `load` leaves it.
        ensures* after { sem 𝓛 (follows_so the_row the_row self.entry.ghost_name none (λ _ _. ⊤) (λ pool.
            IsLoad (moment D.told D.len D.faults disk.old journal.old self.old)
            (moment D.told D.len D.faults disk.new journal.new pool) page result)) }
    {
        self.load(disk, journal, page)?;
        Ok(self.page(page))
    }

    /// Puts the bytes at a place of the page, behind the records of the change.
    pub fn write<D: Disk>(
        &mut self,
        disk: &mut D,
        journal: &mut Journal,
        page: u32,
        offset: u16,
        bytes: &[u8],
    ) -> Result<(), PoolFault>
        requires serves { Serves (D.told disk.old) (D.len disk.old) journal.old self.old.geometry }
        requires agrees { AgreesOn (D.told disk.old) journal.old self.old }
        requires page { page < self.old.geometry.pages }
        requires range { offset + length bytes.now ≤ 4096 }

        ensures written { OnOk result (Becomes (with_bytes page offset bytes.now (pool_page (D.told disk.old) self.old))
            journal.new self.new (D.told disk.old) (D.told disk.new)) }
        ensures dirty { OnOk result (IsDirty self.new page × (self.new.position ≡ used_of journal.new)) }
        ensures others { (p : ℕ) → IsDirty self.new p → IsDirty self.old p ⊎ (p ≡ page) }
        ensures err { OnErr result (KeepsPages journal.new self.old self.new (D.told disk.old) (D.told disk.new)) }

        // A crash anywhere in the call leaves what the store restores.
        ensures images { InStore (D.told disk.old) journal.old self.old (λ want recs. imaged recs page ≡ true
            → KeepsImages want self.old.geometry recs journal.new self.new (D.told disk.old) (D.told disk.new) result) }

        ensures journal { OnOk result (IsSameOrForced journal.old journal.new) }
        ensures keeps { KeepsPool (moment D.told D.len D.faults disk.old journal.old self.old)
            (moment D.told D.len D.faults disk.new journal.new self.new) result }
    {
        self.load(disk, journal, page)?;
        let frame = &mut self.frames[page as usize];
        frame.write(offset as usize, bytes);
        self.position = journal.used();
        Ok(())
    }

    /// Writes each dirty page to the disk, behind a force of what is pending, and syncs. After an error the pool is as it was, and its clean pages may not be as the disk has them.
    pub fn flush_all<D: Disk>(
        &mut self,
        disk: &mut D,
        journal: &mut Journal,
    ) -> Result<(), PoolFault>
        requires serves { Serves (D.told disk.old) (D.len disk.old) journal.old self.old.geometry }
        requires agrees { AgreesOn (D.told disk.old) journal.old self.old }

        ensures flushed { OnOk result (self.new ≡ flushed self.old) }
        ensures disk { OnOk result (AreFlushed self.old (D.told disk.old) (D.told disk.new)) }
        ensures forced { OnOk result (journal.new ≡ after_force journal.old) }
        ensures pages { OnOk result (KeepsPages journal.new self.old self.new (D.told disk.old) (D.told disk.new)) }
        ensures err { OnErr result (self.new ≡ self.old) }
        ensures dirty { NoneMoreDirty self.old self.new }

        // A crash anywhere in the call leaves what the store restores.
        ensures images { InStore (D.told disk.old) journal.old self.old (λ want recs.
            FlushesImages want self.old.geometry recs journal.new self.new (D.told disk.old) (D.told disk.new) result) }

        ensures keeps { KeepsFlushed (moment D.told D.len D.faults disk.old journal.old self.old)
            (moment D.told D.len D.faults disk.new journal.new self.new) result }
    {
        force(disk, journal)?;
        put_all_out(&self.frames, self.geometry, disk)?;
        mark_all_clean(&mut self.frames);
        self.position = 0;
        Ok(())
    }
}
