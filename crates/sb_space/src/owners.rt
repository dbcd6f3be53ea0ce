//! The owner table.

ghost use Rattle.std.specs.Prelude.{◌≡◌, ◌<◌, true, IfOk, IfErr};
ghost use Rattle.sb_drive.specs.Slots.{Slots};
ghost use Rattle.sb_drive.specs.Spaces.{Wanted};
ghost use Rattle.sb_space.specs.Durable.{Calls, parts_in};
ghost use Rattle.sb_space.specs.Owners.{IsOwned};
ghost use Rattle.sb_space.specs.View.{lent};
ghost use Rattle.sb_space.specs.Works.{HasPages, MeansDown, Serves};

use crate::durable::Durable;
use crate::opening::owner_of;
use sb_disk::Disk;
use sb_drive::SpaceFault;

/// How many entries a page of the table has, two bytes each.
pub const ENTRIES: u32 = 2048;

/// Below it are nobody and the table.
pub(crate) const FIRST_OWNER: u16 = 2;

impl<D: Disk> Durable<'_, D> {
    /// The owner of a page: 0 nobody, 1 the table, 2 the catalogue.
    pub(crate) fn owner_of(&mut self, n: u32) -> Result<u16, SpaceFault>
        requires ready { Serves (lent self.old).tx (parts_in D.told D.len (lent self.old)) }
        requires page { n < self.old.store.now.pool.geometry.pages }
        ensures owner { IfOk result (λ owner. (want : Wanted) (s : Slots) → HasPages want s (parts_in D.told D.len (lent self.old)) → owner ≡ (s n).0) }
        ensures err { IfErr result MeansDown }
        ensures calls { Calls D.told D.len D.faults 0 (lent self.old) (lent self.new) result }
    {
        owner_of(self.store, self.disk, n)
    }

    /// Whether a page is this owner's.
    pub(crate) fn is_owned(&mut self, owner: u16, n: u32) -> Result<bool, SpaceFault>
        requires ready { Serves (lent self.old).tx (parts_in D.told D.len (lent self.old)) }
        ensures within { IfOk result (λ owned. owned ≡ true → n < self.old.store.now.pool.geometry.pages) }
        ensures owned { IfOk result (λ owned. (want : Wanted) (s : Slots) → HasPages want s (parts_in D.told D.len (lent self.old)) → IsOwned s owner n owned) }
        ensures err { IfErr result MeansDown }
        ensures calls { Calls D.told D.len D.faults 0 (lent self.old) (lent self.new) result }
    {
        if owner < FIRST_OWNER || n >= self.store.pages() {
            return Ok(false);
        }
        Ok(self.owner_of(n)? == owner)
    }
}
