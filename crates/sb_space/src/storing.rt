//! What a call made of its pages is stored.

ghost use Rattle.std.specs.Prelude.{◌≡◌, ◌+◌, ◌<◌, ℕ, [], ◌∷◌, length, IfErr, OnOk};
ghost use Rattle.sb_ctx.specs.View.{HoldsPart, edited_pages, edits_of, fresh_pages, freed_pages, stored};
ghost use Rattle.sb_drive.specs.Slots.{Slots, owned};
ghost use Rattle.sb_drive.specs.Spaces.{IsStoreFault, UnlessDown, Wanted};
ghost use Rattle.sb_drive.specs.Stores.{bytes_in};
ghost use Rattle.sb_space.specs.Durable.{Calls, parts_in};
ghost use Rattle.sb_space.specs.Stored.{AreSet, Ends, IsSet, Touches, taken_in};
ghost use Rattle.sb_space.specs.View.{lent};
ghost use Rattle.sb_space.specs.Works.{HasPages, Serves};

use crate::durable::Durable;
use crate::owners::FIRST_OWNER;
use sb_bytes::{MOST_PAGES, PAGE_LEN};
use sb_ctx::Ctx;
use sb_disk::Disk;
use sb_drive::SpaceFault;

impl<D: Disk> Durable<'_, D> {
    /// Stores the pages that were taken, those that were edited, and those that were freed.
    pub(crate) fn store_all(&mut self, owner: u16, ctx: &Ctx) -> Result<(), SpaceFault>
        requires ready { Serves (lent self.old).tx (parts_in D.told D.len (lent self.old)) }
        ensures pages { UnlessDown result ((want : Wanted) (s : Slots) → HasPages want s (parts_in D.told D.len (lent self.old)) → HoldsPart ctx.now (owned s owner)
            → Ends owner want s (parts_in D.told D.len (lent self.new)) (λ t. OnOk result (owned t owner ≡ stored ctx.now (owned s owner)))) }
        ensures err { IfErr result IsStoreFault }
        ensures calls { Calls D.told D.len D.faults (edits_of ctx.now) (lent self.old) (lent self.new) result }
    {
        ctx.is_ctx();
        self.take_pages(owner, ctx)?;
        self.write_pages(owner, ctx)?;
        self.free_pages(owner, ctx)
    }

    /// The fresh pages that were taken become the owner's.
    pub(crate) fn take_pages(&mut self, owner: u16, ctx: &Ctx) -> Result<(), SpaceFault>
        requires ready { Serves (lent self.old).tx (parts_in D.told D.len (lent self.old)) }
        ensures pages { UnlessDown result ((want : Wanted) (s : Slots) → HasPages want s (parts_in D.told D.len (lent self.old))
            → Ends owner want s (parts_in D.told D.len (lent self.new)) (λ t. OnOk result (Touches owner (taken_in (fresh_pages ctx.now)) s t))) }
        ensures err { IfErr result IsStoreFault }
        ensures calls { Calls D.told D.len D.faults (length (taken_in (fresh_pages ctx.now))) (lent self.old) (lent self.new) result }
    {
        for i in 0..=MOST_PAGES {
            let Some((n, taken)) = ctx.fresh_given(i) else {
                return Ok(());
            };
            self.take_if(owner, n, taken)?;
        }
        Err(SpaceFault::NoMemory)
    }

    /// A fresh page becomes the owner's where it was taken.
    fn take_if(&mut self, owner: u16, n: u32, taken: bool) -> Result<(), SpaceFault>
        requires ready { Serves (lent self.old).tx (parts_in D.told D.len (lent self.old)) }
        ensures pages { UnlessDown result ((want : Wanted) (s : Slots) → HasPages want s (parts_in D.told D.len (lent self.old))
            → Ends owner want s (parts_in D.told D.len (lent self.new)) (λ t. OnOk result (Touches owner (taken_in ((n, taken) ∷ [])) s t))) }
        ensures err { IfErr result IsStoreFault }
        ensures calls { Calls D.told D.len D.faults (length (taken_in ((n, taken) ∷ []))) (lent self.old) (lent self.new) result }
    {
        if !taken {
            return Ok(());
        }
        self.take_page(owner, n)
    }

    /// A page that is nobody's becomes the owner's. Another one doesn't: memory is wanting.
    fn take_page(&mut self, owner: u16, n: u32) -> Result<(), SpaceFault>
        requires ready { Serves (lent self.old).tx (parts_in D.told D.len (lent self.old)) }
        ensures pages { UnlessDown result ((want : Wanted) (s : Slots) → HasPages want s (parts_in D.told D.len (lent self.old))
            → Ends owner want s (parts_in D.told D.len (lent self.new)) (λ t. OnOk result ((m : ℕ) → (n ≡ m → ⊥) → owned t owner m ≡ owned s owner m))) }
        ensures err { IfErr result IsStoreFault }
        ensures calls { Calls D.told D.len D.faults 1 (lent self.old) (lent self.new) result }
    {
        if owner < FIRST_OWNER || n >= self.store.pages() {
            return Err(SpaceFault::NoMemory);
        }
        if self.owner_of(n)? != 0 {
            return Err(SpaceFault::NoMemory);
        }
        self.set_owner(n, owner)
    }

    /// The edited pages get their bytes.
    pub(crate) fn write_pages(&mut self, owner: u16, ctx: &Ctx) -> Result<(), SpaceFault>
        requires ready { Serves (lent self.old).tx (parts_in D.told D.len (lent self.old)) }
        ensures pages { UnlessDown result ((want : Wanted) (s : Slots) → HasPages want s (parts_in D.told D.len (lent self.old))
            → Ends owner want s (parts_in D.told D.len (lent self.new)) (λ t. OnOk result (AreSet owner (edited_pages ctx.now) (bytes_in ctx.now) s t))) }
        ensures err { IfErr result IsStoreFault }
        ensures calls { Calls D.told D.len D.faults (length (edited_pages ctx.now)) (lent self.old) (lent self.new) result }
    {
        for i in 0..=MOST_PAGES {
            let Some(n) = ctx.edited(i) else {
                return Ok(());
            };
            self.write_page(owner, ctx, n)?;
        }
        Err(SpaceFault::NoMemory)
    }

    /// A page of the owner gets its bytes. Another one doesn't: memory is wanting.
    fn write_page(&mut self, owner: u16, ctx: &Ctx, n: u32) -> Result<(), SpaceFault>
        requires ready { Serves (lent self.old).tx (parts_in D.told D.len (lent self.old)) }
        ensures pages { UnlessDown result ((want : Wanted) (s : Slots) → HasPages want s (parts_in D.told D.len (lent self.old))
            → Ends owner want s (parts_in D.told D.len (lent self.new)) (λ t. OnOk result (IsSet owner n (bytes_in ctx.now n) s t))) }
        ensures err { IfErr result IsStoreFault }
        ensures calls { Calls D.told D.len D.faults 1 (lent self.old) (lent self.new) result }
    {
        if !self.is_owned(owner, n)? {
            return Err(SpaceFault::NoMemory);
        }
        match ctx.page(n) {
            Some(bytes) if bytes.len() == PAGE_LEN => self.set_bytes(owner, n, bytes),
            _ => Err(SpaceFault::NoMemory),
        }
    }

    /// The freed pages become nobody's.
    pub(crate) fn free_pages(&mut self, owner: u16, ctx: &Ctx) -> Result<(), SpaceFault>
        requires ready { Serves (lent self.old).tx (parts_in D.told D.len (lent self.old)) }
        ensures pages { UnlessDown result ((want : Wanted) (s : Slots) → HasPages want s (parts_in D.told D.len (lent self.old))
            → Ends owner want s (parts_in D.told D.len (lent self.new)) (λ t. OnOk result (AreSet owner (freed_pages ctx.now) (λ m. []) s t))) }
        ensures err { IfErr result IsStoreFault }
        ensures calls { Calls D.told D.len D.faults (length (freed_pages ctx.now)) (lent self.old) (lent self.new) result }
    {
        for i in 0..=MOST_PAGES {
            let Some(n) = ctx.freed(i) else {
                return Ok(());
            };
            self.free_page_of(owner, n)?;
        }
        Err(SpaceFault::NoMemory)
    }

    /// A page of the owner becomes nobody's. Another one doesn't: memory is wanting.
    fn free_page_of(&mut self, owner: u16, n: u32) -> Result<(), SpaceFault>
        requires ready { Serves (lent self.old).tx (parts_in D.told D.len (lent self.old)) }
        ensures pages { UnlessDown result ((want : Wanted) (s : Slots) → HasPages want s (parts_in D.told D.len (lent self.old))
            → Ends owner want s (parts_in D.told D.len (lent self.new)) (λ t. OnOk result (IsSet owner n [] s t))) }
        ensures err { IfErr result IsStoreFault }
        ensures calls { Calls D.told D.len D.faults 1 (lent self.old) (lent self.new) result }
    {
        if !self.is_owned(owner, n)? {
            return Err(SpaceFault::NoMemory);
        }
        self.set_owner(n, 0)
    }
}
