//! What is asked for is given.

ghost use Rattle.std.specs.Prelude.{◌≡◌, ◌<◌, true, false, OnOk, OnErr, IfOk, IfErr, IfSome};
ghost use Rattle.sb_ctx.specs.View.{holds_fresh, with_held, given_page, fresh_page, with_next, dropped};
ghost use Rattle.sb_drive.specs.Slots.{Slots, owned};
ghost use Rattle.sb_drive.specs.Spaces.{IsAnswerFault, IsFull, IsGift, IsGivenIn, Wanted};
ghost use Rattle.sb_drive.specs.declared.space.SpaceFault.TheVariants.{NoMemory};
ghost use Rattle.sb_drive.specs.declared.turns.Ask.TheVariants.{Page, Fresh, After};
ghost use Rattle.sb_forms.specs.Pages.{IsNext};
ghost use Rattle.sb_space.specs.Durable.{Calls, parts_in};
ghost use Rattle.sb_space.specs.Owners.{IsBehind, IsFree};
ghost use Rattle.sb_space.specs.View.{lent};
ghost use Rattle.sb_space.specs.Works.{HasPages, IsLookFault, MeansDown, Serves};

use crate::durable::Durable;
use sb_ctx::Ctx;
use sb_disk::Disk;
use sb_drive::SpaceFault;

/// The first number behind this one; where there is no greater one, that itself.
fn behind(low: Option<u32>) -> u32
    ensures { IsBehind low result }
{
    match low {
        Some(n) => n.saturating_add(1),
        None => 0,
    }
}

/// Gives a page with these bytes.
fn give_bytes(ctx: &mut Ctx, n: u32, bytes: &[u8]) -> Result<(), SpaceFault>
    ensures given { OnOk result (ctx.new ≡ with_held n (given_page bytes.now) ctx.old) }
    ensures gift { OnOk result (IsGift ctx.old (Page n) ctx.new) }
    ensures kept { OnErr result (ctx.new ≡ ctx.old) }
    ensures err { IfErr result (λ e. e ≡ NoMemory) }
{
    ctx.give_page(n, bytes)?;
    Ok(())
}

impl<D: Disk> Durable<'_, D> {
    /// Gives the owner's page of this number, without bytes where it has none.
    pub(crate) fn give_page(&mut self, owner: u16, ctx: &mut Ctx, n: u32) -> Result<(), SpaceFault>
        requires ready { Serves (lent self.old).tx (parts_in D.told D.len (lent self.old)) }
        ensures given { OnOk result ((want : Wanted) (s : Slots) → HasPages want s (parts_in D.told D.len (lent self.old))
            → IsGivenIn self.old.store.now.pool.geometry.pages s owner ctx.old (Page n) ctx.new) }
        ensures gift { OnOk result (IsGift ctx.old (Page n) ctx.new) }
        ensures kept { OnErr result (ctx.new ≡ ctx.old) }
        ensures err { IfErr result IsLookFault }
        ensures calls { Calls D.told D.len D.faults 0 (lent self.old) (lent self.new) result }
    {
        if !self.is_owned(owner, n)? {
            return give_bytes(ctx, n, &[]);
        }
        self.load(n)?;
        give_bytes(ctx, n, self.store.held(n))
    }

    /// Gives the least page that is nobody's, and isn't among the fresh ones that it gave.
    pub(crate) fn give_fresh(&mut self, owner: u16, ctx: &mut Ctx) -> Result<(), SpaceFault>
        requires ready { Serves (lent self.old).tx (parts_in D.told D.len (lent self.old)) }
        ensures given { OnOk result ((want : Wanted) (s : Slots) → HasPages want s (parts_in D.told D.len (lent self.old))
            → IsGivenIn self.old.store.now.pool.geometry.pages s owner ctx.old Fresh ctx.new) }
        ensures gift { OnOk result (IsGift ctx.old Fresh ctx.new) }
        ensures kept { OnErr result (ctx.new ≡ ctx.old) }
        ensures full { IfErr result (λ e. (want : Wanted) (s : Slots) → HasPages want s (parts_in D.told D.len (lent self.old))
            → IsFull true self.old.store.now.pool.geometry.pages s ctx.old Fresh e) }
        ensures err { IfErr result IsAnswerFault }
        ensures calls { Calls D.told D.len D.faults 0 (lent self.old) (lent self.new) result }
    {
        let total = self.store.pages();
        let Some(n) = self.free_page(ctx)? else {
            return Err(SpaceFault::DataFull { used: total, total });
        };
        ctx.give_fresh(n)?;
        Ok(())
    }

    /// Gives the number of the owner's next page behind this one, or of its first one.
    pub(crate) fn give_after(
        &mut self,
        owner: u16,
        ctx: &mut Ctx,
        low: Option<u32>,
    ) -> Result<(), SpaceFault>
        requires ready { Serves (lent self.old).tx (parts_in D.told D.len (lent self.old)) }
        ensures given { OnOk result ((want : Wanted) (s : Slots) → HasPages want s (parts_in D.told D.len (lent self.old))
            → IsGivenIn self.old.store.now.pool.geometry.pages s owner ctx.old (After low) ctx.new) }
        ensures gift { OnOk result (IsGift ctx.old (After low) ctx.new) }
        ensures kept { OnErr result (ctx.new ≡ ctx.old) }
        ensures err { IfErr result IsLookFault }
        ensures calls { Calls D.told D.len D.faults 0 (lent self.old) (lent self.new) result }
    {
        let next = self.next_owned(owner, low)?;
        ctx.give_after(low, next)?;
        Ok(())
    }

    /// The least page that is nobody's and isn't held as a fresh one.
    fn free_page(&mut self, ctx: &Ctx) -> Result<Option<u32>, SpaceFault>
        requires ready { Serves (lent self.old).tx (parts_in D.told D.len (lent self.old)) }
        ensures found { IfOk result (λ found. (want : Wanted) (s : Slots) → HasPages want s (parts_in D.told D.len (lent self.old))
            → IsFree self.old.store.now.pool.geometry.pages s ctx.now found) }
        ensures below { IfOk result (λ found. IfSome found (λ n. n < 65536)) }
        ensures new { IfOk result (λ found. IfSome found (λ n. holds_fresh ctx.now n ≡ false)) }
        ensures err { IfErr result MeansDown }
        ensures calls { Calls D.told D.len D.faults 0 (lent self.old) (lent self.new) result }
    {
        for n in 0..self.store.pages() {
            if self.owner_of(n)? == 0 && !ctx.holds_fresh(n) {
                return Ok(Some(n));
            }
        }
        Ok(None)
    }

    /// The number of the owner's next page behind this one, or of its first one.
    fn next_owned(&mut self, owner: u16, low: Option<u32>) -> Result<Option<u32>, SpaceFault>
        requires ready { Serves (lent self.old).tx (parts_in D.told D.len (lent self.old)) }
        ensures next { IfOk result (λ next. (want : Wanted) (s : Slots) → HasPages want s (parts_in D.told D.len (lent self.old))
            → IsNext (owned s owner) low next) }
        ensures err { IfErr result MeansDown }
        ensures calls { Calls D.told D.len D.faults 0 (lent self.old) (lent self.new) result }
    {
        let first = behind(low);
        for n in first..self.store.pages() {
            if self.is_owned(owner, n)? {
                return Ok(Some(n));
            }
        }
        Ok(None)
    }
}
