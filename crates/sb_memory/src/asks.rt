//! Giving a call what it asks for of the pages in memory.

ghost use Rattle.std.specs.Prelude.{◌≡◌, ℕ, ◌<◌, false, true, OnOk, OnErr, IfErr, IfSome, IfNone};
ghost use Rattle.sb_ctx.specs.View.{dropped, holds_fresh};
ghost use Rattle.sb_memory.specs.MemorySpaces.{IsMemoryFault};
ghost use Rattle.sb_memory.specs.Contents.{slots};
ghost use Rattle.sb_drive.specs.Spaces.{IsAnswerFault, IsAskFault, IsFreshIn, IsFull, IsGift, IsGivenIn};

use crate::memory::{MOST_PAGES, Memory};
use sb_ctx::Ctx;
use sb_drive::{Ask, SpaceFault};

const FULL: SpaceFault = SpaceFault::TempFull {
    used: MOST_PAGES,
    total: MOST_PAGES,
};

/// Drops the edits, and gives what is asked for: of a page that isn't the owner's no bytes. Refused where memory runs
/// out or no page is free.
#[tactic(auto, unfolding(crate::specs::MemorySpaces::IsMemoryFault))]
pub fn answer(memory: &Memory, owner: u16, ctx: &mut Ctx, ask: Ask) -> Result<(), SpaceFault>
    ensures given { OnOk result (IsGivenIn 16384 (slots memory.now.now) owner (dropped ctx.old) ask ctx.new) }
    ensures gift { OnOk result (IsGift (dropped ctx.old) ask ctx.new) }
    ensures kept { OnErr result (ctx.new ≡ dropped ctx.old) }
    ensures undamaged { IfErr result IsAnswerFault }
    ensures looks { IfErr result (IsAskFault ask) }
    ensures cause { IfErr result IsMemoryFault }
    ensures full { IfErr result (IsFull false 16384 (slots memory.now.now) (dropped ctx.old) ask) }
{
    memory.are_pages();
    ctx.drop_edits();
    match ask {
        Ask::Page(n) => ctx.give_page(n, memory.page(owner, n))?,
        Ask::Fresh => {
            let n = fresh_page(memory, ctx).ok_or(FULL)?;
            ctx.give_fresh(n)?
        }
        Ask::After(n) => ctx.give_after(n, memory.next_page(owner, n))?,
    }
    Ok(())
}

/// The least page that is nobody's and isn't held as a fresh one.
fn fresh_page(memory: &Memory, ctx: &Ctx) -> Option<u32>
    ensures some { IfSome result (IsFreshIn 16384 (slots memory.now.now) ctx.now) }
    ensures none { IfNone result ((m : ℕ) → m < 16384 → (slots memory.now.now m).0 ≡ 0 → holds_fresh ctx.now m ≡ true) }
{
    for n in 0..MOST_PAGES {
        if memory.owner_of(n) == 0 && !ctx.holds_fresh(n) {
            return Some(n);
        }
    }
    None
}
