//! The driver of boxed calls.

ghost use Rattle.std.specs.Prelude.{◌≡◌, IfOk, IfErr};
ghost use Rattle.sb_ctx.specs.View.{IsClean};
ghost use Rattle.sb_ctx.specs.declared.moves.Move.TheVariants.{Fresh};
ghost use Rattle.sb_drive.specs.AttachCalls.{HandsUpIn, IsGivenMore};
ghost use Rattle.sb_drive.specs.Promises.{CostsAsPromised, HasBoxCause, MayAskFor};
ghost use Rattle.sb_drive.specs.Slots.{Slots, owned};
ghost use Rattle.sb_drive.specs.Spaces.{HoldsOf, IsFullFor, IsReadFault, IsRefused, Leaves, LeadsOn, UnlessDown, Wanted, WhereFull};
ghost use Rattle.sb_drive.specs.Turns.{IsEnd, OnFind};

use crate::space::{PageSpace, SpaceFault, store_edits};
use crate::turns::{Turn, is_find, turn_of};
use sb_ctx::{Ctx, Move};
use std::alloc::Global;

/// A call of a box on an instance, of whichever kind the box is.
pub(crate) trait BoxCall {
    ghost use Rattle.std.specs.Prelude.{◌≡◌, IsTrue, ◌↔◌};
    ghost use Rattle.sb_ctx.specs.MethodAnswers.{Reads};
    ghost use Rattle.sb_ctx.specs.View.{View, IsClean};
    ghost use Rattle.sb_drive.specs.Promises.{Promise, KeepsPromise};

    /// The box may be called so.
    ghost fits: { Self → Type 0 };

    /// It makes nothing of the pages.
    ghost reads: { Self → Type 0 };

    /// What it promises with the finds of the Ctx that it was handed.
    ghost promise: { Self → View → Promise };

    /// Makes the call once.
    fn make(&self, alloc: Global, ctx: &mut Ctx) -> Move
        requires clean { IsClean ctx.old }
        requires fits { fits self.now }

        ensures keeps { (handed : View) → ctx.old.found ≡ handed.found
            → KeepsPromise (promise self.now handed) ctx.old ctx.new result }
        ensures same { reads self.now → ctx.new ≡ ctx.old }
        ensures looks { reads self.now → Reads result };

    /// Whether it makes nothing of the pages.
    fn is_reading(&self) -> bool
        ensures { IsTrue result ↔ reads self.now };
}

/// Runs the call on the pages of an owner to its end, or to a find, which the caller answers into `ctx` before it makes the
/// call again. Refused where the box calls a page broken or wants memory, and where the space refuses a page or the edits.
pub(crate) fn run_call<S: PageSpace, C: BoxCall>(
    space: &mut S,
    alloc: Global,
    owner: u16,
    call: &C,
    ctx: &mut Ctx,
) -> Result<Move, SpaceFault>
    requires ready { S.is_ready space.old }
    requires fits { C.fits call.now }
    requires clean { IsClean ctx.old }
    requires holds { (want : Wanted) (s : Slots) → S.has want s space.old → HoldsOf s owner ctx.old }

    ensures answers { IfOk result (λ move. (want : Wanted) (s : Slots) → S.has want s space.old
        → Leaves S.has owner want s space.new (λ after. (C.promise call.now ctx.old).Answers (owned s owner) after move)) }
    ensures may { IfOk result (C.promise call.now ctx.old).MayEnd }
    ensures ends { IfOk result IsEnd }
    ensures find { IfOk result (λ move. OnFind move (HandsUpIn S.has S.leads owner space.old space.new ctx.new move)) }
    ensures found { ctx.new.found ≡ ctx.old.found }
    ensures asks { (want : Wanted) (s : Slots) → S.has want s space.old
        → IsGivenMore ctx.old ctx.new (MayAskFor (C.promise call.now ctx.old) (owned s owner)) }
    ensures others { UnlessDown result ((want : Wanted) (s : Slots) → S.has want s space.old
        → Leaves S.has owner want s space.new (λ after. Unit {0})) }
    ensures same { C.reads call.now → UnlessDown result ((want : Wanted) (s : Slots) → S.has want s space.old
        → S.has want s space.new) }
    ensures damaged { IfErr result (λ e. (want : Wanted) (s : Slots) → S.has want s space.old
        → HasBoxCause (C.promise call.now ctx.old) (owned s owner) e) }
    ensures full { IfErr result (λ e. (want : Wanted) (s : Slots) → S.has want s space.old
        → WhereFull e (IsFullFor S.leads S.durable S.total owner (C.promise call.now ctx.old).IsAsking
        (λ c. (C.promise call.now ctx.old).Spends (owned s owner) c Fresh) space.old s e)) }

    ensures leads { LeadsOn S.leads space.old space.new }
    ensures costs { CostsAsPromised S.has S.leads owner (C.promise call.now ctx.old) space.old space.new result }
    ensures reads { C.reads call.now → S.leads 0 space.old space.new }
    ensures looks { C.reads call.now → IfErr result IsReadFault }
    ensures refused { IfErr result (λ e. IsRefused (S.leads 0 space.old space.new) (S.fails e space.old space.new) e) }
    ensures ready { S.is_ready space.new }
{
    loop {
        let made = call.make(alloc, ctx);
        ctx.is_ctx();
        match turn_of(made) {
            Turn::Give(ask) => space.answer(owner, ctx, ask)?,
            Turn::Stop(fault) => return Err(fault),
            Turn::End(end) => {
                if is_find(&end) {
                    ctx.drop_edits();
                    return Ok(end);
                }
                store_edits(space, alloc, owner, ctx, call.is_reading())?;
                return Ok(end);
            }
        }
    }
}
