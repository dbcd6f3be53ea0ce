//! Driven calls of attachments.

ghost use Rattle.std.specs.Prelude.{◌≡◌, IsTrue, ◌↔◌, IfOk, IfErr};
ghost use Rattle.sb_ctx.specs.Attachment.{IsInstance};
ghost use Rattle.sb_ctx.specs.AttachAnswers.{Answers, Changes, MayEnd, Reads, Spends};
ghost use Rattle.sb_ctx.specs.View.{IsClean};
ghost use Rattle.sb_ctx.specs.declared.moves.Move.TheVariants.{Fresh};
ghost use Rattle.sb_drive.specs.AttachCalls.{CostsIn, Fits, IsAskedFor, IsAsking, IsGivenMore, IsReading, HandsUpIn, HasSpaceCause, promise_of};
ghost use Rattle.sb_drive.specs.Slots.{Slots, owned};
ghost use Rattle.sb_drive.specs.Spaces.{HoldsOf, IsFullFor, IsReadFault, IsRefused, Leaves, LeadsOn, UnlessDown, Wanted, WhereFull};
ghost use Rattle.sb_drive.specs.Turns.{IsEnd, OnFind};

use crate::driving::{BoxCall, run_call};
use crate::space::{PageSpace, SpaceFault};
use sb_ctx::{AttachCall, Attachment, Ctx, Instance, Move};
use std::alloc::Global;

/// Runs one call of an attachment on the pages of the instance's owner to its end, or to a find, which the caller
/// answers into `ctx` before it makes the call again.
pub fn run_attachment<S: PageSpace>(
    space: &mut S,
    alloc: Global,
    boxed: &dyn Attachment,
    inst: &Instance,
    call: &AttachCall,
    ctx: &mut Ctx,
) -> Result<Move, SpaceFault>
    requires ready { S.is_ready space.old }
    requires inst { IsInstance (attachment boxed.now) inst.now }
    requires fits { Fits (attachment boxed.now) inst.now call.now }
    requires clean { IsClean ctx.old }
    requires holds { (want : Wanted) (s : Slots) → S.has want s space.old → HoldsOf s inst.now.owner ctx.old }

    ensures answers { IfOk result (λ move. (want : Wanted) (s : Slots) → S.has want s space.old
        → Leaves S.has inst.now.owner want s space.new
        (λ after. Answers (attachment boxed.now) inst.now call.now ctx.old (owned s inst.now.owner) after move)) }
    ensures may { IfOk result (MayEnd call.now) }
    ensures ends { IfOk result IsEnd }
    ensures find { IfOk result (λ move. OnFind move (HandsUpIn S.has S.leads inst.now.owner space.old space.new ctx.new move)) }
    ensures found { ctx.new.found ≡ ctx.old.found }
    ensures asks { (want : Wanted) (s : Slots) → S.has want s space.old
        → IsGivenMore ctx.old ctx.new (λ n. IsAskedFor (attachment boxed.now) inst.now call.now ctx.old (owned s inst.now.owner) n) }
    ensures others { UnlessDown result ((want : Wanted) (s : Slots) → S.has want s space.old
        → Leaves S.has inst.now.owner want s space.new (λ after. Unit {0})) }
    ensures same { IsReading call.now → UnlessDown result ((want : Wanted) (s : Slots) → S.has want s space.old
        → S.has want s space.new) }
    ensures damaged { IfErr result (λ e. (want : Wanted) (s : Slots) → S.has want s space.old
        → HasSpaceCause (attachment boxed.now) inst.now call.now (owned s inst.now.owner) e) }
    ensures full { IfErr result (λ e. (want : Wanted) (s : Slots) → S.has want s space.old
        → WhereFull e (IsFullFor S.leads S.durable S.total inst.now.owner (IsAsking (attachment boxed.now) inst.now call.now ctx.old)
        (λ c. Spends (attachment boxed.now) inst.now call.now ctx.old (owned s inst.now.owner) c Fresh) space.old s e)) }

    ensures leads { LeadsOn S.leads space.old space.new }
    ensures costs { CostsIn S.has S.leads (attachment boxed.now) inst.now call.now space.old space.new ctx.old }
    ensures reads { IsReading call.now → S.leads 0 space.old space.new }
    ensures looks { IsReading call.now → IfErr result IsReadFault }
    ensures refused { IfErr result (λ e. IsRefused (S.leads 0 space.old space.new) (S.fails e space.old space.new) e) }
    ensures ready { S.is_ready space.new }
{
    run_call(
        space,
        alloc,
        inst.owner,
        &AttachmentOn { boxed, inst, call },
        ctx,
    )
}

/// A call of an attachment on an instance.
#[derive(Drop)]
struct AttachmentOn<'a, B> {
    boxed: B,
    inst: &'a Instance,
    call: &'a AttachCall,
}

impl<'a> BoxCall for AttachmentOn<'a, &'a dyn Attachment> {
    ghost fits = { λ t. IsInstance ((Attachment-dyn t.boxed.now).attachment t.boxed.now.1) t.inst.now
        × Fits ((Attachment-dyn t.boxed.now).attachment t.boxed.now.1) t.inst.now t.call.now };

    ghost reads = { λ t. IsReading t.call.now };

    ghost promise = { λ t handed. promise_of ((Attachment-dyn t.boxed.now).attachment t.boxed.now.1) t.inst.now t.call.now handed };

    fn make(&self, alloc: Global, ctx: &mut Ctx) -> Move {
        make_call(self.boxed, alloc, ctx, self.inst, self.call)
    }

    fn is_reading(&self) -> bool {
        matches!(
            self.call,
            AttachCall::Late(_)
                | AttachCall::NextEntry(_, _)
                | AttachCall::Sums
                | AttachCall::Seek(_)
        )
    }
}

/// Makes the call once.
fn make_call(
    boxed: &dyn Attachment,
    alloc: Global,
    ctx: &mut Ctx,
    inst: &Instance,
    call: &AttachCall,
) -> Move
    requires clean { IsClean ctx.old }
    requires inst { IsInstance (attachment boxed.now) inst.now }
    requires fits { Fits (attachment boxed.now) inst.now call.now }
    ensures changes { Changes (attachment boxed.now) inst.now call.now ctx.old ctx.new result }
    ensures reads { IsReading call.now → ctx.new ≡ ctx.old }
    ensures looks { IsReading call.now → Reads call.now result }
{
    match call {
        AttachCall::Prepare => boxed.prepare(alloc, ctx, inst),
        AttachCall::Build(key, tuple) => boxed.on_build(alloc, ctx, inst, key, tuple),
        AttachCall::Changed(change) => boxed.on_change(alloc, ctx, inst, change),
        AttachCall::Late(entry) => boxed.late_check(alloc, ctx, inst, entry),
        AttachCall::NextEntry(low, after) => {
            boxed.next_entry(alloc, ctx, inst, low, after.as_ref())
        }
        AttachCall::Sums => boxed.sums(alloc, ctx, inst),
        AttachCall::Seek(query) => boxed.seek(alloc, ctx, inst, query),
    }
}
