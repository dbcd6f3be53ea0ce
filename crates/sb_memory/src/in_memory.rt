//! A memory as a space of pages, and the drivers over it.

ghost use Rattle.std.specs.Prelude.{◌≡◌, IfOk, IfErr, OnErr};
ghost use Rattle.sb_ctx.specs.Attachment.{IsInstance as IsAttached};
ghost use Rattle.sb_ctx.specs.AttachAnswers.{Answers as AnswersFor, MayEnd as MayEndFor};
ghost use Rattle.sb_ctx.specs.Method.{IsInstance};
ghost use Rattle.sb_ctx.specs.MethodAnswers.{Answers, MayEnd};
ghost use Rattle.sb_ctx.specs.View.{IsClean};
ghost use Rattle.sb_drive.specs.AttachCalls.{Fits as FitsFor, IsReading as IsReadingFor};
ghost use Rattle.sb_memory.specs.AttachCalls.{HandsUp, HasCause as HasCauseFor};
ghost use Rattle.sb_drive.specs.MethodCalls.{Fits, IsReading};
ghost use Rattle.sb_memory.specs.MethodCalls.{HasCause};
ghost use Rattle.sb_memory.specs.Contents.{Keeps, pages_of, slots};
ghost use Rattle.sb_drive.specs.Spaces.{HoldsOf};
ghost use Rattle.sb_drive.specs.Turns.{IsEnd, OnFind};

use crate::asks::answer;
use crate::faults::DriveFault;
use crate::memory::Memory;
use crate::stores::store;
use sb_ctx::{AttachCall, Attachment, Ctx, Instance, MethodCall, Move, StorageMethod};
use sb_drive::{Ask, PageSpace, SpaceFault, run_attachment, run_method};
use std::alloc::Global;

impl PageSpace for Memory {
    ghost use Rattle.std.specs.Prelude.{◌≡◌, false, refl};
    ghost use Rattle.std.proofs.Common.{◌∙◌};
    ghost use Rattle.sb_memory.specs.MemorySpaces.{HasPages, IsChanged, IsMemoryFault, IsChanged-same, IsChanged-on, HasPages-few, HasPages-tabled};

    ghost is_ready = { λ m. Unit {0} };

    ghost has = { λ want s m. HasPages s m };

    ghost total = { λ m. 16384 };

    ghost durable = { λ m. false };

    ghost table = { λ m. 16384 };

    ghost leads = { λ k a b. IsChanged k a b };

    ghost spent = { λ n a. Unit {0} };

    ghost fails = { λ e a b. (b ≡ a) × IsMemoryFault e };

    ghost stays = { λ a. IsChanged-same a };

    ghost goes_on = { λ k l a b c first second. IsChanged-on k l a b c first second };

    ghost spends = { λ n k a b leads spent. tt };

    ghost fails_on = { λ e a b c first second. (second.0 ∙ first.none refl, second.1) };

    ghost whole = { λ want s a there. there.whole };

    ghost few = { λ want s a there. HasPages-few s a there };

    ghost tabled = { λ want s a there. HasPages-tabled s a there };

    fn answer(&mut self, owner: u16, ctx: &mut Ctx, ask: Ask) -> Result<(), SpaceFault> {
        answer(self, owner, ctx, ask)
    }

    #[tactic(auto, unfolding(crate::specs::MemorySpaces::IsMemoryFault))]
    fn store(&mut self, alloc: Global, owner: u16, ctx: &Ctx) -> Result<(), SpaceFault> {
        store(self, alloc, owner, ctx)?;
        self.are_pages();
        Ok(())
    }
}

/// Runs one call of a storage method to its end on the pages of the instance's owner.
pub fn drive_method(
    memory: &mut Memory,
    alloc: Global,
    boxed: &dyn StorageMethod,
    inst: &Instance,
    call: &MethodCall,
) -> Result<Move, DriveFault>
    requires inst { IsInstance (method boxed.now) inst.now }
    requires fits { Fits (method boxed.now) inst.now call.now }
    ensures answers { IfOk result (λ move. Answers (method boxed.now) inst.now call.now
        (pages_of memory.old.now inst.now.owner) (pages_of memory.new.now inst.now.owner) move) }
    ensures may { IfOk result (MayEnd inst.now call.now) }
    ensures ends { IfOk result IsEnd }
    ensures others { Keeps inst.now.owner memory.old memory.new }
    ensures reads { IsReading call.now → memory.new ≡ memory.old }
    ensures err { OnErr result (memory.new ≡ memory.old) }
    ensures damaged { IfErr result (HasCause (method boxed.now) inst.now call.now (pages_of memory.old.now inst.now.owner)) }
{
    memory.are_pages();
    Ok(run_method(memory, alloc, boxed, inst, call)?)
}

/// Runs one call of an attachment on the pages of the instance's owner to its end, or to a find, which the caller
/// answers into `ctx` before it makes the call again.
pub fn drive_attachment(
    memory: &mut Memory,
    alloc: Global,
    boxed: &dyn Attachment,
    inst: &Instance,
    call: &AttachCall,
    ctx: &mut Ctx,
) -> Result<Move, DriveFault>
    requires inst { IsAttached (attachment boxed.now) inst.now }
    requires fits { FitsFor (attachment boxed.now) inst.now call.now }
    requires clean { IsClean ctx.old }
    requires holds { HoldsOf (slots memory.old.now) inst.now.owner ctx.old }
    ensures answers { IfOk result (λ move. AnswersFor (attachment boxed.now) inst.now call.now ctx.old
        (pages_of memory.old.now inst.now.owner) (pages_of memory.new.now inst.now.owner) move) }
    ensures may { IfOk result (MayEndFor call.now) }
    ensures ends { IfOk result IsEnd }
    ensures find { IfOk result (λ move. OnFind move (HandsUp inst.now.owner memory.old memory.new ctx.new move)) }
    ensures found { ctx.new.found ≡ ctx.old.found }

    ensures others { Keeps inst.now.owner memory.old memory.new }
    ensures reads { IsReadingFor call.now → memory.new ≡ memory.old }
    ensures err { OnErr result (memory.new ≡ memory.old) }
    ensures damaged { IfErr result (HasCauseFor (attachment boxed.now) inst.now call.now (pages_of memory.old.now inst.now.owner)) }
{
    memory.are_pages();
    Ok(run_attachment(memory, alloc, boxed, inst, call, ctx)?)
}
