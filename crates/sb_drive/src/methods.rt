//! Driven calls of storage methods.

ghost use Rattle.std.specs.Prelude.{◌≡◌, IfOk, IfErr};
ghost use Rattle.sb_ctx.specs.Db.{Rows};
ghost use Rattle.sb_ctx.specs.Method.{IsInstance};
ghost use Rattle.sb_ctx.specs.MethodAnswers.{Answers, Before, Changes, MayEnd, Reads};
ghost use Rattle.sb_ctx.specs.View.{IsClean};
ghost use Rattle.sb_drive.specs.MethodCalls.{Fits, IsAsking, IsReading, HasRoomFor, HasSpaceCause, CostsBy, promise_of};
ghost use Rattle.sb_drive.specs.Slots.{Slots, owned};
ghost use Rattle.sb_drive.specs.Spaces.{IsFullFor, IsReadFault, IsRefused, Leaves, LeadsOn, UnlessDown, Wanted, WhereFull};
ghost use Rattle.sb_drive.specs.Turns.{IsEnd};

use crate::driving::{BoxCall, run_call};
use crate::space::{PageSpace, SpaceFault};
use sb_ctx::{Ctx, Instance, MethodCall, Move, StorageMethod};
use std::alloc::Global;

/// Runs one call of a storage method to its end on the pages of the instance's owner. Refused where the box calls a
/// page broken or wants memory, and where the space refuses a page or the edits.
pub fn run_method<S: PageSpace>(
    space: &mut S,
    alloc: Global,
    boxed: &dyn StorageMethod,
    inst: &Instance,
    call: &MethodCall,
) -> Result<Move, SpaceFault>
    requires ready { S.is_ready space.old }
    requires inst { IsInstance (method boxed.now) inst.now }
    requires fits { Fits (method boxed.now) inst.now call.now }

    ensures answers { IfOk result (λ move. (want : Wanted) (s : Slots) → S.has want s space.old
        → Leaves S.has inst.now.owner want s space.new
        (λ after. Answers (method boxed.now) inst.now call.now (owned s inst.now.owner) after move)) }
    ensures may { IfOk result (MayEnd inst.now call.now) }
    ensures ends { IfOk result IsEnd }
    ensures others { UnlessDown result ((want : Wanted) (s : Slots) → S.has want s space.old
        → Leaves S.has inst.now.owner want s space.new (λ after. Unit {0})) }
    ensures same { IsReading call.now → UnlessDown result ((want : Wanted) (s : Slots) → S.has want s space.old
        → S.has want s space.new) }
    ensures damaged { IfErr result (λ e. (want : Wanted) (s : Slots) → S.has want s space.old
        → HasSpaceCause (method boxed.now) inst.now call.now (owned s inst.now.owner) e) }
    ensures full { IfErr result (λ e. (want : Wanted) (s : Slots) → S.has want s space.old
        → WhereFull e (IsFullFor S.leads S.durable S.total inst.now.owner (IsAsking (method boxed.now) inst.now call.now)
        (HasRoomFor (method boxed.now) inst.now call.now (owned s inst.now.owner)) space.old s e)) }

    ensures leads { LeadsOn S.leads space.old space.new }
    ensures costs { (want : Wanted) (s : Slots) (rows : Rows) → S.has want s space.old
        → Before (method boxed.now) inst.now call.now (owned s inst.now.owner) rows
        → CostsBy S.leads (method boxed.now) inst.now call.now rows space.old space.new result }
    ensures reads { IsReading call.now → S.leads 0 space.old space.new }
    ensures looks { IsReading call.now → IfErr result IsReadFault }
    ensures refused { IfErr result (λ e. IsRefused (S.leads 0 space.old space.new) (S.fails e space.old space.new) e) }
    ensures ready { S.is_ready space.new }
{
    let mut ctx = Ctx::new(alloc);
    run_call(
        space,
        alloc,
        inst.owner,
        &MethodOn { boxed, inst, call },
        &mut ctx,
    )
}

/// A call of a storage method on an instance.
#[derive(Drop)]
struct MethodOn<'a, B> {
    boxed: B,
    inst: &'a Instance,
    call: &'a MethodCall,
}

impl<'a> BoxCall for MethodOn<'a, &'a dyn StorageMethod> {
    ghost fits = { λ t. IsInstance ((StorageMethod-dyn t.boxed.now).method t.boxed.now.1) t.inst.now
        × Fits ((StorageMethod-dyn t.boxed.now).method t.boxed.now.1) t.inst.now t.call.now };

    ghost reads = { λ t. IsReading t.call.now };

    ghost promise = { λ t handed. promise_of ((StorageMethod-dyn t.boxed.now).method t.boxed.now.1) t.inst.now t.call.now };

    fn make(&self, alloc: Global, ctx: &mut Ctx) -> Move {
        make_call(self.boxed, alloc, ctx, self.inst, self.call)
    }

    fn is_reading(&self) -> bool {
        matches!(self.call, MethodCall::Get(_) | MethodCall::Next(_))
    }
}

/// Makes the call once.
fn make_call(
    boxed: &dyn StorageMethod,
    alloc: Global,
    ctx: &mut Ctx,
    inst: &Instance,
    call: &MethodCall,
) -> Move
    requires clean { IsClean ctx.old }
    requires inst { IsInstance (method boxed.now) inst.now }
    requires fits { Fits (method boxed.now) inst.now call.now }
    ensures changes { Changes (method boxed.now) inst.now call.now ctx.old ctx.new result }
    ensures reads { IsReading call.now → ctx.new ≡ ctx.old }
    ensures looks { IsReading call.now → Reads result }
{
    match call {
        MethodCall::Prepare => boxed.prepare(alloc, ctx, inst),
        MethodCall::Insert(tuple) => boxed.insert(alloc, ctx, inst, tuple),
        MethodCall::Delete(key) => boxed.delete(alloc, ctx, inst, key),
        MethodCall::Update(key, tuple) => boxed.update(alloc, ctx, inst, key, tuple),
        MethodCall::Get(key) => boxed.get(alloc, ctx, inst, key),
        MethodCall::Next(after) => boxed.next(alloc, ctx, inst, after.as_ref()),
    }
}
