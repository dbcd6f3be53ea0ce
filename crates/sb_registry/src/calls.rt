//! Calls of live boxes by their codes.

ghost use Rattle.std.specs.Prelude.{◌≡◌, ◌↔◌, IsTrue, Some, is_some, option_map, IfOk};
ghost use Rattle.sb_drive.specs.Fits.{foreign_rule_fits, is_empty, method_fits};
ghost use Rattle.sb_drive.specs.Attachment.{Attachment as Rule, IsInstance as IsAttached};
ghost use Rattle.sb_drive.specs.AttachAnswers.{MayEnd as MayEndFor};
ghost use Rattle.sb_drive.specs.Laws.{IsMethod, IsAttachment};
ghost use Rattle.sb_drive.specs.Method.{Method, IsInstance};
ghost use Rattle.sb_drive.specs.MethodAnswers.{MayEnd};
ghost use Rattle.sb_drive.specs.View.{IsClean};
ghost use Rattle.sb_drive.specs.AttachCalls.{Fits as FitsFor, IsReading as IsReadingFor};
ghost use Rattle.sb_drive.specs.MethodCalls.{Fits, IsReading};
ghost use Rattle.sb_drive.specs.Slots.{Slots};
ghost use Rattle.sb_drive.specs.Spaces.{HoldsOf, Wanted};
ghost use Rattle.sb_drive.specs.Turns.{IsEnd};
ghost use Rattle.sb_registry.specs.Boxes.{attachment_of, method_of};
ghost use Rattle.sb_registry.specs.Live.{IsLive, IsLiveRule, MayAsk};
ghost use Rattle.sb_registry.specs.Runs.{Looks, Runs, RunsRule, Works};

use crate::Registry;
use crate::columns::has_columns;
use sb_drive::{
    AttachCall, Attachment, Ctx, Instance, MethodCall, Move, PageSpace, SpaceFault, StorageMethod,
    run_attachment, run_method,
};
use sb_value::{Bytes, Names, Schema};
use std::alloc::Global;

/// The code of the tree, which wants a key.
const TREE: u16 = 2;

/// The least code of another author.
const FIRST_FOREIGN: u16 = 1000;

/// Live boxes by their codes, as they are called over a space of pages. What holds them lends none.
pub trait Boxes {
    ghost use Rattle.sb_registry.specs.Boxes.{Meanings};

    ghost meanings: { Self → Meanings };

    /// Whether a live storage method keeps this instance.
    fn keeps(&self, inst: &Instance) -> bool
        ensures { IsTrue result ↔ IsLive (meanings self.now) inst.now };

    /// Whether relations of a live storage method outlive the run.
    fn is_durable(&self, code: u16) -> Option<bool>
        ensures { result ≡ option_map (λ m. m.rules.durable) (method_of code (meanings self.now).methods) };

    /// Whether an attachment is live.
    fn has_rule(&self, code: u16) -> bool
        ensures { result ≡ is_some (attachment_of code (meanings self.now).attachments) };

    /// Whether the live attachment of a code says that it may stand on these columns with this desc; asked of foreign rules.
    fn fits_rule(&self, code: u16, schema: &Schema, desc: &Bytes) -> bool
        ensures { result ≡ foreign_rule_fits (option_map (λ a. a.rules) (attachment_of code (meanings self.now).attachments)) schema.now desc.now };

    /// Nothing is done: what is so of a live storage method is learnt.
    fn learn_method(&self, code: u16)
        ensures { (box : Method) → method_of code (meanings self.now).methods ≡ Some box → IsMethod box };

    /// Nothing is done: what is so of a live attachment is learnt.
    fn learn_rule(&self, code: u16)
        ensures { (box : Rule) → attachment_of code (meanings self.now).attachments ≡ Some box → IsAttachment box };

    /// Makes a call of the live storage method of the instance's code.
    fn run_method<S: PageSpace>(
        &self,
        space: &mut S,
        alloc: Global,
        inst: &Instance,
        call: &MethodCall,
    ) -> Result<Move, SpaceFault>
        requires ready { S.is_ready space.old }
        requires live { IsLive (meanings self.now) inst.now }
        requires fits { MayAsk inst.now call.now }

        ensures runs { (live : IsLive (meanings self.now) inst.now)
            → Runs S.has S.leads S.durable S.total live.box inst.now call.now space.old space.new result }
        ensures may { IfOk result (MayEnd inst.now call.now) }
        ensures ends { IfOk result IsEnd }
        ensures works { Works S.has S.leads S.fails S.durable S.total inst.now.owner space.old space.new result }
        ensures looks { IsReading call.now → Looks S.has S.leads S.fails space.old space.new result }
        ensures ready { S.is_ready space.new };

    /// Makes a call of the live attachment of the instance's code, to its end or to a find, which the caller answers into
    /// `ctx` before it makes the call again.
    fn run_attachment<S: PageSpace>(
        &self,
        space: &mut S,
        alloc: Global,
        inst: &Instance,
        call: &AttachCall,
        ctx: &mut Ctx,
    ) -> Result<Move, SpaceFault>
        requires ready { S.is_ready space.old }
        requires live { IsLiveRule (meanings self.now) inst.now }
        requires fits { (live : IsLiveRule (meanings self.now) inst.now) → FitsFor live.box inst.now call.now }
        requires clean { IsClean ctx.old }
        requires holds { (want : Wanted) (s : Slots) → S.has want s space.old → HoldsOf s inst.now.owner ctx.old }

        ensures runs { (live : IsLiveRule (meanings self.now) inst.now)
            → RunsRule S.has S.leads S.durable S.total live.box inst.now call.now ctx.old ctx.new space.old space.new result }
        ensures may { IfOk result (MayEndFor call.now) }
        ensures ends { IfOk result IsEnd }
        ensures found { ctx.new.found ≡ ctx.old.found }
        ensures works { Works S.has S.leads S.fails S.durable S.total inst.now.owner space.old space.new result }
        ensures looks { IsReadingFor call.now → Looks S.has S.leads S.fails space.old space.new result }
        ensures ready { S.is_ready space.new };
}

impl Boxes for Registry {
    ghost use Rattle.sb_registry.specs.Boxes.{meanings as meanings_of};

    ghost meanings = { λ r. meanings_of (λ b. (StorageMethod-box b).method b.value) (λ b. (Attachment-box b).attachment b.value) r.exts };

    fn keeps(&self, inst: &Instance) -> bool {
        match self.method(inst.code) {
            Some(boxed) => {
                law_of(boxed);
                may_keep(boxed, inst)
            }
            None => false,
        }
    }

    fn is_durable(&self, code: u16) -> Option<bool> {
        let boxed = self.method(code)?;
        Some(boxed.durable())
    }

    fn has_rule(&self, code: u16) -> bool {
        self.attachment(code).is_some()
    }

    fn fits_rule(&self, code: u16, schema: &Schema, desc: &Bytes) -> bool {
        match self.attachment(code) {
            Some(boxed) => boxed.fits(schema, desc),
            None => false,
        }
    }

    fn learn_method(&self, code: u16) {
        if let Some(boxed) = self.method(code) {
            law_of(boxed);
        }
    }

    fn learn_rule(&self, code: u16) {
        if let Some(boxed) = self.attachment(code) {
            law_of_rule(boxed);
        }
    }

    fn run_method<S: PageSpace>(
        &self,
        space: &mut S,
        alloc: Global,
        inst: &Instance,
        call: &MethodCall,
    ) -> Result<Move, SpaceFault> {
        match self.method(inst.code) {
            Some(boxed) => call_method(space, alloc, boxed, inst, call),
            None => unreachable!(),
        }
    }

    fn run_attachment<S: PageSpace>(
        &self,
        space: &mut S,
        alloc: Global,
        inst: &Instance,
        call: &AttachCall,
        ctx: &mut Ctx,
    ) -> Result<Move, SpaceFault> {
        match self.attachment(inst.code) {
            Some(boxed) => call_attachment(space, alloc, boxed, inst, call, ctx),
            None => unreachable!(),
        }
    }
}

/// Nothing is done: what is so of every box is learnt from the call of its code.
fn law_of(boxed: &dyn StorageMethod)
    ensures { IsMethod (method boxed.now) }
{
    let _code = boxed.code();
}

fn law_of_rule(boxed: &dyn Attachment)
    ensures { IsAttachment (attachment boxed.now) }
{
    let _code = boxed.code();
}

/// Whether the box keeps the instance.
fn may_keep(boxed: &dyn StorageMethod, inst: &Instance) -> bool
    ensures { IsTrue result ↔ IsInstance (method boxed.now) inst.now }
{
    inst.code == boxed.code()
        && inst.durable == boxed.durable()
        && inst.desc.is_empty()
        && inst.owner != 0
        && has_columns(&inst.schema, inst.key.as_slice())
        && method_fits(boxed, &inst.schema, &inst.key)
}

/// Whether the box keeps relations of these columns and this key. One of another author says so itself.
fn method_fits(boxed: &dyn StorageMethod, schema: &Schema, key: &Names) -> bool
    ensures { result ≡ method_fits (Some (method boxed.now).rules) (method boxed.now).rules.code schema.now key.now }
{
    let code = boxed.code();
    if code == TREE {
        !is_keyless(key)
    } else if code < FIRST_FOREIGN {
        is_keyless(key)
    } else {
        boxed.fits(schema, key)
    }
}

fn is_keyless(key: &Names) -> bool
    ensures { result ≡ is_empty key.now }
{
    match key.as_slice() {
        [] => true,
        _ => false,
    }
}

/// Makes a call of this box.
fn call_method<S: PageSpace>(
    space: &mut S,
    alloc: Global,
    boxed: &dyn StorageMethod,
    inst: &Instance,
    call: &MethodCall,
) -> Result<Move, SpaceFault>
    requires ready { S.is_ready space.old }
    requires inst { IsInstance (method boxed.now) inst.now }
    requires fits { Fits (method boxed.now) inst.now call.now }

    ensures runs { Runs S.has S.leads S.durable S.total (method boxed.now) inst.now call.now space.old space.new result }
    ensures may { IfOk result (MayEnd inst.now call.now) }
    ensures ends { IfOk result IsEnd }
    ensures works { Works S.has S.leads S.fails S.durable S.total inst.now.owner space.old space.new result }
    ensures looks { IsReading call.now → Looks S.has S.leads S.fails space.old space.new result }
    ensures ready { S.is_ready space.new }
{
    law_of(boxed);
    run_method(space, alloc, boxed, inst, call)
}

/// The same of an attachment.
fn call_attachment<S: PageSpace>(
    space: &mut S,
    alloc: Global,
    boxed: &dyn Attachment,
    inst: &Instance,
    call: &AttachCall,
    ctx: &mut Ctx,
) -> Result<Move, SpaceFault>
    requires ready { S.is_ready space.old }
    requires inst { IsAttached (attachment boxed.now) inst.now }
    requires fits { FitsFor (attachment boxed.now) inst.now call.now }
    requires clean { IsClean ctx.old }
    requires holds { (want : Wanted) (s : Slots) → S.has want s space.old → HoldsOf s inst.now.owner ctx.old }

    ensures runs { RunsRule S.has S.leads S.durable S.total (attachment boxed.now) inst.now call.now ctx.old ctx.new space.old space.new result }
    ensures may { IfOk result (MayEndFor call.now) }
    ensures ends { IfOk result IsEnd }
    ensures found { ctx.new.found ≡ ctx.old.found }
    ensures works { Works S.has S.leads S.fails S.durable S.total inst.now.owner space.old space.new result }
    ensures looks { IsReadingFor call.now → Looks S.has S.leads S.fails space.old space.new result }
    ensures ready { S.is_ready space.new }
{
    law_of_rule(boxed);
    run_attachment(space, alloc, boxed, inst, call, ctx)
}
