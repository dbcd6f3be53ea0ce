//! The trait of attachments.

ghost use Rattle.std.specs.Prelude.{◌≡◌, true, option_map};
ghost use Rattle.sb_forms.specs.Keys.{is_record_key};
ghost use Rattle.sb_ctx.specs.View.{IsClean};
ghost use Rattle.sb_ctx.specs.Attachment.{Attachment as Meaning, IsInstance, IsQuery, MayHold, MayMeet};
ghost use Rattle.sb_ctx.specs.AttachAnswers.{Changes, Looks};
ghost use Rattle.sb_ctx.specs.Laws.{IsAttachment};
ghost use Rattle.sb_ctx.specs.declared.calls.AttachCall.TheVariants.{Prepare, Build, Changed, Late, NextEntry, Sums, Seek};

use crate::{Ctx, Instance, Move};
use sb_forms::Change;
use sb_value::{Bytes, RecKey, Schema, Tuple};
use std::alloc::Global;

/// An access path, a constraint or a trigger, which watches the changes of a relation (Lindsay, McPherson and Pirahesh
/// 1987). Each call sees the pages that the Ctx holds. It ends, or asks for what it lacks and is then made again from the
/// beginning, without its edits.
pub trait Attachment: Drop {
    ghost attachment: { Self → Meaning };

    /// 1 to 7 for the standard attachments, 1,000 or more for one of another author.
    fn code(&self) -> u16
        ensures code { result ≡ (attachment self.now).rules.code }
        ensures law { IsAttachment (attachment self.now) };

    /// Whether it may stand on a relation of these columns with this desc. Asked of foreign attachments alone.
    fn fits(&self, schema: &Schema, desc: &Bytes) -> bool
        ensures { result ≡ (attachment self.now).rules.fits schema.now desc.now };

    /// Makes the content of a new instance, of a root of zeros, that over no rows: Done.
    fn prepare(&self, alloc: Global, ctx: &mut Ctx, inst: &Instance) -> Move
        requires clean { IsClean ctx.old }
        requires inst { IsInstance (attachment self.now) inst.now }
        ensures { Changes (attachment self.now) inst.now Prepare ctx.old ctx.new result };

    /// Adds a row that stands to the content, while the attachment is made: Done or Veto.
    fn on_build(
        &self,
        alloc: Global,
        ctx: &mut Ctx,
        inst: &Instance,
        key: &RecKey,
        tuple: &Tuple,
    ) -> Move
        requires clean { IsClean ctx.old }
        requires inst { IsInstance (attachment self.now) inst.now }
        requires row { MayHold (attachment self.now) inst.now tuple.now }
        requires key { is_record_key key.now ≡ true }
        ensures { Changes (attachment self.now) inst.now (Build key.now tuple.now) ctx.old ctx.new result };

    /// Follows a change that the storage method has made: Done, Acts with what follows from it, or Veto.
    fn on_change(&self, alloc: Global, ctx: &mut Ctx, inst: &Instance, change: &Change) -> Move
        requires clean { IsClean ctx.old }
        requires inst { IsInstance (attachment self.now) inst.now }
        requires change { MayMeet (attachment self.now) inst.now change.now }
        ensures { Changes (attachment self.now) inst.now (Changed change.now) ctx.old ctx.new result };

    /// Tests an entry that was left for the commit: Done or Veto.
    fn late_check(&self, alloc: Global, ctx: &mut Ctx, inst: &Instance, entry: &Bytes) -> Move
        requires clean { IsClean ctx.old }
        requires inst { IsInstance (attachment self.now) inst.now }
        ensures { Looks (attachment self.now) inst.now (Late entry.now) ctx.old ctx.new result };

    /// The least entry whose first part isn't below `low` and that is above `after`: Entry or End.
    fn next_entry(
        &self,
        alloc: Global,
        ctx: &mut Ctx,
        inst: &Instance,
        low: &RecKey,
        after: Option<&(RecKey, RecKey)>,
    ) -> Move
        requires clean { IsClean ctx.old }
        requires inst { IsInstance (attachment self.now) inst.now }
        ensures { Looks (attachment self.now) inst.now (NextEntry low.now (option_map (λ entry. entry.now) after.entry)) ctx.old ctx.new result };

    /// The sums of the content: Sums.
    fn sums(&self, alloc: Global, ctx: &mut Ctx, inst: &Instance) -> Move
        requires clean { IsClean ctx.old }
        requires inst { IsInstance (attachment self.now) inst.now }
        ensures { Looks (attachment self.now) inst.now Sums ctx.old ctx.new result };

    /// The record keys of the rows that a query of four numbers finds, rising: Hits. A box without searches finds none.
    fn seek(&self, alloc: Global, ctx: &mut Ctx, inst: &Instance, query: &Tuple) -> Move
        requires clean { IsClean ctx.old }
        requires inst { IsInstance (attachment self.now) inst.now }
        requires query { IsQuery query.now }
        ensures { Looks (attachment self.now) inst.now (Seek query.now) ctx.old ctx.new result };
}
