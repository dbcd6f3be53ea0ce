//! The trait of storage methods.

ghost use Rattle.std.specs.Prelude.{◌≡◌, option_map};
ghost use Rattle.sb_ctx.specs.View.{IsClean};
ghost use Rattle.sb_ctx.specs.Method.{Method, IsInstance, MayHold};
ghost use Rattle.sb_ctx.specs.MethodAnswers.{Changes, Looks};
ghost use Rattle.sb_ctx.specs.Laws.{IsMethod};
ghost use Rattle.sb_ctx.specs.declared.calls.MethodCall.TheVariants.{Prepare, Insert, Delete, Update, Get, Next};

use crate::{Ctx, Instance, Move};
use sb_value::{Names, RecKey, Schema, Tuple};
use std::alloc::Global;

/// A way to store the rows of a relation in pages (Lindsay, McPherson and Pirahesh 1987). Each call sees the pages that the
/// Ctx holds. It ends, or asks for what it lacks and is then made again from the beginning, without its edits.
pub trait StorageMethod: Drop {
    ghost method: { Self → Method };

    /// 1 to 3 for heap, tree and temp, 1,000 or more for a method of another author.
    fn code(&self) -> u16
        ensures code { result ≡ (method self.now).rules.code }
        ensures law { IsMethod (method self.now) };

    /// Whether its relations outlive a run.
    fn durable(&self) -> bool
        ensures { result ≡ (method self.now).rules.durable };

    /// Whether it keeps relations of these columns and this key. Asked of foreign methods alone.
    fn fits(&self, schema: &Schema, key: &Names) -> bool
        ensures { result ≡ (method self.now).rules.fits schema.now key.now };

    /// Makes a new instance, of a root of zeros, one without rows: Done.
    fn prepare(&self, alloc: Global, ctx: &mut Ctx, inst: &Instance) -> Move
        requires clean { IsClean ctx.old }
        requires inst { IsInstance (method self.now) inst.now }
        ensures { Changes (method self.now) inst.now Prepare ctx.old ctx.new result };

    /// Adds a row: Key with its record key, Duplicate or Range.
    fn insert(&self, alloc: Global, ctx: &mut Ctx, inst: &Instance, tuple: &Tuple) -> Move
        requires clean { IsClean ctx.old }
        requires inst { IsInstance (method self.now) inst.now }
        requires row { MayHold (method self.now) inst.now tuple.now }
        ensures { Changes (method self.now) inst.now (Insert tuple.now) ctx.old ctx.new result };

    /// Takes a row out: Done or NoRecord.
    fn delete(&self, alloc: Global, ctx: &mut Ctx, inst: &Instance, key: &RecKey) -> Move
        requires clean { IsClean ctx.old }
        requires inst { IsInstance (method self.now) inst.now }
        ensures { Changes (method self.now) inst.now (Delete key.now) ctx.old ctx.new result };

    /// Puts a row in place of another: Key with its record key then, NoRecord or Duplicate.
    fn update(
        &self,
        alloc: Global,
        ctx: &mut Ctx,
        inst: &Instance,
        key: &RecKey,
        tuple: &Tuple,
    ) -> Move
        requires clean { IsClean ctx.old }
        requires inst { IsInstance (method self.now) inst.now }
        requires row { MayHold (method self.now) inst.now tuple.now }
        ensures { Changes (method self.now) inst.now (Update key.now tuple.now) ctx.old ctx.new result };

    /// The row of a record key: Row or NoRecord.
    fn get(&self, alloc: Global, ctx: &mut Ctx, inst: &Instance, key: &RecKey) -> Move
        requires clean { IsClean ctx.old }
        requires inst { IsInstance (method self.now) inst.now }
        ensures { Looks (method self.now) inst.now (Get key.now) ctx.old ctx.new result };

    /// The row of the least record key above this one, or of the least one: Row or End.
    fn next(&self, alloc: Global, ctx: &mut Ctx, inst: &Instance, after: Option<&RecKey>) -> Move
        requires clean { IsClean ctx.old }
        requires inst { IsInstance (method self.now) inst.now }
        ensures { Looks (method self.now) inst.now (Next (option_map (λ key. key.now) after.entry)) ctx.old ctx.new result };
}
