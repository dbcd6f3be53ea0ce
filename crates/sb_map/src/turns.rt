//! One turn of a walk: what it asks for is given, or it has come to its end.

ghost use Rattle.std.specs.Prelude.{IfOk, IfErr};
ghost use Rattle.sb_btree.specs.Inserts.{MayAsk};
ghost use Rattle.sb_drive.specs.Slots.{Slots};
ghost use Rattle.sb_ctx.specs.View.{dropped};
ghost use Rattle.sb_drive.specs.Spaces.{IsFull, Wanted};
ghost use Rattle.sb_drive.specs.declared.turns.Ask.TheVariants as ask;
ghost use Rattle.sb_map.specs.Calls.{Looks};
ghost use Rattle.sb_map.specs.Turns.{StopsBy, Turned};

use sb_btree::Walk;
use sb_ctx::Ctx;
use sb_drive::{Ask, PageSpace, SpaceFault};

/// Gives what the walk asks for, or hands up its end. Edits are dropped where something is given.
pub fn turn<S: PageSpace, T>(
    space: &mut S,
    owner: u16,
    ctx: &mut Ctx,
    walk: Walk<T>,
) -> Result<Option<T>, SpaceFault>
    requires ready { S.is_ready space.old }
    requires asks { MayAsk ctx.old walk }
    ensures turned { IfOk result (λ end. Turned S.has owner space.old space.new ctx.old ctx.new walk end) }
    ensures looks { Looks S.has S.leads S.fails space.old space.new result }
    ensures stops { IfErr result (StopsBy walk) }
    ensures full { IfErr result (λ e. (want : Wanted) (s : Slots) → S.has want s space.old
        → IsFull (S.durable space.old) (S.total space.old) s (dropped ctx.old) ask.Fresh e) }
    ensures ready { S.is_ready space.new }
{
    match walk {
        Walk::Ready(end) => Ok(Some(end)),
        Walk::Need(n) => {
            space.answer(owner, ctx, Ask::Page(n))?;
            Ok(None)
        }
        Walk::Fresh => {
            space.answer(owner, ctx, Ask::Fresh)?;
            Ok(None)
        }
        Walk::Broken(page) => Err(SpaceFault::Damaged { page }),
        Walk::NoMemory => Err(SpaceFault::NoMemory),
    }
}
