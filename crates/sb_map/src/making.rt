//! New maps.

ghost use Rattle.std.specs.Prelude.{◌≤◌, IfErr, IfOk, OnOk};
ghost use Rattle.sb_ctx.specs.View.{HoldsPart, edits_of};
ghost use Rattle.sb_drive.specs.Slots.{Slots, owned};
ghost use Rattle.sb_drive.specs.Spaces.{IsFullFor, LeadsWithin, Wanted, WhereFull};
ghost use Rattle.sb_map.specs.Calls.{IsWithin, Looks, NeverAsks, Works};
ghost use Rattle.sb_map.specs.Making.{Begins, IsNew, MakesEmpty};
ghost use Rattle.sb_map.specs.Maps.{OverPages};
ghost use Rattle.sb_map.specs.Refusals.{HasCause, IsUndamaged};

use crate::place::Place;
use crate::turns::turn;
use sb_btree::prepare;
use sb_ctx::Ctx;
use sb_drive::{PageSpace, SpaceFault};
use std::alloc::Global;

/// Makes a map without entries, whatever the bytes of its root are; a new root is a page of zeros.
pub fn make<S: PageSpace>(space: &mut S, alloc: Global, place: Place) -> Result<(), SpaceFault>
    requires ready { S.is_ready space.old }
    ensures begins { OnOk result (Begins S.has place space.old space.new) }
    ensures costs { LeadsWithin S.leads 1 space.old space.new }

    // why it is refused
    ensures damaged { IfErr result (λ e. OverPages S.has place space.old (λ P. HasCause place.root P e)) }
    ensures whole { IfErr result (λ e. OverPages S.has place space.old (λ P. IsNew place.root P → IsUndamaged e)) }

    ensures works { Works S.has S.leads S.fails S.durable S.total place NeverAsks space.old space.new result }
    ensures ready { S.is_ready space.new }
{
    let ctx = make_root(space, alloc, place)?;
    space.store(alloc, place.owner, &ctx)?;
    Ok(())
}

/// Makes a leaf of the root that a new Ctx is given, and stores nothing.
fn make_root<S: PageSpace>(space: &mut S, alloc: Global, place: Place) -> Result<Ctx, SpaceFault>
    requires ready { S.is_ready space.old }
    ensures part { IfOk result (λ ctx. OverPages S.has place space.old (HoldsPart ctx)) }
    ensures empty { IfOk result (λ ctx. OverPages S.has place space.old (MakesEmpty place.root ctx)) }
    ensures edits { IfOk result (λ ctx. edits_of ctx ≤ 1) }
    ensures damaged { IfErr result (λ e. OverPages S.has place space.old (λ P. HasCause place.root P e)) }
    ensures whole { IfErr result (λ e. OverPages S.has place space.old (λ P. IsNew place.root P → IsUndamaged e)) }
    ensures full { IfErr result (λ e. (want : Wanted) (s : Slots) → S.has want s space.old
        → WhereFull e (IsFullFor S.leads S.durable S.total place.owner NeverAsks (IsWithin place.root (owned s place.owner)) space.old s e)) }
    ensures looks { Looks S.has S.leads S.fails space.old space.new result }
    ensures ready { S.is_ready space.new }
{
    let mut ctx = Ctx::new(alloc);
    loop {
        ctx.is_ctx();
        let walk = prepare(&mut ctx, place.root);
        if let Some(()) = turn(space, place.owner, &mut ctx, walk)? {
            return Ok(ctx);
        }
    }
}
