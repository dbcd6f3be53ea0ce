//! What attachments say of changes.

ghost use Rattle.std.specs.Prelude.{◌≡◌, IfOk, IfErr};
ghost use Rattle.sb_ctx.specs.Attachment.{MayMeet};
ghost use Rattle.sb_drive.specs.Slots.{Slots};
ghost use Rattle.sb_drive.specs.Spaces.{Wanted};
ghost use Rattle.sb_registry.specs.Live.{IsLiveRule};
ghost use Rattle.sb_registry.specs.Runs.{IsSound, Works};
ghost use Rattle.sb_opened.specs.Opened.{IsDurable};
ghost use Rattle.sb_opened.specs.Asked.{Asks};
ghost use Rattle.sb_opened.specs.Lacking.{WhereShort};
ghost use Rattle.sb_asking.specs.Verdicts.{CostsAsked, IsNext, IsVerdict, LacksAsked, Says, Situation, verdict_in};

use crate::calls::ask;
use sb_ctx::{Actions, AttachCall, Checks, Instance, Move};
use sb_drive::{PageSpace, SpaceFault};
use sb_opened::Place;
use sb_registry::Boxes;
use sb_relation::Change;
use std::alloc::Global;

/// What an attachment says of a change: it vetoes it, or admits it, with the actions that follow at once, those that wait
/// for the commit, and the entries that are tested then.
#[derive(Drop)]
pub enum Verdict {
    Vetoed,
    Admitted {
        now: Actions,
        late: Actions,
        checks: Checks,
    },
}

/// Asks one attachment of a change that the storage method has made. Its finds see the changed rows.
pub fn ask_rule<S: PageSpace, B: Boxes>(
    space: &mut S,
    alloc: Global,
    boxes: &B,
    place: Place,
    inst: &Instance,
    change: &Change,
) -> Result<Verdict, SpaceFault>
    requires ready { S.is_ready space.old }
    requires owner { place.owner ≡ 2 }
    requires live { IsLiveRule (B.meanings boxes.now) inst.now }
    requires meets { (live : IsLiveRule (B.meanings boxes.now) inst.now) → MayMeet live.box inst.now change.now }

    ensures says { IfOk result (λ verdict. (want : Wanted) (s : Slots) (x : Situation) → S.has want s space.old
        → Asks (B.meanings boxes.now) IsDurable place.root s x.gone x.before x.name change.now x.index → IsNext x inst.now
        → Says S.has (B.meanings boxes.now) place.root want s x change.now space.new verdict) }
    ensures works { Works S.has S.leads S.fails S.durable S.total inst.now.owner space.old space.new result }
    ensures undamaged { IfErr result (λ e. (want : Wanted) (s : Slots) (x : Situation) → S.has want s space.old
        → Asks (B.meanings boxes.now) IsDurable place.root s x.gone x.before x.name change.now x.index → IsNext x inst.now
        → IsSound e) }
    ensures full { IfErr result (λ e. (want : Wanted) (s : Slots) (x : Situation) → S.has want s space.old
        → Asks (B.meanings boxes.now) IsDurable place.root s x.gone x.before x.name change.now x.index → IsNext x inst.now
        → WhereShort e (LacksAsked (B.meanings boxes.now) s x change.now)) }
    ensures costs { (want : Wanted) (s : Slots) (x : Situation) → S.has want s space.old
        → Asks (B.meanings boxes.now) IsDurable place.root s x.gone x.before x.name change.now x.index → IsNext x inst.now
        → CostsAsked S.leads (B.meanings boxes.now) x change.now space.old space.new }
    ensures ready { S.is_ready space.new }
{
    let copy = change.copy()?;
    let call = AttachCall::Changed(copy);
    let made = ask(space, alloc, boxes, place, inst, &call);
    drop(call);
    let made = made?;
    Ok(verdict_in(alloc, made))
}

fn verdict_in(alloc: Global, made: Move) -> Verdict
    requires { IsVerdict made }
    ensures { result ≡ verdict_in made }
{
    match made {
        Move::Done => Verdict::Admitted {
            now: Actions::new(alloc),
            late: Actions::new(alloc),
            checks: Checks::new(alloc),
        },
        Move::Acts { now, late, checks } => Verdict::Admitted { now, late, checks },
        Move::Veto => Verdict::Vetoed,
        _ => unreachable!(),
    }
}
