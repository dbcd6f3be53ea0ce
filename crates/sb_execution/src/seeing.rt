//! What is tested of a command before anything changes.

ghost use Rattle.std.specs.Prelude.{◌≡◌, false, true, IfErr, IfOk, IfSome};
ghost use Rattle.sb_fold.specs.Outcome.{Going};
ghost use Rattle.sb_engine.specs.Refusals.{HasFaultCause, HasRefusalCause};
ghost use Rattle.sb_engine.specs.Working.{extensions_of};
ghost use Rattle.sb_engine.specs.Working as engine;
ghost use Rattle.sb_cascade.specs.Runs.{OnFault, is_free, is_room};
ghost use Rattle.sb_plain.specs.Refusing.{refused};
ghost use Rattle.sb_plain.specs.State.{State};
ghost use Rattle.sb_execution.specs.Serving.{IsSeenIn};

use crate::seen::Seen;
use sb_engine::Work;
use sb_fold::Refusal;
use sb_map::Place;
use sb_owners::Owners;
use sb_plain::Command;
use sb_refusals::refuse;
use sb_session::Savepoint;
use sb_vectors::Vectors;
use std::alloc::Global;

/// The first refusal of a command, or None where it may be carried out, by what the pages keep and what is told of the transaction.
#[tactic(none)]
pub(crate) fn refusal_over<B: Vectors, S: Owners>(
    boxes: &B,
    space: &mut S,
    work: &Work,
    place: Place,
    points: &[Savepoint],
    inside: bool,
    alloc: Global,
    command: &Command,
) -> Result<Option<Refusal>, Refusal>
    requires ready { engine.Serves S.is_ready (B.meanings boxes.now) place space.old work.now }

    ensures refused { IfOk result (λ r. (s : State) (g : Going) → engine.Stands S.has S.spent (B.meanings boxes.now) place.root g space.old work.now
        → IsSeenIn (B.meanings boxes.now) inside points.now s g
        → r ≡ refused (extensions_of (B.meanings boxes.now)) s command.now) }
    ensures stands { IfOk result (λ r. (s : State) (g : Going) → engine.Stands S.has S.spent (B.meanings boxes.now) place.root g space.old work.now
        → IsSeenIn (B.meanings boxes.now) inside points.now s g
        → engine.Stands S.has S.spent (B.meanings boxes.now) place.root g space.new work.now) }
    ensures free { IfErr result (λ r. is_free r ≡ true) }
    ensures room { IfErr result (λ r. is_room r ≡ false) }
    ensures cause { IfErr result (λ r. (s : State) (g : Going) → engine.Stands S.has S.spent (B.meanings boxes.now) place.root g space.old work.now
        → IsSeenIn (B.meanings boxes.now) inside points.now s g → HasRefusalCause S.fails r space.new) }
    ensures tested { IfOk result (λ r. IfSome r (λ x. OnFault x ⊥)) }
    ensures fault { IfErr result (λ r. HasFaultCause S.fails r space.new) }
    ensures leads { S.leads 0 space.old space.new }
    ensures ready { S.is_ready space.new }
{
    let mut seen = Seen {
        boxes,
        space,
        work,
        place,
        points,
        inside,
    };
    refuse(&mut seen, alloc, command)
}
