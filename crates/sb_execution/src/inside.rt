//! Commands in an open transaction.

ghost use Rattle.std.specs.Prelude.{◌≡◌, false, true, is_some};
ghost use Rattle.sb_drive.specs.Spaces.{Wanted};
ghost use Rattle.sb_engine.specs.Working.{extensions_of};
ghost use Rattle.sb_plain.specs.State.{State};
ghost use Rattle.sb_execution.specs.Serving.{IsPosedIn, is_managing};
ghost use Rattle.sb_execution.specs.Endings.{EndsInside};
ghost use Rattle.sb_session.specs.Calls.{KeepsWanted};
ghost use Rattle.sb_txn.specs.Parts.{parts};
ghost use Rattle.sb_session.specs.Ends.{Ends};
ghost use Rattle.sb_session.specs.Sessions.{CanGoOn, CanRun, HasFailed, IsFor, KeepsSession, Lacks, WantsRoom, parts_of, sizes_of};

use crate::replies::{reply_to, told};
use crate::serving::serve_in;
use sb_disk::Disk;
use sb_fold::Refusal;
use sb_map::Place;
use sb_plain::{Command, Reply};
use sb_session::{Open, Session, back_to, mark, settle};
use sb_space::Space;
use sb_vectors::Vectors;
use std::alloc::Global;

/// Carries out a command that changes or reads relations in the open transaction. A refusal goes back to where the work stood before.
pub(crate) fn exec_inside<B: Vectors, D: Disk>(
    session: &mut Session<B>,
    disk: &mut D,
    alloc: Global,
    command: &Command,
) -> Reply
    requires runs { CanRun B.meanings D.told D.len disk.old session.old }
    requires up { session.old.down ≡ false }
    requires inside { is_some session.old.open ≡ true }
    requires works { is_managing command.now ≡ false }

    ensures ends { (want : Wanted) (s : State) → IsFor B.meanings D.told D.len want s disk.old session.old → IsPosedIn (B.meanings session.old.boxes) s command.now
        → Ends (λ t. IsFor B.meanings D.told D.len want t disk.new session.new) (Lacks (sizes_of session.old)) (HasFailed D.faults disk.old disk.new)
        (extensions_of (B.meanings session.old.boxes)) s command.now result }
    ensures room { (want : Wanted) (s : State) → IsFor B.meanings D.told D.len want s disk.old session.old → IsPosedIn (B.meanings session.old.boxes) s command.now
        → WantsRoom (B.meanings session.old.boxes) (sizes_of session.old).pages s command.now result }
    ensures any_moment { KeepsWanted (parts_of D.told D.len disk.old session.old) (parts_of D.told D.len disk.new session.new) }
    ensures open { is_some session.new.open ≡ true }
    ensures boxes { session.new.boxes ≡ session.old.boxes }
    ensures keeps { KeepsSession D.len D.faults disk.old disk.new session.old session.new result }
    ensures runs { CanRun B.meanings D.told D.len disk.new session.new }
{
    let Some(mut current) = session.open.take() else {
        unreachable!()
    };
    let result = work_inside(
        &session.boxes,
        &mut session.space,
        disk,
        session.place,
        &mut current,
        alloc,
        command,
    );
    session.open = Some(current);
    told(session, result)
}

/// Carries it out, or goes back to where the work stood.
fn work_inside<B: Vectors, D: Disk>(
    boxes: &B,
    space: &mut Space,
    disk: &mut D,
    place: Place,
    current: &mut Open,
    alloc: Global,
    command: &Command,
) -> Result<Reply, Refusal>
    requires goes { CanGoOn (B.meanings boxes.now) place (parts D.told D.len disk.old space.old.store) (Some current.old) }
    requires owner { place.owner ≡ 2 }
    requires up { space.old.store.book.down ≡ false }
    requires works { is_managing command.now ≡ false }
    ensures { EndsInside D.told D.len D.faults (B.meanings boxes.now) place command.now disk.old disk.new space.old.store space.new.store current.old current.new result }
{
    settle(&mut current.transaction);
    let point = mark(space, &current.transaction);
    let served = serve_in(
        boxes,
        space,
        disk,
        place,
        &mut current.transaction,
        &current.points,
        true,
        alloc,
        command,
    );
    match served {
        Ok(served) => {
            if space.is_down() {
                drop(served);
                return Err(Refusal::Fault);
            }
            Ok(reply_to(served, &mut current.transaction.work, alloc))
        }
        Err(refusal) => match back_to(space, disk, &mut current.transaction, point) {
            Ok(()) => Err(refusal),
            Err(fault) => {
                drop(refusal);
                Err(fault)
            }
        },
    }
}
