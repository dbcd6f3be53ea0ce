//! The execution of a command.

ghost use Rattle.std.specs.Prelude.{◌≡◌, false, is_some};
ghost use Rattle.sb_journal.specs.State.{used_of};
ghost use Rattle.sb_drive.specs.Spaces.{Wanted};
ghost use Rattle.sb_engine.specs.Working.{extensions_of};
ghost use Rattle.sb_plain.specs.State.{State};
ghost use Rattle.sb_plain.specs.Step.{ok};
ghost use Rattle.sb_plain.specs.declared.command.Command.TheVariants as plain;
ghost use Rattle.sb_execution.specs.Serving.{IsPosedIn, may_have_committed};
ghost use Rattle.sb_execution.specs.Endings.{Executed};
ghost use Rattle.sb_session.specs.Ends.{Ends, is_open_behind};
ghost use Rattle.sb_session.specs.Ends as answers;
ghost use Rattle.sb_session.specs.Sessions.{CanRun, HasFailed, IsFor, KeepsSession, Lacks, StandsBehind, WantsRoom, parts_of, sizes_of};
ghost use Rattle.sb_session.specs.Calls.{KeepsWanted};
ghost use Rattle.sb_vectors.specs.Vectors.{AreSameBoxes};

use crate::inside::exec_inside;
use crate::outside::{exec_outside, test_outside};
use crate::replies::told;
use sb_disk::Disk;
use sb_fold::Refusal;
use sb_plain::{Command, Picks, Reply};
use sb_session::Session;
use sb_vectors::Vectors;
use std::alloc::Global;

/// Carries out a command. Its reply is that of a step of the plain database, and the session stands for what the step leads to. Where room or memory
/// is wanting all stays as it was, but for what was spent; where the disk fails a call the session is down. All along a crash leaves what was
/// committed, or what the step commits; where the disk failed, it may leave what some other step of the command commits. Where no database can have
/// been committed, a crash leaves the pages that were wanted, whatever they stand for.
pub fn exec<B: Vectors, D: Disk>(
    session: &mut Session<B>,
    disk: &mut D,
    alloc: Global,
    command: &Command,
) -> Reply
    requires runs { CanRun B.meanings D.told D.len disk.old session.old }

    ensures ends { (want : Wanted) (s : State) → IsFor B.meanings D.told D.len want s disk.old session.old → IsPosedIn (B.meanings session.old.boxes) s command.now
        → Ends (StandsBehind B.meanings D.told D.len want (extensions_of (B.meanings session.old.boxes)) s command.now disk.old disk.new session.old session.new)
        (Lacks (sizes_of session.old)) (HasFailed D.faults disk.old disk.new) (extensions_of (B.meanings session.old.boxes)) s command.now result }
    ensures room { (want : Wanted) (s : State) → IsFor B.meanings D.told D.len want s disk.old session.old → IsPosedIn (B.meanings session.old.boxes) s command.now
        → WantsRoom (B.meanings session.old.boxes) (sizes_of session.old).pages s command.now result }
    ensures leaves { may_have_committed command.now (is_some session.old.open) result ≡ false
        → KeepsWanted (parts_of D.told D.len disk.old session.old) (parts_of D.told D.len disk.new session.new) }
    ensures open { session.new.down ≡ false → is_some session.new.open ≡ is_open_behind command.now (is_some session.old.open) result }
    ensures empties { command.now ≡ plain.Checkpoint → result ≡ ok → used_of session.new.space.store.journal ≡ 0 }
    ensures same { AreSameBoxes (B.meanings session.old.boxes) (B.meanings session.new.boxes) }
    ensures keeps { KeepsSession D.len D.faults disk.old disk.new session.old session.new result }
    ensures runs { CanRun B.meanings D.told D.len disk.new session.new }
{
    run(session, disk, alloc, command)
}

/// The same, told in one.
fn run<B: Vectors, D: Disk>(
    session: &mut Session<B>,
    disk: &mut D,
    alloc: Global,
    command: &Command,
) -> Reply
    requires runs { CanRun B.meanings D.told D.len disk.old session.old }
    ensures ended { Executed B.meanings D.told D.len D.faults command.now disk.old disk.new session.old session.new result }
    ensures open { session.new.down ≡ false → is_some session.new.open ≡ is_open_behind command.now (is_some session.old.open) result }
    ensures empties { command.now ≡ plain.Checkpoint → result ≡ ok → used_of session.new.space.store.journal ≡ 0 }
{
    if session.down {
        return Reply::Refused(Refusal::Down);
    }
    match command {
        Command::Begin => reply_of(session.begin(disk, alloc), alloc),
        Command::Commit => picked_reply(session.commit(disk, alloc)),
        Command::Abort => reply_of(session.abort(disk), alloc),
        Command::Checkpoint => reply_of(session.checkpoint(disk), alloc),
        Command::Savepoint { name } => reply_of(session.savepoint(disk, name), alloc),
        Command::Rollback { name } => reply_of(session.rollback(disk, name), alloc),
        Command::Register { method, code } => reply_of(
            session.register(disk, *method, *code),
            alloc,
        ),
        Command::Retire { method, code } => retire(session, disk, alloc, command, *method, *code),
        _ => {
            if session.open.is_some() {
                exec_inside(session, disk, alloc, command)
            } else {
                exec_outside(session, disk, alloc, command)
            }
        }
    }
}

/// Makes a live box spare, between transactions, where no test refuses it.
fn retire<B: Vectors, D: Disk>(
    session: &mut Session<B>,
    disk: &mut D,
    alloc: Global,
    command: &Command,
    method: bool,
    code: u16,
) -> Reply
    requires runs { CanRun B.meanings D.told D.len disk.old session.old }
    requires up { session.old.down ≡ false }
    requires retires { command.now ≡ plain.Retire method code }
    ensures open { session.new.open ≡ session.old.open }
    ensures ended { Executed B.meanings D.told D.len D.faults command.now disk.old disk.new session.old session.new result }
{
    if session.open.is_some() {
        return Reply::Refused(Refusal::State);
    }
    let tested = test_outside(
        &session.boxes,
        &mut session.space,
        disk,
        session.place,
        alloc,
        command,
    );
    match tested {
        Ok(()) => reply_of(session.retire(disk, method, code), alloc),
        Err(refusal) => told(session, Err(refusal)),
    }
}

/// The reply of a command that has no more to tell.
fn reply_of(outcome: Result<(), Refusal>, alloc: Global) -> Reply
    ensures { result ≡ answers.reply_of outcome }
{
    match outcome {
        Ok(()) => Reply::Done {
            key: None,
            picks: Picks::new(alloc),
        },
        Err(refusal) => Reply::Refused(refusal),
    }
}

/// The reply of a commit.
fn picked_reply(outcome: Result<Picks, Refusal>) -> Reply
    ensures { result ≡ answers.picked_reply outcome }
{
    match outcome {
        Ok(picks) => Reply::Done { key: None, picks },
        Err(refusal) => Reply::Refused(refusal),
    }
}
