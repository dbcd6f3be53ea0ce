//! Commands outside of a transaction, each of which is one of its own.

ghost use Rattle.std.specs.Prelude.{◌≡◌, ◌≤◌, List, [], All, false, true, Err, None, IfErr, OnOk};
ghost use Rattle.sb_drive.specs.Spaces.{Wanted};
ghost use Rattle.sb_engine.specs.OpenRelation.{OpenRelation};
ghost use Rattle.sb_engine.specs.Opened.{IsOpen};
ghost use Rattle.sb_engine.specs.Working.{extensions_of};
ghost use Rattle.sb_plain.specs.Licences.{may_want_memory};
ghost use Rattle.sb_plain.specs.State.{State};
ghost use Rattle.sb_plain.specs.declared.command.Command.{Command as PlainCommand};
ghost use Rattle.sb_execution.specs.Serving.{IsPosedIn, is_managing, may_have_committed};
ghost use Rattle.sb_statements.specs.Statements.{answer_of};
ghost use Rattle.sb_execution.specs.Endings.{EndsAlone, HasAnswered, Passes};
ghost use Rattle.sb_session.specs.Ends.{Ends};
ghost use Rattle.sb_session.specs.Sessions.{CanRun, HasFailed, IsFor, KeepsSession, Lacks, StandsBehind, WantsRoom, parts_of, sizes_of};
ghost use Rattle.sb_session.specs.Transactions.{IsUsable};
ghost use Rattle.sb_txn.specs.Clauses.{IsReady};
ghost use Rattle.sb_session.specs.Calls.{KeepsWanted};
ghost use Rattle.sb_txn.specs.Parts.{parts};
ghost use Rattle.sb_txn.specs.State.{State as StoreState};

use crate::replies::{replied, told};
use crate::serving::{Served, serve_in, test_in};
use sb_disk::Disk;
use sb_engine::OpenRelation;
use sb_fold::Refusal;
use sb_map::Place;
use sb_plain::{Command, Reply};
use sb_session::{Session, Transaction, Uncommitted, abort, begin, commit};
use sb_space::Space;
use sb_statements::Answer;
use sb_vectors::Vectors;
use std::alloc::Global;

/// Carries out a command that changes or reads relations in a transaction of its own: it is committed where the command changes something.
pub(crate) fn exec_outside<B: Vectors, D: Disk>(
    session: &mut Session<B>,
    disk: &mut D,
    alloc: Global,
    command: &Command,
) -> Reply
    requires runs { CanRun B.meanings D.told D.len disk.old session.old }
    requires up { session.old.down ≡ false }
    requires none { session.old.open ≡ None }
    requires works { is_managing command.now ≡ false }

    ensures ends { (want : Wanted) (s : State) → IsFor B.meanings D.told D.len want s disk.old session.old → IsPosedIn (B.meanings session.old.boxes) s command.now
        → Ends (StandsBehind B.meanings D.told D.len want (extensions_of (B.meanings session.old.boxes)) s command.now disk.old disk.new session.old session.new)
        (Lacks (sizes_of session.old)) (HasFailed D.faults disk.old disk.new) (extensions_of (B.meanings session.old.boxes)) s command.now result }
    ensures room { (want : Wanted) (s : State) → IsFor B.meanings D.told D.len want s disk.old session.old → IsPosedIn (B.meanings session.old.boxes) s command.now
        → WantsRoom (B.meanings session.old.boxes) (sizes_of session.old).pages s command.now result }
    ensures leaves { may_have_committed command.now false result ≡ false → KeepsWanted (parts_of D.told D.len disk.old session.old) (parts_of D.told D.len disk.new session.new) }
    ensures open { session.new.open ≡ session.old.open }
    ensures boxes { session.new.boxes ≡ session.old.boxes }
    ensures keeps { KeepsSession D.len D.faults disk.old disk.new session.old session.new result }
    ensures runs { CanRun B.meanings D.told D.len disk.new session.new }
{
    let result = work_outside(
        &session.boxes,
        &mut session.space,
        disk,
        session.place,
        &mut session.opened,
        alloc,
        command,
    );
    told(session, result)
}

/// Begins a transaction, and ends it with the command. What was open stays so, with what the command opened; behind a refusal nothing does.
fn work_outside<B: Vectors, D: Disk>(
    boxes: &B,
    space: &mut Space,
    disk: &mut D,
    place: Place,
    opened: &mut Vec<OpenRelation>,
    alloc: Global,
    command: &Command,
) -> Result<Reply, Refusal>
    requires ready { IsReady (parts D.told D.len disk.old space.old.store) }
    requires few { space.old.store.pool.geometry.pages ≤ 65536 }
    requires none { space.old.store.book.actives ≡ [] }
    requires owner { place.owner ≡ 2 }
    requires up { space.old.store.book.down ≡ false }
    requires works { is_managing command.now ≡ false }
    requires are_open { All (IsOpen (B.meanings boxes.now)) opened.old.items }
    ensures ended { EndsAlone D.told D.len D.faults (B.meanings boxes.now) place command.now disk.old disk.new space.old.store space.new.store
        opened.old.items opened.new.items result }
    ensures are_open { All (IsOpen (B.meanings boxes.now)) opened.new.items }
{
    let before = std::mem::replace(opened, Vec::new(alloc));
    let mut transaction = match begin(space, disk, before, alloc) {
        Ok(transaction) => transaction,
        Err(fault) => return Err(fault),
    };
    let served = serve_in(
        boxes,
        space,
        disk,
        place,
        &mut transaction,
        &[],
        false,
        alloc,
        command,
    );
    match served {
        Ok(served) => {
            if space.is_down() {
                drop(served);
                drop(transaction);
                return Err(Refusal::Fault);
            }
            match served {
                Served::Read(reply) => {
                    std::mem::swap(opened, &mut transaction.work.opened);
                    match abort(space, disk, transaction) {
                        Ok(()) => Ok(reply),
                        Err(fault) => {
                            drop(reply);
                            Err(fault)
                        }
                    }
                }
                Served::Worked(answer) => {
                    commit_answer(
                        boxes,
                        space,
                        disk,
                        place,
                        transaction,
                        opened,
                        answer,
                        alloc,
                    )
                }
            }
        }
        Err(refusal) => match abort(space, disk, transaction) {
            Ok(()) => Err(refusal),
            Err(fault) => {
                drop(refusal);
                Err(fault)
            }
        },
    }
}

/// Tests a command in a transaction of its own, which ends so. It does no work.
pub(crate) fn test_outside<B: Vectors, D: Disk>(
    boxes: &B,
    space: &mut Space,
    disk: &mut D,
    place: Place,
    alloc: Global,
    command: &Command,
) -> Result<(), Refusal>
    requires ready { IsReady (parts D.told D.len disk.old space.old.store) }
    requires few { space.old.store.pool.geometry.pages ≤ 65536 }
    requires none { space.old.store.book.actives ≡ [] }
    requires owner { place.owner ≡ 2 }
    requires up { space.old.store.book.down ≡ false }
    requires may { (s : State) → may_want_memory s command.now ≡ true }

    ensures leaves { KeepsWanted (parts D.told D.len disk.old space.old.store) (parts D.told D.len disk.new space.new.store) }
    ensures passes { OnOk result (Passes D.told D.len D.faults (B.meanings boxes.now) place command.now disk.old disk.new space.old.store space.new.store) }
    ensures refused { IfErr result (λ r. (ones : List OpenRelation)
        → EndsAlone D.told D.len D.faults (B.meanings boxes.now) place command.now disk.old disk.new space.old.store space.new.store ones ones (Err r)) }
{
    let transaction = match begin(space, disk, Vec::new(alloc), alloc) {
        Ok(transaction) => transaction,
        Err(fault) => return Err(fault),
    };
    let tested = test_in(
        boxes,
        space,
        disk,
        place,
        &transaction,
        &[],
        false,
        alloc,
        command,
    );
    match abort(space, disk, transaction) {
        Ok(()) => match tested {
            Ok(None) => Ok(()),
            Ok(Some(refusal)) => Err(refusal),
            Err(refusal) => Err(refusal),
        },
        Err(fault) => {
            drop(tested);
            Err(fault)
        }
    }
}

/// Commits the transaction of a command that was answered so, and leaves open what it has opened. It ends whatever comes.
fn commit_answer<B: Vectors, D: Disk>(
    boxes: &B,
    space: &mut Space,
    disk: &mut D,
    place: Place,
    transaction: Transaction,
    opened: &mut Vec<OpenRelation>,
    answer: Answer,
    alloc: Global,
) -> Result<Reply, Refusal>
    requires usable { IsUsable (B.meanings boxes.now) place transaction.tx.store.number (parts D.told D.len disk.old space.old.store) transaction.work }
    requires none_open { opened.old.items ≡ [] }
    ensures ended { (c : PlainCommand) (d : D) (s : StoreState) (ones : List OpenRelation)
        → HasAnswered D.told D.len D.faults (B.meanings boxes.now) place c d disk.old s space.old.store transaction.tx.store.number transaction.work ones (answer_of answer)
        → EndsAlone D.told D.len D.faults (B.meanings boxes.now) place c d disk.new s space.new.store ones opened.new.items result }
    ensures are_open { All (IsOpen (B.meanings boxes.now)) opened.new.items }
{
    match commit(boxes, space, disk, place, transaction, alloc) {
        Ok(committed) => {
            *opened = committed.opened;
            Ok(replied(answer, committed.picks))
        }
        Err(uncommitted) => {
            drop(answer);
            let Uncommitted {
                refusal,
                transaction,
            } = uncommitted;
            match transaction {
                Some(kept) => match abort(space, disk, kept) {
                    Ok(()) => Err(refusal),
                    Err(fault) => {
                        drop(refusal);
                        Err(fault)
                    }
                },
                None => Err(refusal),
            }
        }
    }
}
