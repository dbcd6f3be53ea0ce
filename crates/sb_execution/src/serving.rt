//! A command on an engine: its refusals first, and then what it reads or works.

ghost use Rattle.std.specs.Prelude.{◌≡◌, false, true, ℕ, IfErr, IfOk, IfSome};
ghost use Rattle.sb_relation.specs.Db.{Db};
ghost use Rattle.sb_registry.specs.Boxes.{Meanings};
ghost use Rattle.sb_session.specs.Point.{Point};
ghost use Rattle.sb_fold.specs.Outcome.{Going};
ghost use Rattle.sb_drive.specs.Spaces.{Wanted};
ghost use Rattle.sb_cascade.specs.Runs.{OnFault, is_free, is_room};
ghost use Rattle.sb_engine.specs.Refusals.{HasFaultCause, HasRefusalCause};
ghost use Rattle.sb_engine.specs.Working.{IsStoppedIn, extensions_of};
ghost use Rattle.sb_engine.specs.Working as engine;
ghost use Rattle.sb_plain.specs.Refusing.{refused};
ghost use Rattle.sb_plain.specs.State.{State};
ghost use Rattle.sb_reads.specs.Reads.{is_reading};
ghost use Rattle.sb_execution.specs.Serving.{HasPaid, IsAnswered, IsPosedIn, IsRefusedIn, IsSeenIn, IsServed, IsUnservedIn, IsUnservedOn, KeepsLooked, KeepsOpened, Makes, MayServe, is_read};
ghost use Rattle.sb_statements.specs.Statements.{MayWork, answer_of};
ghost use Rattle.sb_session.specs.Driven.{WorksOn};
ghost use Rattle.sb_session.specs.Calls.{KeepsWanted};
ghost use Rattle.sb_txn.specs.Parts.{parts};
ghost use Rattle.sb_space.specs.Works.{HasPages};
ghost use Rattle.sb_session.specs.Commits.{FailsOn, IsLed};
ghost use Rattle.sb_session.specs.Transactions.{IsAt, IsPointOf, IsUsable, WasBegun, WasSo};

use crate::reading::read;
use crate::seeing::refusal_over;
use sb_disk::Disk;
use sb_engine::{Running, Work, refusal_of};
use sb_fold::Refusal;
use sb_map::Place;
use sb_owners::Owners;
use sb_plain::{Command, Reply};
use sb_registry::Boxes;
use sb_session::{Savepoint, Transaction};
use sb_space::{Durable, Space};
use sb_statements::Answer;
use sb_vectors::Vectors;
use std::alloc::Global;

/// What came of a command: what it reads, or what its work answers.
#[derive(Drop)]
pub(crate) enum Served {
    Read(Reply),
    Worked(Answer),
}

/// Does the work of a command over any space of pages.
#[tactic(none)]
fn work_over<B: Boxes, S: Owners>(
    boxes: &B,
    space: &mut S,
    work: &mut Work,
    place: Place,
    alloc: Global,
    command: &Command,
) -> Result<Answer, Refusal>
    requires ready { engine.Serves S.is_ready (B.meanings boxes.now) place space.old work.old }

    ensures made { IfOk result (λ x. (g : Going) → engine.Stands S.has S.spent (B.meanings boxes.now) place.root g space.old work.old
        → MayWork (B.meanings boxes.now) g command.now
        → Makes (λ h y. engine.Stands S.has S.spent (B.meanings boxes.now) place.root h y work.new) (B.meanings boxes.now) command.now g (answer_of x) space.new) }
    ensures refused { IfErr result (λ r. (g : Going) → engine.Stands S.has S.spent (B.meanings boxes.now) place.root g space.old work.old
        → MayWork (B.meanings boxes.now) g command.now → IsRefusedIn (IsStoppedIn S.has S.spent S.leads S.fails S.table (B.meanings boxes.now)) (B.meanings boxes.now)
        command.now g r space.new) }
    ensures fault { IfErr result (λ r. HasFaultCause S.fails r space.new) }
    ensures works { WorksOn S.leads space.old space.new work.old work.new }
    ensures ready { engine.Serves S.is_ready (B.meanings boxes.now) place space.new work.new }
{
    let mut running = Running::new(boxes, space, work, place);
    sb_statements::work(&mut running, alloc, command)
}

/// Carries out a command that no test refuses: reads its reply, or does its work.
#[tactic(none)]
fn carry_out<B: Boxes, S: Owners>(
    boxes: &B,
    space: &mut S,
    work: &mut Work,
    place: Place,
    alloc: Global,
    command: &Command,
) -> Result<Served, Refusal>
    requires ready { engine.Serves S.is_ready (B.meanings boxes.now) place space.old work.old }

    ensures served { IfOk result (λ x. (s : State) (g : Going) → engine.Stands S.has S.spent (B.meanings boxes.now) place.root g space.old work.old
        → MayServe (B.meanings boxes.now) s command.now g
        → IsServed (λ h y. engine.Stands S.has S.spent (B.meanings boxes.now) place.root h y work.new) (B.meanings boxes.now) s command.now g x space.new) }
    ensures reads { IfOk result (λ x. is_read x ≡ is_reading command.now) }
    ensures answer { IfOk result IsAnswered }
    ensures opened { IfOk result (λ x. is_read x ≡ true → KeepsOpened S.has (B.meanings boxes.now) place.root space.old space.new work.old work.new) }
    ensures refused { IfErr result (λ r. (s : State) (g : Going) → engine.Stands S.has S.spent (B.meanings boxes.now) place.root g space.old work.old
        → MayServe (B.meanings boxes.now) s command.now g → IsUnservedIn S.has S.spent S.leads S.fails S.table (B.meanings boxes.now) s command.now g r space.new) }
    ensures fault { IfErr result (λ r. HasFaultCause S.fails r space.new) }
    ensures works { WorksOn S.leads space.old space.new work.old work.new }
    ensures ready { engine.Serves S.is_ready (B.meanings boxes.now) place space.new work.new }
{
    match read(space, alloc, boxes, place, &mut work.opened, command) {
        Ok(Some(reply)) => Ok(Served::Read(reply)),
        Ok(None) => match work_over(boxes, space, work, place, alloc, command) {
            Ok(answer) => Ok(Served::Worked(answer)),
            Err(refusal) => Err(refusal),
        },
        Err(fault) => Err(refusal_of(fault)),
    }
}

/// Refuses a command, or carries it out, over any space of pages.
#[tactic(none)]
fn serve<B: Vectors, S: Owners>(
    boxes: &B,
    space: &mut S,
    work: &mut Work,
    place: Place,
    points: &[Savepoint],
    inside: bool,
    alloc: Global,
    command: &Command,
) -> Result<Served, Refusal>
    requires ready { engine.Serves S.is_ready (B.meanings boxes.now) place space.old work.old }

    ensures served { IfOk result (λ x. (s : State) (g : Going) → engine.Stands S.has S.spent (B.meanings boxes.now) place.root g space.old work.old
        → IsSeenIn (B.meanings boxes.now) inside points.now s g → IsPosedIn (B.meanings boxes.now) s command.now
        → IsServed (λ h y. engine.Stands S.has S.spent (B.meanings boxes.now) place.root h y work.new) (B.meanings boxes.now) s command.now g x space.new) }
    ensures reads { IfOk result (λ x. is_read x ≡ is_reading command.now) }
    ensures answer { IfOk result IsAnswered }
    ensures opened { IfOk result (λ x. is_read x ≡ true → KeepsLooked S.has S.leads space.old space.new
        → KeepsOpened S.has (B.meanings boxes.now) place.root space.old space.new work.old work.new) }
    ensures refused { IfErr result (λ r. (s : State) (g : Going) → engine.Stands S.has S.spent (B.meanings boxes.now) place.root g space.old work.old
        → IsSeenIn (B.meanings boxes.now) inside points.now s g → IsPosedIn (B.meanings boxes.now) s command.now
        → IsUnservedIn S.has S.spent S.leads S.fails S.table (B.meanings boxes.now) s command.now g r space.new) }
    ensures fault { IfErr result (λ r. HasFaultCause S.fails r space.new) }
    ensures works { WorksOn S.leads space.old space.new work.old work.new }
    ensures ready { engine.Serves S.is_ready (B.meanings boxes.now) place space.new work.new }
{
    match refusal_over(boxes, space, work, place, points, inside, alloc, command) {
        Ok(None) => carry_out(boxes, space, work, place, alloc, command),
        Ok(Some(refusal)) => Err(refusal),
        Err(refusal) => Err(refusal),
    }
}

/// The same in a transaction of a store.
#[tactic(none)]
pub(crate) fn serve_in<B: Vectors, D: Disk>(
    boxes: &B,
    space: &mut Space,
    disk: &mut D,
    place: Place,
    transaction: &mut Transaction,
    points: &[Savepoint],
    inside: bool,
    alloc: Global,
    command: &Command,
) -> Result<Served, Refusal>
    requires usable { IsUsable (B.meanings boxes.now) place transaction.old.tx.store.number (parts D.told D.len disk.old space.old.store) transaction.old.work }

    ensures served { IfOk result (λ x. space.new.store.book.down ≡ false → (want : Wanted) (s : State) (g : Going)
        → HasPaid (B.meanings boxes.now) place want transaction.old.tx.store.number transaction.old.work g (parts D.told D.len disk.old space.old.store)
        → IsSeenIn (B.meanings boxes.now) inside points.now s g → IsPosedIn (B.meanings boxes.now) s command.now
        → IsServed (HasPaid (B.meanings boxes.now) place want transaction.old.tx.store.number transaction.new.work) (B.meanings boxes.now) s
        command.now g x (parts D.told D.len disk.new space.new.store)) }
    ensures reads { IfOk result (λ x. is_read x ≡ is_reading command.now) }
    ensures answer { IfOk result IsAnswered }
    ensures opened { IfOk result (λ x. space.new.store.book.down ≡ false → is_read x ≡ true → KeepsOpened HasPages (B.meanings boxes.now) place.root
        (parts D.told D.len disk.old space.old.store) (parts D.told D.len disk.new space.new.store) transaction.old.work transaction.new.work) }
    ensures refused { IfErr result (λ r. (want : Wanted) (s : State) (g : Going)
        → HasPaid (B.meanings boxes.now) place want transaction.old.tx.store.number transaction.old.work g (parts D.told D.len disk.old space.old.store)
        → IsSeenIn (B.meanings boxes.now) inside points.now s g → IsPosedIn (B.meanings boxes.now) s command.now
        → IsUnservedOn D.faults (B.meanings boxes.now) s command.now g r (record { disk = disk.new; store = space.new.store })) }
    ensures fault { IfErr result (λ r. OnFault r (space.new.store.book.down ≡ true)) }
    ensures points { space.new.store.book.down ≡ false → (m : Meanings) (want : Wanted) (g : Going) (point : Point)
        → WasSo m place want transaction.old.tx.store.number g point (parts D.told D.len disk.old space.old.store) transaction.old.work
        → WasSo m place want transaction.old.tx.store.number g point (parts D.told D.len disk.new space.new.store) transaction.new.work }
    ensures stand { (point : Point) → IsPointOf transaction.old.tx.store.number point (parts D.told D.len disk.old space.old.store) transaction.old.work
        → IsPointOf transaction.old.tx.store.number point (parts D.told D.len disk.new space.new.store) transaction.new.work }
    ensures begun { space.new.store.book.down ≡ false → (m : Meanings) (root : ℕ) (want : Wanted) (db : Db)
        → WasBegun m root want db transaction.old.tx.store.number (parts D.told D.len disk.old space.old.store)
        → WasBegun m root want db transaction.old.tx.store.number (parts D.told D.len disk.new space.new.store) }
    ensures any_moment { KeepsWanted (parts D.told D.len disk.old space.old.store) (parts D.told D.len disk.new space.new.store) }
    ensures led { IsLed D.told D.len D.faults transaction.old.tx.store.number (record { disk = disk.old; store = space.old.store })
        (record { disk = disk.new; store = space.new.store }) }
    ensures usable { IsUsable (B.meanings boxes.now) place transaction.old.tx.store.number (parts D.told D.len disk.new space.new.store) transaction.new.work }
    ensures tx { transaction.new.tx ≡ transaction.old.tx }
{
    let mut pages = Durable::new(&mut space.store, disk, &transaction.tx.store);
    serve(
        boxes,
        &mut pages,
        &mut transaction.work,
        place,
        points,
        inside,
        alloc,
        command,
    )
}

/// What the tests of a command say in a transaction of a store: the first refusal, or None where it may be carried out.
#[tactic(none)]
pub(crate) fn test_in<B: Vectors, D: Disk>(
    boxes: &B,
    space: &mut Space,
    disk: &mut D,
    place: Place,
    transaction: &Transaction,
    points: &[Savepoint],
    inside: bool,
    alloc: Global,
    command: &Command,
) -> Result<Option<Refusal>, Refusal>
    requires usable { IsUsable (B.meanings boxes.now) place transaction.now.tx.store.number (parts D.told D.len disk.old space.old.store) transaction.now.work }

    ensures refused { IfOk result (λ r. (want : Wanted) (s : State) (g : Going)
        → HasPaid (B.meanings boxes.now) place want transaction.now.tx.store.number transaction.now.work g (parts D.told D.len disk.old space.old.store)
        → IsSeenIn (B.meanings boxes.now) inside points.now s g → r ≡ refused (extensions_of (B.meanings boxes.now)) s command.now) }
    ensures at { IfOk result (λ r. space.new.store.book.down ≡ false → (want : Wanted) (s : State) (g : Going)
        → HasPaid (B.meanings boxes.now) place want transaction.now.tx.store.number transaction.now.work g (parts D.told D.len disk.old space.old.store)
        → IsSeenIn (B.meanings boxes.now) inside points.now s g
        → IsAt (B.meanings boxes.now) place want transaction.now.tx.store.number g (parts D.told D.len disk.new space.new.store) transaction.now.work) }
    ensures free { IfErr result (λ r. is_free r ≡ true) }
    ensures room { IfErr result (λ r. is_room r ≡ false) }
    ensures cause { IfErr result (λ r. (want : Wanted) (s : State) (g : Going)
        → HasPaid (B.meanings boxes.now) place want transaction.now.tx.store.number transaction.now.work g (parts D.told D.len disk.old space.old.store)
        → IsSeenIn (B.meanings boxes.now) inside points.now s g
        → HasRefusalCause (FailsOn D.faults) r (record { disk = disk.new; store = space.new.store })) }
    ensures tested { IfOk result (λ r. IfSome r (λ x. OnFault x ⊥)) }
    ensures fault { IfErr result (λ r. OnFault r (space.new.store.book.down ≡ true)) }
    ensures points { space.new.store.book.down ≡ false → (m : Meanings) (want : Wanted) (g : Going) (point : Point)
        → WasSo m place want transaction.now.tx.store.number g point (parts D.told D.len disk.old space.old.store) transaction.now.work
        → WasSo m place want transaction.now.tx.store.number g point (parts D.told D.len disk.new space.new.store) transaction.now.work }
    ensures stand { (point : Point) → IsPointOf transaction.now.tx.store.number point (parts D.told D.len disk.old space.old.store) transaction.now.work
        → IsPointOf transaction.now.tx.store.number point (parts D.told D.len disk.new space.new.store) transaction.now.work }
    ensures begun { space.new.store.book.down ≡ false → (m : Meanings) (root : ℕ) (want : Wanted) (db : Db)
        → WasBegun m root want db transaction.now.tx.store.number (parts D.told D.len disk.old space.old.store)
        → WasBegun m root want db transaction.now.tx.store.number (parts D.told D.len disk.new space.new.store) }
    ensures any_moment { KeepsWanted (parts D.told D.len disk.old space.old.store) (parts D.told D.len disk.new space.new.store) }
    ensures led { IsLed D.told D.len D.faults transaction.now.tx.store.number (record { disk = disk.old; store = space.old.store })
        (record { disk = disk.new; store = space.new.store }) }
    ensures usable { IsUsable (B.meanings boxes.now) place transaction.now.tx.store.number (parts D.told D.len disk.new space.new.store) transaction.now.work }
{
    let mut pages = Durable::new(&mut space.store, disk, &transaction.tx.store);
    refusal_over(
        boxes,
        &mut pages,
        &transaction.work,
        place,
        points,
        inside,
        alloc,
        command,
    )
}
