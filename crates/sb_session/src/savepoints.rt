//! Savepoints.

ghost use Rattle.std.specs.Prelude.{◌≡◌, ◌≤◌, true, false, is_some, length, position, List, IfErr, OnErr, OnOk};
ghost use Rattle.std.specs.List.{list_any};
ghost use Rattle.sb_drive.specs.Spaces.{Wanted};
ghost use Rattle.sb_transactions.specs.Working.{extensions_of};
ghost use Rattle.sb_plain.specs.State.{State};
ghost use Rattle.sb_plain.specs.declared.command.Command.TheVariants as command;
ghost use Rattle.sb_transactions.specs.Calls.{KeepsWanted};
ghost use Rattle.sb_session.specs.declared.session.Savepoint.{Savepoint};
ghost use Rattle.sb_session.specs.Ends.{Ends, reply_of};
ghost use Rattle.sb_session.specs.Points.{IsSaved, NotSaved, NotThere, is_named};
ghost use Rattle.sb_session.specs.Sessions.{CanRun, HasFailed, IsFor, KeepsSession, Lacks, parts_of, sizes_of};

use crate::session::{Open, Savepoint, Session};
use sb_disk::Disk;
use sb_fold::Refusal;
use sb_transactions::{Space, back_to, mark};
use sb_value::Str;
use sb_vectors::Vectors;

/// How many savepoints a transaction may have.
const MOST_POINTS: usize = 64;

impl<B: Vectors> Session<B> {
    /// Makes a savepoint of this name in the open transaction: no other has the name, and there are 64 at most.
    pub fn savepoint<D: Disk>(&mut self, disk: &mut D, name: &Str) -> Result<(), Refusal>
        requires runs { CanRun B.meanings D.told D.len disk.old self.old }

        ensures ends { (want : Wanted) (s : State) → IsFor B.meanings D.told D.len want s disk.old self.old
            → Ends (λ t. IsFor B.meanings D.told D.len want t disk.new self.new) (Lacks (sizes_of self.old)) (HasFailed D.faults disk.old disk.new)
            (extensions_of (B.meanings self.old.boxes)) s (command.Savepoint name.now) (reply_of result) }
        ensures disk { disk.new ≡ disk.old }
        ensures space { self.new.space ≡ self.old.space }
        ensures open { is_some self.new.open ≡ is_some self.old.open }
        ensures boxes { self.new.boxes ≡ self.old.boxes }
        ensures keeps { KeepsSession D.len D.faults disk.old disk.new self.old self.new (reply_of result) }
        ensures runs { CanRun B.meanings D.told D.len disk.new self.new }
    {
        if self.down {
            return Err(Refusal::Down);
        }
        let Some(mut current) = self.open.take() else {
            return Err(Refusal::State);
        };
        let saved = save(&self.space, &mut current, name);
        self.open = Some(current);
        saved
    }

    /// Goes back to the savepoint of this name, which stays; later ones go. It takes memory only for a name that no savepoint has.
    pub fn rollback<D: Disk>(&mut self, disk: &mut D, name: &Str) -> Result<(), Refusal>
        requires runs { CanRun B.meanings D.told D.len disk.old self.old }

        ensures ends { (want : Wanted) (s : State) → IsFor B.meanings D.told D.len want s disk.old self.old
            → Ends (λ t. IsFor B.meanings D.told D.len want t disk.new self.new) (Lacks (sizes_of self.old)) (HasFailed D.faults disk.old disk.new)
            (extensions_of (B.meanings self.old.boxes)) s (command.Rollback name.now) (reply_of result) }
        ensures any_moment { KeepsWanted (parts_of D.told D.len disk.old self.old) (parts_of D.told D.len disk.new self.new) }
        ensures open { self.new.down ≡ false → is_some self.new.open ≡ is_some self.old.open }
        ensures boxes { self.new.boxes ≡ self.old.boxes }
        ensures keeps { KeepsSession D.len D.faults disk.old disk.new self.old self.new (reply_of result) }
        ensures runs { CanRun B.meanings D.told D.len disk.new self.new }
    {
        if self.down {
            return Err(Refusal::Down);
        }
        match &mut self.open {
            None => Err(Refusal::State),
            Some(current) => {
                let Some(i) = point_of(&current.points, name) else {
                    return Err(no_name(name));
                };
                let point = current.points[i].point;
                match back_to(&mut self.space, disk, &mut current.transaction, point) {
                    Ok(()) => {
                        current.points.truncate(i + 1);
                        Ok(())
                    }
                    Err(refusal) => {
                        self.open = None;
                        Err(self.refused(refusal))
                    }
                }
            }
        }
    }
}

/// Makes a savepoint behind the others.
fn save(space: &Space, current: &mut Open, name: &Str) -> Result<(), Refusal>
    requires within { current.old.transaction.work.done ≤ length current.old.transaction.work.queue.actions }

    ensures saved { OnOk result (IsSaved space.now.store name.now current.old current.new) }
    ensures refused { IfErr result (λ r. NotSaved current.old.points.items name.now r) }
    ensures same { OnErr result (current.new.points.items ≡ current.old.points.items) }
    ensures transaction { current.new.transaction ≡ current.old.transaction }
{
    if point_of(&current.points, name).is_some() {
        return Err(exists(name));
    }
    if current.points.len() >= MOST_POINTS {
        return Err(Refusal::Limit);
    }
    let Ok(name) = name.copy() else {
        return Err(Refusal::NoMemory);
    };
    let point = mark(space, &current.transaction);
    match current.points.push(Savepoint { name, point }) {
        Ok(()) => Ok(()),
        Err(_) => Err(Refusal::NoMemory),
    }
}

/// Where the first savepoint of a name stands.
fn point_of(points: &[Savepoint], name: &Str) -> Option<usize>
    ensures { result ≡ position (is_named name.now) points.now }
{
    points.iter().position(|one| one.name == *name)
}

fn exists(name: &Str) -> Refusal
    ensures { (points : List Savepoint) → list_any (is_named name.now) points ≡ true → NotSaved points name.now result }
{
    match name.copy() {
        Ok(name) => Refusal::Exists { name },
        Err(_) => Refusal::NoMemory,
    }
}

fn no_name(name: &Str) -> Refusal
    ensures { (points : List Savepoint) → list_any (is_named name.now) points ≡ false → NotThere points name.now result }
{
    match name.copy() {
        Ok(name) => Refusal::NoName { name },
        Err(_) => Refusal::NoMemory,
    }
}
