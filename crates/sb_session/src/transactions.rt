//! The begin and the end of transactions, and checkpoints.

ghost use Rattle.std.specs.Prelude.{◌≡◌, false, is_some, IsErrOf, OnOk};
ghost use Rattle.sb_journal.specs.State.{used_of};
ghost use Rattle.sb_drive.specs.Spaces.{Wanted};
ghost use Rattle.sb_transactions.specs.Working.{extensions_of};
ghost use Rattle.sb_plain.specs.State.{State};
ghost use Rattle.sb_plain.specs.declared.command.Command.TheVariants as command;
ghost use Rattle.sb_transactions.specs.Calls.{KeepsWanted};
ghost use Rattle.sb_session.specs.Ends.{Ends, is_open_behind, reply_of};
ghost use Rattle.sb_session.specs.Sessions.{CanRun, HasFailed, IsFor, KeepsSession, Lacks, parts_of, sizes_of};

use crate::session::{Open, Session};
use sb_disk::Disk;
use sb_fold::Refusal;
use sb_transactions::{abort, begin, refusal_of};
use sb_vectors::Vectors;
use std::alloc::Global;

impl<B: Vectors> Session<B> {
    /// Begins a transaction, with the relations that were open before it. It takes no memory.
    pub fn begin<D: Disk>(&mut self, disk: &mut D, alloc: Global) -> Result<(), Refusal>
        requires runs { CanRun B.meanings D.told D.len disk.old self.old }

        ensures ends { (want : Wanted) (s : State) → IsFor B.meanings D.told D.len want s disk.old self.old
            → Ends (λ t. IsFor B.meanings D.told D.len want t disk.new self.new) (Lacks (sizes_of self.old)) (HasFailed D.faults disk.old disk.new)
            (extensions_of (B.meanings self.old.boxes)) s command.Begin (reply_of result) }
        ensures memory { IsErrOf result Refusal.NoMemory → ⊥ }
        ensures any_moment { KeepsWanted (parts_of D.told D.len disk.old self.old) (parts_of D.told D.len disk.new self.new) }
        ensures open { self.new.down ≡ false → is_some self.new.open ≡ is_open_behind command.Begin (is_some self.old.open) (reply_of result) }
        ensures boxes { self.new.boxes ≡ self.old.boxes }
        ensures keeps { KeepsSession D.len D.faults disk.old disk.new self.old self.new (reply_of result) }
        ensures runs { CanRun B.meanings D.told D.len disk.new self.new }
    {
        if self.down {
            return Err(Refusal::Down);
        }
        if self.open.is_some() {
            return Err(Refusal::State);
        }
        let opened = std::mem::replace(&mut self.opened, Vec::new(alloc));
        match begin(&mut self.space, disk, opened, alloc) {
            Ok(transaction) => {
                self.open = Some(Open {
                    transaction,
                    points: Vec::new(alloc),
                });
                Ok(())
            }
            Err(refusal) => Err(self.refused(refusal)),
        }
    }

    /// Ends the open transaction without its changes. It takes no memory.
    pub fn abort<D: Disk>(&mut self, disk: &mut D) -> Result<(), Refusal>
        requires runs { CanRun B.meanings D.told D.len disk.old self.old }

        ensures ends { (want : Wanted) (s : State) → IsFor B.meanings D.told D.len want s disk.old self.old
            → Ends (λ t. IsFor B.meanings D.told D.len want t disk.new self.new) (Lacks (sizes_of self.old)) (HasFailed D.faults disk.old disk.new)
            (extensions_of (B.meanings self.old.boxes)) s command.Abort (reply_of result) }
        ensures any_moment { KeepsWanted (parts_of D.told D.len disk.old self.old) (parts_of D.told D.len disk.new self.new) }
        ensures open { self.new.down ≡ false → is_some self.new.open ≡ is_open_behind command.Abort (is_some self.old.open) (reply_of result) }
        ensures boxes { self.new.boxes ≡ self.old.boxes }
        ensures keeps { KeepsSession D.len D.faults disk.old disk.new self.old self.new (reply_of result) }
        ensures runs { CanRun B.meanings D.told D.len disk.new self.new }
    {
        if self.down {
            return Err(Refusal::Down);
        }
        let Some(current) = self.open.take() else {
            return Err(Refusal::State);
        };
        match abort(&mut self.space, disk, current.transaction) {
            Ok(()) => Ok(()),
            Err(refusal) => Err(self.refused(refusal)),
        }
    }

    /// Writes the changed pages to the disk and empties the log. It takes no memory.
    pub fn checkpoint<D: Disk>(&mut self, disk: &mut D) -> Result<(), Refusal>
        requires runs { CanRun B.meanings D.told D.len disk.old self.old }

        ensures ends { (want : Wanted) (s : State) → IsFor B.meanings D.told D.len want s disk.old self.old
            → Ends (λ t. IsFor B.meanings D.told D.len want t disk.new self.new) (Lacks (sizes_of self.old)) (HasFailed D.faults disk.old disk.new)
            (extensions_of (B.meanings self.old.boxes)) s command.Checkpoint (reply_of result) }
        ensures memory { IsErrOf result Refusal.NoMemory → ⊥ }
        ensures any_moment { KeepsWanted (parts_of D.told D.len disk.old self.old) (parts_of D.told D.len disk.new self.new) }
        ensures open { self.new.down ≡ false → is_some self.new.open ≡ is_open_behind command.Checkpoint (is_some self.old.open) (reply_of result) }
        ensures empties { OnOk result (used_of self.new.space.store.journal ≡ 0) }
        ensures boxes { self.new.boxes ≡ self.old.boxes }
        ensures keeps { KeepsSession D.len D.faults disk.old disk.new self.old self.new (reply_of result) }
        ensures runs { CanRun B.meanings D.told D.len disk.new self.new }
    {
        if self.down {
            return Err(Refusal::Down);
        }
        if self.open.is_some() {
            return Err(Refusal::State);
        }
        match self.space.checkpoint(disk) {
            Ok(()) => Ok(()),
            Err(fault) => Err(self.refused(refusal_of(fault))),
        }
    }
}
