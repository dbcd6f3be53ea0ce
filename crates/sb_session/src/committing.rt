//! The commit of the open transaction.

ghost use Rattle.std.specs.Prelude.{◌≡◌, false, is_some, IfErr, IsErrOf};
ghost use Rattle.sb_drive.specs.Spaces.{Wanted};
ghost use Rattle.sb_transactions.specs.Working.{extensions_of};
ghost use Rattle.sb_plain.specs.State.{State};
ghost use Rattle.sb_plain.specs.declared.command.Command.TheVariants as command;
ghost use Rattle.sb_transactions.specs.Calls.{KeepsWanted};
ghost use Rattle.sb_session.specs.Ends.{Ends, is_open_behind, picked_reply};
ghost use Rattle.sb_session.specs.Sessions.{CanRun, HasFailed, HasWork, IsFor, KeepsSession, Lacks, StandsBehind, WantsRoom, parts_of, sizes_of};

use crate::session::{Open, Session};
use sb_disk::Disk;
use sb_fold::Refusal;
use sb_plain::Picks;
use sb_transactions::{Uncommitted, commit};
use sb_vectors::Vectors;
use std::alloc::Global;

impl<B: Vectors> Session<B> {
    /// Commits the open transaction, and gives the record keys that what waited picked. The relations that it has opened stay open. Where room or memory is wanting the transaction goes on; any other refusal ends it.
    pub fn commit<D: Disk>(&mut self, disk: &mut D, alloc: Global) -> Result<Picks, Refusal>
        requires runs { CanRun B.meanings D.told D.len disk.old self.old }

        ensures ends { (want : Wanted) (s : State) → IsFor B.meanings D.told D.len want s disk.old self.old
            → Ends (StandsBehind B.meanings D.told D.len want (extensions_of (B.meanings self.old.boxes)) s command.Commit disk.old disk.new self.old self.new)
            (Lacks (sizes_of self.old)) (HasFailed D.faults disk.old disk.new) (extensions_of (B.meanings self.old.boxes)) s command.Commit (picked_reply result) }
        ensures room { (want : Wanted) (s : State) → IsFor B.meanings D.told D.len want s disk.old self.old
            → WantsRoom (B.meanings self.old.boxes) (sizes_of self.old).pages s command.Commit (picked_reply result) }
        ensures memory { IsErrOf result Refusal.NoMemory → HasWork self.old.open }
        ensures kept { IfErr result (λ r. (r ≡ Refusal.Fault → ⊥) → KeepsWanted (parts_of D.told D.len disk.old self.old) (parts_of D.told D.len disk.new self.new)) }
        ensures open { self.new.down ≡ false → is_some self.new.open ≡ is_open_behind command.Commit (is_some self.old.open) (picked_reply result) }
        ensures boxes { self.new.boxes ≡ self.old.boxes }
        ensures keeps { KeepsSession D.len D.faults disk.old disk.new self.old self.new (picked_reply result) }
        ensures runs { CanRun B.meanings D.told D.len disk.new self.new }
    {
        if self.down {
            return Err(Refusal::Down);
        }
        let Some(current) = self.open.take() else {
            return Err(Refusal::State);
        };
        let Open {
            transaction,
            points,
        } = current;
        match commit(
            &self.boxes,
            &mut self.space,
            disk,
            self.place,
            transaction,
            alloc,
        ) {
            Ok(committed) => {
                self.opened = committed.opened;
                Ok(Picks::from_vec(committed.picks))
            }
            Err(uncommitted) => {
                let Uncommitted {
                    refusal,
                    transaction,
                } = uncommitted;
                match transaction {
                    Some(transaction) => {
                        self.open = Some(Open {
                            transaction,
                            points,
                        });
                        Err(self.refused(refusal))
                    }
                    None => Err(self.refused(refusal)),
                }
            }
        }
    }
}
