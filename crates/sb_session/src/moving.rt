//! Boxes that become live or spare.

ghost use Rattle.std.specs.Prelude.{◌≡◌, None};
ghost use Rattle.sb_drive.specs.Spaces.{Wanted};
ghost use Rattle.sb_transactions.specs.Working.{extensions_of};
ghost use Rattle.sb_plain.specs.Refusing.{first_use};
ghost use Rattle.sb_plain.specs.State.{State, view};
ghost use Rattle.sb_plain.specs.declared.command.Command.TheVariants as command;
ghost use Rattle.sb_session.specs.Ends.{Ends, reply_of};
ghost use Rattle.sb_session.specs.Sessions.{CanRun, HasFailed, IsFor, KeepsSession, Lacks, sizes_of};
ghost use Rattle.sb_vectors.specs.Vectors.{AreSameBoxes};

use crate::session::Session;
use sb_disk::Disk;
use sb_fold::Refusal;
use sb_vectors::Vectors;

impl<B: Vectors> Session<B> {
    /// Makes the spare box of a code live, between transactions. No relation stays open.
    pub fn register<D: Disk>(
        &mut self,
        disk: &mut D,
        method: bool,
        code: u16,
    ) -> Result<(), Refusal>
        requires runs { CanRun B.meanings D.told D.len disk.old self.old }

        ensures ends { (want : Wanted) (s : State) → IsFor B.meanings D.told D.len want s disk.old self.old
            → Ends (λ t. IsFor B.meanings D.told D.len want t disk.new self.new) (Lacks (sizes_of self.old)) (HasFailed D.faults disk.old disk.new)
            (extensions_of (B.meanings self.old.boxes)) s (command.Register method code) (reply_of result) }
        ensures disk { disk.new ≡ disk.old }
        ensures space { self.new.space ≡ self.old.space }
        ensures open { self.new.open ≡ self.old.open }
        ensures same { AreSameBoxes (B.meanings self.old.boxes) (B.meanings self.new.boxes) }
        ensures keeps { KeepsSession D.len D.faults disk.old disk.new self.old self.new (reply_of result) }
        ensures runs { CanRun B.meanings D.told D.len disk.new self.new }
    {
        if self.down {
            return Err(Refusal::Down);
        }
        if self.open.is_some() {
            return Err(Refusal::State);
        }
        match self.boxes.register(method, code) {
            Ok(true) => {
                self.opened.clear();
                Ok(())
            }
            Ok(false) => Err(Refusal::NoExtension { code }),
            Err(_) => Err(Refusal::NoMemory),
        }
    }

    /// Makes the live box of a code spare, between transactions. No relation may use it, and none stays open.
    pub fn retire<D: Disk>(&mut self, disk: &mut D, method: bool, code: u16) -> Result<(), Refusal>
        requires runs { CanRun B.meanings D.told D.len disk.old self.old }

        ensures ends { (want : Wanted) (s : State) → IsFor B.meanings D.told D.len want s disk.old self.old
            → first_use (view s) (command.Retire method code) ≡ None
            → Ends (λ t. IsFor B.meanings D.told D.len want t disk.new self.new) (Lacks (sizes_of self.old)) (HasFailed D.faults disk.old disk.new)
            (extensions_of (B.meanings self.old.boxes)) s (command.Retire method code) (reply_of result) }
        ensures disk { disk.new ≡ disk.old }
        ensures space { self.new.space ≡ self.old.space }
        ensures open { self.new.open ≡ self.old.open }
        ensures same { AreSameBoxes (B.meanings self.old.boxes) (B.meanings self.new.boxes) }
        ensures keeps { KeepsSession D.len D.faults disk.old disk.new self.old self.new (reply_of result) }
        ensures runs { CanRun B.meanings D.told D.len disk.new self.new }
    {
        if self.down {
            return Err(Refusal::Down);
        }
        if self.open.is_some() {
            return Err(Refusal::State);
        }
        match self.boxes.retire(method, code) {
            Ok(true) => {
                self.opened.clear();
                Ok(())
            }
            Ok(false) => Err(Refusal::NoExtension { code }),
            Err(_) => Err(Refusal::NoMemory),
        }
    }
}
