//! Pages that go before a commit.

ghost use Rattle.std.specs.Prelude.{◌≡◌, ◌∷◌, [], ℕ, List, IfErr, OnErr, OnOk};
ghost use Rattle.sb_fold.specs.Finish.{freed};
ghost use Rattle.sb_fold.specs.Outcome.{Going};
ghost use Rattle.sb_drive.specs.Slots.{Slots};
ghost use Rattle.sb_drive.specs.Spaces.{IsStoreFault, LeadsWithin, Wanted};
ghost use Rattle.sb_registry.specs.Boxes.{Meanings};
ghost use Rattle.sb_standing.specs.Standing.{Keeps};
ghost use Rattle.sb_standing.specs.Tables.{Kept};
ghost use Rattle.sb_engine.specs.Opened.{IsDurable};
ghost use Rattle.sb_engine.specs.Refusals.{HasPagesLeft, HasRefusalCause, IsRefusedBy, refusal_of};
ghost use Rattle.sb_engine.specs.Working.{IsPaid, IsServing, StandsFor};
ghost use Rattle.sb_tables.specs.Freeing.{Frees, LeavesGone, free_most};

use sb_drive::SpaceFault;
use sb_engine::{Running, refusal_of};
use sb_fold::Refusal;
use sb_owners::Owners;
use sb_registry::Boxes;
use std::alloc::Global;

/// The owner of the catalogue's pages.
const CATALOGUE: u16 = 2;

/// Makes the pages of all owners that are gone nobody's.
pub fn free_gone<B: Boxes, S: Owners>(
    running: &mut Running<'_, B, S>,
    alloc: Global,
) -> Result<(), Refusal>
    requires ready { IsServing S.is_ready B.meanings running.old }

    ensures freed { OnOk result ((g : Going) → StandsFor S.has S.spent B.meanings g running.old → StandsFor S.has S.spent B.meanings (freed g) running.new) }
    ensures none { OnOk result (running.new.work.now.gone.items ≡ []) }
    ensures refused { IfErr result (λ r. IsRefusedBy S.fails r running.new.space.now) }
    ensures cause { IfErr result (λ r. HasRefusalCause S.fails r running.new.space.now) }
    ensures pages { IfErr result HasPagesLeft }
    ensures paid { IfErr result (λ r. (g : Going) → StandsFor S.has S.spent B.meanings g running.old
        → IsPaid S.spent 0 (freed g).trail.spent running.new.space.now) }
    ensures frees { Frees S.leads running.old running.new }
    ensures kept { IfErr result (λ r. running.new.work.now.gone ≡ running.old.work.now.gone) }
    ensures idle { running.old.work.now.gone.items ≡ [] → OnErr result ⊥ }
    ensures ready { IsServing S.is_ready B.meanings running.new }
{
    match free_all(running.space, alloc, &mut running.work.gone) {
        Ok(()) => Ok(()),
        Err(fault) => Err(refusal_of(fault)),
    }
}

/// Makes the pages of these owners nobody's, and has no owners any more then.
fn free_all<S: Owners>(space: &mut S, alloc: Global, gone: &mut Vec<u16>) -> Result<(), SpaceFault>
    requires ready { S.is_ready space.old }

    ensures freed { OnOk result ((m : Meanings) (root : ℕ) (kept : List Kept) (want : Wanted) (s : Slots) → S.has want s space.old
        → Keeps m IsDurable root s gone.old.items kept → LeavesGone S.has m root kept want [] space.new) }
    ensures none { OnOk result (gone.new.items ≡ []) }
    ensures refused { IfErr result (λ e. IsRefusedBy S.fails (refusal_of e) space.new) }
    ensures stored { IfErr result IsStoreFault }
    ensures kept { IfErr result (λ e. gone.new ≡ gone.old) }
    ensures idle { gone.old.items ≡ [] → OnErr result ⊥ }
    ensures leads { LeadsWithin S.leads (free_most gone.old.items) space.old space.new }
    ensures ready { S.is_ready space.new }
{
    free_owners(space, alloc, gone)?;
    gone.clear();
    Ok(())
}

/// Makes the pages of these owners nobody's.
fn free_owners<S: Owners>(space: &mut S, alloc: Global, owners: &[u16]) -> Result<(), SpaceFault>
    requires ready { S.is_ready space.old }

    ensures freed { OnOk result ((m : Meanings) (root : ℕ) (kept : List Kept) (want : Wanted) (s : Slots) → S.has want s space.old
        → Keeps m IsDurable root s owners.now kept → LeavesGone S.has m root kept want [] space.new) }
    ensures refused { IfErr result (λ e. IsRefusedBy S.fails (refusal_of e) space.new) }
    ensures stored { IfErr result IsStoreFault }
    ensures idle { owners.now ≡ [] → OnErr result ⊥ }
    ensures leads { LeadsWithin S.leads (free_most owners.now) space.old space.new }
    ensures ready { S.is_ready space.new }
{
    for owner in owners {
        free_owner(space, alloc, *owner)?;
    }
    Ok(())
}

/// The same of one owner. An instance without pages has the owner 0, and the table's and the catalogue's pages stay.
fn free_owner<S: Owners>(space: &mut S, alloc: Global, owner: u16) -> Result<(), SpaceFault>
    requires ready { S.is_ready space.old }

    ensures freed { OnOk result ((m : Meanings) (root : ℕ) (kept : List Kept) (want : Wanted) (s : Slots) (gone : List ℕ) → S.has want s space.old
        → Keeps m IsDurable root s (owner ∷ gone) kept → LeavesGone S.has m root kept want gone space.new) }
    ensures refused { IfErr result (λ e. IsRefusedBy S.fails (refusal_of e) space.new) }
    ensures stored { IfErr result IsStoreFault }
    ensures leads { LeadsWithin S.leads (free_most (owner ∷ [])) space.old space.new }
    ensures ready { S.is_ready space.new }
{
    if owner > CATALOGUE {
        space.free_owner(alloc, owner)
    } else {
        Ok(())
    }
}
