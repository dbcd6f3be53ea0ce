//! Relations that go. An open relation itself goes by a call of `drop`.

ghost use Rattle.std.specs.Prelude.{◌≡◌, ℕ, ◌+◌, ◌*◌, ◌++◌, List, length, IfErr, OnOk};
ghost use Rattle.sb_relation.specs.Db.{Db};
ghost use Rattle.sb_fold.specs.Building as fold;
ghost use Rattle.sb_fold.specs.Costs.{descriptor_cost};
ghost use Rattle.sb_fold.specs.Fold.{attachments_at};
ghost use Rattle.sb_fold.specs.Outcome.{Going, Queue};
ghost use Rattle.sb_cascade.specs.Runs.{MadeFrom, StopsFrom};
ghost use Rattle.sb_drive.specs.Spaces.{LeadsOn, LeadsWithin};
ghost use Rattle.sb_deferred.specs.Complete.{AreMirrored};
ghost use Rattle.sb_engine.specs.Refusals.{HasFaultCause, HasRefusalCause, refusal_of};
ghost use Rattle.sb_engine.specs.Working.{AreNamedApart, ArePaired, Goes, IsServing, IsStoppedFor, StandsFor, extensions_in, extensions_of};
ghost use Rattle.sb_tables.specs.Keeping.{Closes, HasMore, IsFullBy, KeepsDb, KeepsWithin};
ghost use Rattle.sb_tables.specs.Removal.{IsUnnamedIn, MayDrop, without_name};

use crate::descriptors::owners_of;
use crate::mirrors::detach_mirrors;
use sb_drive::{PageSpace, SpaceFault};
use sb_engine::{Place, Running, open_relation, refusal_of, remove};
use sb_fold::Refusal;
use sb_registry::Boxes;
use sb_value::Str;
use std::alloc::Global;

/// Drops a relation with its attachments and their mirrors. All their pages are to go with the owners that are gone.
pub fn drop_relation<B: Boxes, S: PageSpace>(
    running: &mut Running<'_, B, S>,
    alloc: Global,
    name: &Str,
) -> Result<(), Refusal>
    requires ready { IsServing S.is_ready B.meanings running.old }

    ensures made { OnOk result ((g : Going) → StandsFor S.has S.spent B.meanings g running.old → MayDrop g.db g.queue name.now
        → MadeFrom (StandsFor S.has S.spent B.meanings) (fold.drop_relation (extensions_in B.meanings running.old) name.now) g tt running.new) }
    ensures refused { IfErr result (λ r. (g : Going) → StandsFor S.has S.spent B.meanings g running.old → MayDrop g.db g.queue name.now
        → StopsFrom (IsStoppedFor S.has S.spent S.leads S.fails S.table B.meanings)
        (fold.drop_relation (extensions_in B.meanings running.old) name.now) g r running.new) }
    ensures fault { IfErr result (λ r. HasFaultCause S.fails r running.new.space.now) }
    ensures closes { Closes running.old running.new }
    ensures goes { Goes S.leads running.old running.new }
    ensures ready { IsServing S.is_ready B.meanings running.new }
{
    running.work.opened.clear();
    match drop_kept(
        running.space,
        alloc,
        running.boxes,
        running.place,
        &mut running.work.gone,
        name,
    ) {
        Ok(()) => Ok(()),
        Err(fault) => Err(refusal_of(fault)),
    }
}

/// The same over the parts of an engine.
fn drop_kept<S: PageSpace, B: Boxes>(
    space: &mut S,
    alloc: Global,
    boxes: &B,
    place: Place,
    gone: &mut Vec<u16>,
    name: &Str,
) -> Result<(), SpaceFault>
    requires ready { S.is_ready space.old }
    requires owner { place.owner ≡ 2 }

    ensures dropped { OnOk result ((aside : List ℕ) (db : Db) (q : Queue) → KeepsDb S.has (B.meanings boxes.now) place.root gone.old.items aside db space.old
        → MayDrop db q name.now → AreMirrored db → ArePaired db → AreNamedApart db
        → KeepsDb S.has (B.meanings boxes.now) place.root gone.new.items (aside ++ fold.bounds_at (extensions_of (B.meanings boxes.now)) db name.now)
        (fold.without_relation db name.now) space.new) }
    ensures refused { IfErr result (λ e. (aside : List ℕ) (db : Db) → KeepsDb S.has (B.meanings boxes.now) place.root gone.old.items aside db space.old
        → HasRefusalCause S.fails (refusal_of e) space.new) }
    ensures licensed { IfErr result (λ e. (aside : List ℕ) (most : ℕ) (db : Db)
        → KeepsWithin S.has (B.meanings boxes.now) place.root gone.old.items aside most db space.old
        → IsFullBy S.has S.leads S.table most (refusal_of e) space.new) }
    ensures costs { (aside : List ℕ) (db : Db) → KeepsDb S.has (B.meanings boxes.now) place.root gone.old.items aside db space.old
        → LeadsWithin S.leads ((1 + length (fold.mirrored_in name.now (attachments_at db name.now))) * descriptor_cost (extensions_of (B.meanings boxes.now)) db) space.old space.new }
    ensures fault { IfErr result (λ e. HasFaultCause S.fails (refusal_of e) space.new) }
    ensures more { HasMore gone.old.items gone.new.items }
    ensures leads { LeadsOn S.leads space.old space.new }
    ensures ready { S.is_ready space.new }
{
    detach_mirrors(space, alloc, boxes, place, gone, name)?;
    drop_alone(space, alloc, boxes, place, gone, name)
}

/// The same of a relation that no rule of another one names, where it is there.
fn drop_alone<S: PageSpace, B: Boxes>(
    space: &mut S,
    alloc: Global,
    boxes: &B,
    place: Place,
    gone: &mut Vec<u16>,
    name: &Str,
) -> Result<(), SpaceFault>
    requires ready { S.is_ready space.old }
    requires owner { place.owner ≡ 2 }

    ensures dropped { OnOk result ((aside : List ℕ) (db : Db) → KeepsDb S.has (B.meanings boxes.now) place.root gone.old.items aside db space.old
        → IsUnnamedIn db name.now
        → KeepsDb S.has (B.meanings boxes.now) place.root gone.new.items (aside ++ fold.bounds_at (extensions_of (B.meanings boxes.now)) db name.now)
        (without_name db name.now) space.new) }
    ensures refused { IfErr result (λ e. (aside : List ℕ) (db : Db) → KeepsDb S.has (B.meanings boxes.now) place.root gone.old.items aside db space.old
        → HasRefusalCause S.fails (refusal_of e) space.new) }
    ensures licensed { IfErr result (λ e. (aside : List ℕ) (most : ℕ) (db : Db)
        → KeepsWithin S.has (B.meanings boxes.now) place.root gone.old.items aside most db space.old
        → IsFullBy S.has S.leads S.table most (refusal_of e) space.new) }
    ensures costs { (aside : List ℕ) (db : Db) → KeepsDb S.has (B.meanings boxes.now) place.root gone.old.items aside db space.old
        → LeadsWithin S.leads (descriptor_cost (extensions_of (B.meanings boxes.now)) db) space.old space.new }
    ensures fault { IfErr result (λ e. HasFaultCause S.fails (refusal_of e) space.new) }
    ensures more { HasMore gone.old.items gone.new.items }
    ensures leads { LeadsOn S.leads space.old space.new }
    ensures ready { S.is_ready space.new }
{
    let Some(one) = open_relation(space, alloc, boxes, place, name)? else {
        return Ok(());
    };
    let listed = owners_of(alloc, &one.descriptor);
    drop(one);
    let owners = listed?;
    gone.extend_from_slice(&owners)?;
    remove(space, alloc, place, name.as_bytes())?;
    Ok(())
}
