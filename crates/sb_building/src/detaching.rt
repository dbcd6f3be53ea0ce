//! Rules that go.

ghost use Rattle.std.specs.Prelude.{◌≡◌, ℕ, ◌++◌, IfErr, IfOk, List, OnOk, Some, bytes_eq, option_copied, true};
ghost use Rattle.std.specs.List.{find};
ghost use Rattle.sb_relation.specs.Db.{Attached as Standing, Db};
ghost use Rattle.sb_fold.specs.Building as fold;
ghost use Rattle.sb_fold.specs.Outcome.{Going};
ghost use Rattle.sb_cascade.specs.Runs.{MadeFrom, StopsFrom, is_free};
ghost use Rattle.sb_drive.specs.Spaces.{LeadsWithin};
ghost use Rattle.sb_tables.specs.Refusals.{HasFaultCause, HasRefusalCause, refusal_of};
ghost use Rattle.sb_tables.specs.Working.{Goes, IsServing, IsStoppedFor, StandsFor, extensions_in};
ghost use Rattle.sb_registry.specs.Runs.{Looks};
ghost use Rattle.sb_tables.specs.Keeping.{Closes, IsFullBy, KeepsDb, KeepsIn, KeepsWithinIn};
ghost use Rattle.sb_building.specs.Detaching.{MayDetach, both_bounds, both_cost, mirror_among, mirror_named, without_both};

use sb_catalog::Attached;
use sb_drive::{PageSpace, SpaceFault};
use sb_fold::Refusal;
use sb_registry::Boxes;
use sb_tables::{Place, Running, detach_named, mirror_name, mirrored, open_relation, refusal_of};
use sb_value::Str;
use std::alloc::{AllocError, Global};

/// Takes an attachment off a relation, and its mirror off the other one. Their pages are to go with the owners that are gone.
pub fn detach<B: Boxes, S: PageSpace>(
    running: &mut Running<'_, B, S>,
    alloc: Global,
    relation: &Str,
    name: &Str,
) -> Result<(), Refusal>
    requires ready { IsServing S.is_ready B.meanings running.old }

    ensures made { OnOk result ((g : Going) → StandsFor S.has S.spent B.meanings g running.old → MayDetach g.db relation.now name.now
        → MadeFrom (StandsFor S.has S.spent B.meanings) (fold.detach (extensions_in B.meanings running.old) relation.now name.now) g tt running.new) }
    ensures refused { IfErr result (λ r. (g : Going) → StandsFor S.has S.spent B.meanings g running.old → MayDetach g.db relation.now name.now
        → StopsFrom (IsStoppedFor S.has S.spent S.leads S.fails S.table B.meanings)
        (fold.detach (extensions_in B.meanings running.old) relation.now name.now) g r running.new) }
    ensures fault { IfErr result (λ r. HasFaultCause S.fails r running.new.space.now) }
    ensures closes { Closes running.old running.new }
    ensures goes { Goes S.leads running.old running.new }
    ensures ready { IsServing S.is_ready B.meanings running.new }
{
    running.work.opened.clear();
    match mirror_at(
        running.space,
        alloc,
        running.boxes,
        running.place,
        relation,
        name,
    ) {
        Ok(mirror) => detach_both(running, alloc, relation, name, mirror),
        Err(fault) => Err(refusal_of(fault)),
    }
}

/// Takes the attachments of a name off a relation, and those of the mirror's name off the mirror's.
fn detach_both<B: Boxes, S: PageSpace>(
    running: &mut Running<'_, B, S>,
    alloc: Global,
    relation: &Str,
    name: &Str,
    mirror: Option<(Str, Str)>,
) -> Result<(), Refusal>
    requires ready { IsServing S.is_ready B.meanings running.old }

    ensures detached { OnOk result ((aside : List ℕ) (db : Db) → KeepsIn S.has B.meanings aside db running.old
        → KeepsIn S.has B.meanings (aside ++ both_bounds (extensions_in B.meanings running.old) db relation.now name.now mirror)
        (without_both db relation.now name.now mirror) running.new) }
    ensures refused { IfErr result (λ r. (aside : List ℕ) (db : Db) → KeepsIn S.has B.meanings aside db running.old
        → HasRefusalCause S.fails r running.new.space.now) }
    ensures licensed { IfErr result (λ r. (aside : List ℕ) (most : ℕ) (db : Db) → KeepsWithinIn S.has B.meanings aside most db running.old
        → IsFullBy S.has S.leads S.table most r running.new.space.now) }
    ensures costs { (aside : List ℕ) (db : Db) → KeepsIn S.has B.meanings aside db running.old
        → LeadsWithin S.leads (both_cost (extensions_in B.meanings running.old) db mirror) running.old.space.now running.new.space.now }
    ensures fault { IfErr result (λ r. HasFaultCause S.fails r running.new.space.now) }
    ensures free { IfErr result (λ r. is_free r ≡ true) }
    ensures closes { Closes running.old running.new }
    ensures goes { Goes S.leads running.old running.new }
    ensures ready { IsServing S.is_ready B.meanings running.new }
{
    let Some(mirror) = mirror else {
        return detach_named(running, alloc, relation, name);
    };
    match detach_named(running, alloc, relation, name) {
        Ok(()) => {
            let made = detach_named(running, alloc, &mirror.0, &mirror.1);
            drop(mirror);
            made
        }
        Err(refusal) => {
            drop(mirror);
            Err(refusal)
        }
    }
}

/// The relation and the name of the mirror of a relation's attachment, where it has one.
fn mirror_at<S: PageSpace, B: Boxes>(
    space: &mut S,
    alloc: Global,
    boxes: &B,
    place: Place,
    relation: &Str,
    name: &Str,
) -> Result<Option<(Str, Str)>, SpaceFault>
    requires ready { S.is_ready space.old }
    requires owner { place.owner ≡ 2 }

    ensures mirror { IfOk result (λ mirror. (gone aside : List ℕ) (db : Db) (a : Standing)
        → KeepsDb S.has (B.meanings boxes.now) place.root gone aside db space.old → fold.rule_at db relation.now name.now ≡ Some a
        → mirror ≡ mirror_named relation.now name.now a.rule) }
    ensures refused { IfErr result (λ e. (gone aside : List ℕ) (db : Db) → KeepsDb S.has (B.meanings boxes.now) place.root gone aside db space.old
        → HasRefusalCause S.fails (refusal_of e) space.new) }
    ensures looks { Looks S.has S.leads S.fails space.old space.new result }
    ensures ready { S.is_ready space.new }
{
    let Some(one) = open_relation(space, alloc, boxes, place, relation)? else {
        return Ok(None);
    };
    let made = mirror_among(one.descriptor.attachments.as_slice(), relation, name);
    drop(one);
    let mirror = made?;
    Ok(mirror)
}

/// The same of the first attachment of the name.
fn mirror_among(
    attachments: &[Attached],
    relation: &Str,
    name: &Str,
) -> Result<Option<(Str, Str)>, AllocError>
    ensures { IfOk result (λ mirror. mirror ≡ mirror_among attachments.now relation.now name.now) }
{
    match attached_at(attachments, name) {
        Some(attached) => mirror_named(relation, attached),
        None => Ok(None),
    }
}

fn attached_at<'a>(attachments: &'a [Attached], name: &Str) -> Option<&'a Attached>
    ensures { option_copied result ≡ find (λ d. bytes_eq d.name name.now) attachments.now }
{
    attachments.iter().find(|attached| attached.name == *name)
}

fn mirror_named(relation: &Str, attached: &Attached) -> Result<Option<(Str, Str)>, AllocError>
    ensures { IfOk result (λ mirror. mirror ≡ mirror_named relation.now attached.now.name attached.now.rule) }
{
    let Some(other) = mirrored(&attached.rule) else {
        return Ok(None);
    };
    let other = other.copy()?;
    let label = match mirror_name(relation, &attached.name) {
        Ok(label) => label,
        Err(fault) => {
            drop(other);
            return Err(fault);
        }
    };
    Ok(Some((other, label)))
}
