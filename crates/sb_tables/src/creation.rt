//! New relations.

ghost use Rattle.std.specs.Prelude.{◌≡◌, ◌<◌, [], ℕ, List, IfOk, IfErr, OnOk, true};
ghost use Rattle.sb_relation.specs.Db.{Db, with_relation};
ghost use Rattle.sb_fold.specs.Building as fold;
ghost use Rattle.sb_fold.specs.Costs.{create_cost};
ghost use Rattle.sb_fold.specs.Outcome.{Going};
ghost use Rattle.sb_cascade.specs.Runs.{MadeFrom, StopsFrom};
ghost use Rattle.sb_ctx.specs.declared.calls.MethodCall.TheVariants.{Prepare};
ghost use Rattle.sb_drive.specs.Slots.{Slots};
ghost use Rattle.sb_drive.specs.Spaces.{LeadsOn, LeadsWithin, Wanted};
ghost use Rattle.sb_registry.specs.Live.{IsLive};
ghost use Rattle.sb_standing.specs.Lacking.{LacksFor, WhereShort};
ghost use Rattle.sb_standing.specs.Live.{IsNewIn, LeavesRows};
ghost use Rattle.sb_standing.specs.Instances.{table_instance};
ghost use Rattle.sb_engine.specs.Refusals.{HasFaultCause, HasRefusalCause, refusal_of};
ghost use Rattle.sb_engine.specs.Working.{Goes, IsLicensed, IsServing, IsStoppedFor, StandsFor, extensions_in, extensions_of};
ghost use Rattle.sb_tables.specs.Creation.{MayCreate, new_descriptor, new_relation};
ghost use Rattle.sb_tables.specs.Keeping.{Closes, KeepsDb};

use crate::descriptors::{are_short, enter};
use sb_catalog::{AttachedList, Descriptor};
use sb_ctx::Instance;
use sb_drive::{PageSpace, SpaceFault};
use sb_engine::{Place, Running, refusal_of};
use sb_fold::Refusal;
use sb_owners::Owners;
use sb_registry::Boxes;
use sb_standing::prepare_rows;
use sb_value::{Bytes, Names, Schema, Str};
use std::alloc::{AllocError, Global};

/// Makes a relation without rows and attachments.
pub fn create<B: Boxes, S: Owners>(
    running: &mut Running<'_, B, S>,
    alloc: Global,
    name: &Str,
    method: u16,
    schema: &Schema,
    key: &Names,
) -> Result<(), Refusal>
    requires ready { IsServing S.is_ready B.meanings running.old }

    ensures made { OnOk result ((g : Going) → StandsFor S.has S.spent B.meanings g running.old
        → MayCreate (B.meanings running.old.boxes.now) g.db name.now method schema.now key.now
        → MadeFrom (StandsFor S.has S.spent B.meanings) (fold.create (extensions_in B.meanings running.old) name.now method schema.now key.now) g tt running.new) }
    ensures refused { IfErr result (λ r. (g : Going) → StandsFor S.has S.spent B.meanings g running.old
        → MayCreate (B.meanings running.old.boxes.now) g.db name.now method schema.now key.now
        → StopsFrom (IsStoppedFor S.has S.spent S.leads S.fails S.table B.meanings)
        (fold.create (extensions_in B.meanings running.old) name.now method schema.now key.now) g r running.new) }
    ensures fault { IfErr result (λ r. HasFaultCause S.fails r running.new.space.now) }
    ensures closes { Closes running.old running.new }
    ensures goes { Goes S.leads running.old running.new }
    ensures ready { IsServing S.is_ready B.meanings running.new }
{
    running.work.opened.clear();
    match create_kept(
        running.space,
        alloc,
        running.boxes,
        running.place,
        name,
        method,
        schema,
        key,
    ) {
        Ok(()) => Ok(()),
        Err(fault) => Err(refusal_of(fault)),
    }
}

/// Gives a new relation pages of its own and its entry in the catalogue. Where a page is wanting to it, the definitions' numbers allow that at the
/// database with the relation.
fn create_kept<S: Owners, B: Boxes>(
    space: &mut S,
    alloc: Global,
    boxes: &B,
    place: Place,
    name: &Str,
    method: u16,
    schema: &Schema,
    key: &Names,
) -> Result<(), SpaceFault>
    requires ready { S.is_ready space.old }
    requires owner { place.owner ≡ 2 }

    ensures made { OnOk result ((gone aside : List ℕ) (db : Db) → KeepsDb S.has (B.meanings boxes.now) place.root gone aside db space.old
        → MayCreate (B.meanings boxes.now) db name.now method schema.now key.now
        → KeepsDb S.has (B.meanings boxes.now) place.root gone aside (with_relation db name.now (new_relation method schema.now key.now)) space.new) }
    ensures refused { IfErr result (λ e. (gone aside : List ℕ) (db : Db) → KeepsDb S.has (B.meanings boxes.now) place.root gone aside db space.old
        → MayCreate (B.meanings boxes.now) db name.now method schema.now key.now → HasRefusalCause S.fails (refusal_of e) space.new) }
    ensures licensed { IfErr result (λ e. (gone : List ℕ) (g : Going) (cost : ℕ)
        → KeepsDb S.has (B.meanings boxes.now) place.root gone g.gone.durable g.db space.old
        → MayCreate (B.meanings boxes.now) g.db name.now method schema.now key.now
        → IsLicensed S.has S.leads S.table (B.meanings boxes.now) (refusal_of e)
        (fold.at_point (with_relation g.db name.now (new_relation method schema.now key.now)) g.gone cost g.trail) space.new) }
    ensures costs { (gone aside : List ℕ) (db : Db) → KeepsDb S.has (B.meanings boxes.now) place.root gone aside db space.old
        → MayCreate (B.meanings boxes.now) db name.now method schema.now key.now
        → LeadsWithin S.leads (create_cost (extensions_of (B.meanings boxes.now)) db method) space.old space.new }
    ensures fault { IfErr result (λ e. HasFaultCause S.fails (refusal_of e) space.new) }
    ensures leads { LeadsOn S.leads space.old space.new }
    ensures ready { S.is_ready space.new }
{
    if !are_short(schema, key) {
        return Err(SpaceFault::Damaged { page: place.root });
    }
    boxes.learn_method(method);
    let (owner, root) = space.new_instance(alloc)?;
    let descriptor = new_descriptor(alloc, method, owner, root, schema, key)?;
    prepare_table(space, alloc, boxes, place, name, &descriptor)?;
    enter(space, alloc, place, name, &descriptor)
}

fn new_descriptor(
    alloc: Global,
    method: u16,
    owner: u16,
    root: u32,
    schema: &Schema,
    key: &Names,
) -> Result<Descriptor, AllocError>
    ensures { IfOk result (λ d. d ≡ new_descriptor method owner root schema.now key.now) }
{
    Ok(Descriptor {
        method,
        owner,
        root,
        schema: schema.copy()?,
        key: key.copy()?,
        attachments: AttachedList::from_vec(Vec::new(alloc)),
    })
}

/// Makes the pages of a new relation those of one without rows. Where no live storage method keeps it, the catalogue's root is called
/// damaged.
fn prepare_table<S: PageSpace, B: Boxes>(
    space: &mut S,
    alloc: Global,
    boxes: &B,
    place: Place,
    name: &Str,
    descriptor: &Descriptor,
) -> Result<(), SpaceFault>
    requires ready { S.is_ready space.old }

    ensures prepared { OnOk result ((want : Wanted) (s : Slots) → S.has want s space.old → IsNewIn s (table_instance true name.now descriptor.now)
        → LeavesRows S.has (B.meanings boxes.now) (table_instance true name.now descriptor.now) want s space.new []) }
    ensures refused { IfErr result (λ e. (want : Wanted) (s : Slots) → S.has want s space.old → IsNewIn s (table_instance true name.now descriptor.now)
        → IsLive (B.meanings boxes.now) (table_instance true name.now descriptor.now) → HasRefusalCause S.fails (refusal_of e) space.new) }
    ensures full { IfErr result (λ e. (want : Wanted) (s : Slots) → S.has want s space.old → IsNewIn s (table_instance true name.now descriptor.now)
        → (live : IsLive (B.meanings boxes.now) (table_instance true name.now descriptor.now))
        → WhereShort e (LacksFor live.box (table_instance true name.now descriptor.now) Prepare [] s)) }
    ensures costs { (want : Wanted) (s : Slots) → S.has want s space.old → IsNewIn s (table_instance true name.now descriptor.now)
        → (live : IsLive (B.meanings boxes.now) (table_instance true name.now descriptor.now))
        → LeadsWithin S.leads (live.box.cost Prepare []) space.old space.new }
    ensures fault { IfErr result (λ e. HasFaultCause S.fails (refusal_of e) space.new) }
    ensures leads { LeadsOn S.leads space.old space.new }
    ensures ready { S.is_ready space.new }
{
    let table = table_of(alloc, name, descriptor)?;
    if boxes.keeps(&table) {
        prepare_rows(space, alloc, boxes, &table)
    } else {
        Err(SpaceFault::Damaged { page: place.root })
    }
}

fn table_of(alloc: Global, name: &Str, descriptor: &Descriptor) -> Result<Instance, AllocError>
    ensures { IfOk result (λ table. table ≡ table_instance true name.now descriptor.now) }
{
    Ok(Instance {
        relation: name.copy()?,
        owner: descriptor.owner,
        root: descriptor.root,
        durable: true,
        code: descriptor.method,
        desc: Bytes::new(alloc),
        schema: descriptor.schema.copy()?,
        key: descriptor.key.copy()?,
    })
}
