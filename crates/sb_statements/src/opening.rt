//! The relations of rows and actions, opened and tested.

ghost use Rattle.std.specs.Prelude.{◌≡◌, true, List, All, OnOk, IfErr};
ghost use Rattle.sb_fold.specs.Outcome.{Going};
ghost use Rattle.sb_cascade.specs.Fitting.{IsFitting, IsFittingWish};
ghost use Rattle.sb_cascade.specs.Runs.{LooksFrom};
ghost use Rattle.sb_cascade.specs.Wishes.{wish_of};
ghost use Rattle.sb_drive.specs.Slots.{Slots};
ghost use Rattle.sb_drive.specs.Spaces.{Wanted};
ghost use Rattle.sb_registry.specs.Runs.{IsSound, Looks};
ghost use Rattle.sb_building.specs.Standing.{StandRules};
ghost use Rattle.sb_building.specs.Tables.{Kept, db_of};
ghost use Rattle.sb_building.specs.Opened.{IsDurable, IsOpen};
ghost use Rattle.sb_building.specs.Wished.{MayBeWished};
ghost use Rattle.sb_building.specs.Opening.{IsKeeping};
ghost use Rattle.sb_building.specs.Working.{AreOpened, GoesOpen, Grows, IsServing, IsStoppedFor, MayDo, MayWish, StandsFor};
ghost use Rattle.sb_building.specs.Refusals.{HasFaultCause};

use sb_building::{OpenRelation, Place, Running, open_at, open_named, prepare, refusal_of};
use sb_cascade::Wish;
use sb_drive::{PageSpace, SpaceFault};
use sb_fold::Refusal;
use sb_pred::kind_of_column;
use sb_registry::Boxes;
use sb_rule::Action;
use sb_value::{Kind, Schema, Str};
use std::alloc::Global;

/// Opens the relation of a row that is wished and tests the row against its columns. Where it doesn't fit, the catalogue is damaged,
/// since the command was tested before.
pub(crate) fn open_wish<B: Boxes, S: PageSpace>(
    running: &mut Running<'_, B, S>,
    alloc: Global,
    name: &Str,
    wish: &Wish,
) -> Result<(), Refusal>
    requires ready { IsServing S.is_ready B.meanings running.old }

    ensures may { OnOk result (MayWish running.new.work.now.opened.items name.now (wish_of wish.now)) }
    ensures stands { OnOk result ((g : Going) → StandsFor S.has S.spent B.meanings g running.old → StandsFor S.has S.spent B.meanings g running.new) }
    ensures refused { IfErr result (λ r. (g : Going) → StandsFor S.has S.spent B.meanings g running.old → IsFittingWish g.db name.now (wish_of wish.now)
        → LooksFrom (IsStoppedFor S.has S.spent S.leads S.fails S.table B.meanings) g r running.new) }
    ensures fault { IfErr result (λ r. HasFaultCause S.fails r running.new.space.now) }
    ensures goes { GoesOpen S.leads running.old running.new }
    ensures ready { IsServing S.is_ready B.meanings running.new }
{
    match open_fitting(
        running.space,
        alloc,
        running.boxes,
        running.place,
        &mut running.work.opened,
        name,
        wish,
    ) {
        Ok(()) => Ok(()),
        Err(fault) => Err(refusal_of(fault)),
    }
}

/// The same of an action.
pub(crate) fn open_action<B: Boxes, S: PageSpace>(
    running: &mut Running<'_, B, S>,
    alloc: Global,
    action: &Action,
) -> Result<(), Refusal>
    requires ready { IsServing S.is_ready B.meanings running.old }

    ensures may { OnOk result (MayDo running.new.work.now.opened.items action.now) }
    ensures stands { OnOk result ((g : Going) → StandsFor S.has S.spent B.meanings g running.old → StandsFor S.has S.spent B.meanings g running.new) }
    ensures refused { IfErr result (λ r. (g : Going) → StandsFor S.has S.spent B.meanings g running.old → IsFitting g.db action.now
        → LooksFrom (IsStoppedFor S.has S.spent S.leads S.fails S.table B.meanings) g r running.new) }
    ensures fault { IfErr result (λ r. HasFaultCause S.fails r running.new.space.now) }
    ensures goes { GoesOpen S.leads running.old running.new }
    ensures ready { IsServing S.is_ready B.meanings running.new }
{
    match prepare(
        running.space,
        alloc,
        running.boxes,
        running.place,
        &mut running.work.opened,
        action,
    ) {
        Ok(()) => Ok(()),
        Err(fault) => Err(refusal_of(fault)),
    }
}

/// Opens a relation and tests a row that is wished against its columns.
fn open_fitting<S: PageSpace, B: Boxes>(
    space: &mut S,
    alloc: Global,
    boxes: &B,
    place: Place,
    opened: &mut Vec<OpenRelation>,
    name: &Str,
    wish: &Wish,
) -> Result<(), SpaceFault>
    requires ready { S.is_ready space.old }
    requires owner { place.owner ≡ 2 }
    requires are_open { All (IsOpen (B.meanings boxes.now)) opened.old.items }

    ensures may { OnOk result (MayWish opened.new.items name.now (wish_of wish.now)) }
    ensures opened { (want : Wanted) (s : Slots) (kept : List Kept)
        → IsKeeping S.has (B.meanings boxes.now) place.root want s kept space.old opened.old.items
        → AreOpened (B.meanings boxes.now) kept opened.new.items }
    ensures are_open { All (IsOpen (B.meanings boxes.now)) opened.new.items }
    ensures grows { Grows opened.old.items opened.new.items }
    ensures undamaged { IfErr result (λ e. (want : Wanted) (s : Slots) (kept : List Kept)
        → IsKeeping S.has (B.meanings boxes.now) place.root want s kept space.old opened.old.items
        → StandRules (B.meanings boxes.now) IsDurable (db_of kept) kept → IsFittingWish (db_of kept) name.now (wish_of wish.now) → IsSound e) }
    ensures looks { Looks S.has S.leads S.fails space.old space.new result }
    ensures ready { S.is_ready space.new }
{
    open_named(space, alloc, boxes, place, opened, name)?;
    match open_at(opened, name) {
        Some(one) if may_be_wished(&one.descriptor.schema, wish) => Ok(()),
        _ => Err(SpaceFault::Damaged { page: place.root }),
    }
}

/// Whether a row that is wished fits the columns, and a number is added where they have numbers.
fn may_be_wished(schema: &Schema, wish: &Wish) -> bool
    ensures fits { result ≡ true → MayBeWished schema.now (wish_of wish.now) }
    ensures only { MayBeWished schema.now (wish_of wish.now) → result ≡ true }
{
    match wish {
        Wish::Put(row) | Wish::Replace(_, row) => schema.fits(row).is_ok(),
        Wish::Remove(_) => true,
        Wish::Raise(_, column, _) => matches!(kind_of_column(schema, column), Some(Kind::Int)),
    }
}
