//! Actions that are to be done, tested against the columns of their relations.

ghost use Rattle.std.specs.Prelude.{◌≡◌, ◌&&◌, [], List, All, OnOk, IfErr, is_none, false};
ghost use Rattle.sb_pred.specs.Typing.{term_kind};
ghost use Rattle.sb_relation.specs.Fits.{action_fits, action_places, first_unnamed};
ghost use Rattle.sb_cascade.specs.Fitting.{AllFit, IsFitting};
ghost use Rattle.sb_drive.specs.Slots.{Slots};
ghost use Rattle.sb_drive.specs.Spaces.{Wanted};
ghost use Rattle.sb_registry.specs.Runs.{IsSound, Looks};
ghost use Rattle.sb_standing.specs.Standing.{StandRules};
ghost use Rattle.sb_standing.specs.Tables.{Kept, db_of};
ghost use Rattle.sb_asking.specs.Opened.{IsDurable, IsOpen};
ghost use Rattle.sb_engine.specs.Opening.{IsKeeping};
ghost use Rattle.sb_engine.specs.Working.{AreOpened, Grows, MayDo};

use crate::opening::{open_at, open_named};
use sb_asking::{OpenRelation, Place};
use sb_drive::{PageSpace, SpaceFault};
use sb_kinds::{action_fits, relation_of, unnamed_action};
use sb_registry::Boxes;
use sb_rule::Action;
use sb_value::Schema;
use std::alloc::Global;

/// Opens the relations of actions and tests each action against its relation's columns. Where one doesn't fit, the catalogue is
/// damaged, since what follows from a change fits.
pub(crate) fn prepare_all<S: PageSpace, B: Boxes>(
    space: &mut S,
    alloc: Global,
    boxes: &B,
    place: Place,
    opened: &mut Vec<OpenRelation>,
    actions: &[Action],
) -> Result<(), SpaceFault>
    requires ready { S.is_ready space.old }
    requires owner { place.owner ≡ 2 }
    requires are_open { All (IsOpen (B.meanings boxes.now)) opened.old.items }

    ensures may { OnOk result (All (MayDo opened.new.items) actions.now) }
    ensures opened { (want : Wanted) (s : Slots) (kept : List Kept)
        → IsKeeping S.has (B.meanings boxes.now) place.root want s kept space.old opened.old.items
        → AreOpened (B.meanings boxes.now) kept opened.new.items }
    ensures are_open { All (IsOpen (B.meanings boxes.now)) opened.new.items }
    ensures grows { Grows opened.old.items opened.new.items }
    ensures undamaged { IfErr result (λ e. (want : Wanted) (s : Slots) (kept : List Kept)
        → IsKeeping S.has (B.meanings boxes.now) place.root want s kept space.old opened.old.items
        → StandRules (B.meanings boxes.now) IsDurable (db_of kept) kept → AllFit (db_of kept) actions.now → IsSound e) }
    ensures looks { Looks S.has S.leads S.fails space.old space.new result }
    ensures ready { S.is_ready space.new }
{
    for action in actions {
        prepare(space, alloc, boxes, place, opened, action)?;
    }
    Ok(())
}

/// The same of one action.
pub fn prepare<S: PageSpace, B: Boxes>(
    space: &mut S,
    alloc: Global,
    boxes: &B,
    place: Place,
    opened: &mut Vec<OpenRelation>,
    action: &Action,
) -> Result<(), SpaceFault>
    requires ready { S.is_ready space.old }
    requires owner { place.owner ≡ 2 }
    requires are_open { All (IsOpen (B.meanings boxes.now)) opened.old.items }

    ensures may { OnOk result (MayDo opened.new.items action.now) }
    ensures opened { (want : Wanted) (s : Slots) (kept : List Kept)
        → IsKeeping S.has (B.meanings boxes.now) place.root want s kept space.old opened.old.items
        → AreOpened (B.meanings boxes.now) kept opened.new.items }
    ensures are_open { All (IsOpen (B.meanings boxes.now)) opened.new.items }
    ensures grows { Grows opened.old.items opened.new.items }
    ensures undamaged { IfErr result (λ e. (want : Wanted) (s : Slots) (kept : List Kept)
        → IsKeeping S.has (B.meanings boxes.now) place.root want s kept space.old opened.old.items
        → StandRules (B.meanings boxes.now) IsDurable (db_of kept) kept → IsFitting (db_of kept) action.now → IsSound e) }
    ensures looks { Looks S.has S.leads S.fails space.old space.new result }
    ensures ready { S.is_ready space.new }
{
    let relation = relation_of(action);
    open_named(space, alloc, boxes, place, opened, relation)?;
    match open_at(opened, relation) {
        Some(one) if may_be_done(alloc, &one.descriptor.schema, action) => Ok(()),
        _ => Err(SpaceFault::Damaged { page: place.root }),
    }
}

/// Whether the columns have the names and the kinds of an action's terms, which are values.
fn may_be_done(alloc: Global, schema: &Schema, action: &Action) -> bool
    ensures { result ≡ (is_none (first_unnamed (action_places schema.now [] action.now))
        && action_fits schema.now (term_kind [] false false) action.now) }
{
    let none = Schema::from_vec(Vec::new(alloc));
    unnamed_action(schema, &none, action).is_none()
        && action_fits(schema, action, &none, false, false)
}
