//! The relations that a command has opened.

ghost use Rattle.std.specs.Prelude.{◌≡◌, List, All, OnOk, IfOk, IfErr, is_some, option_copied};
ghost use Rattle.sb_drive.specs.Slots.{Slots};
ghost use Rattle.sb_drive.specs.Spaces.{Wanted};
ghost use Rattle.sb_registry.specs.Runs.{IsSound, Looks};
ghost use Rattle.sb_standing.specs.Standing.{StandRules};
ghost use Rattle.sb_standing.specs.Tables.{Kept, db_of, kept_at};
ghost use Rattle.sb_asking.specs.Opened.{IsDurable, IsOpen};
ghost use Rattle.sb_engine.specs.Opening.{IsKeeping};
ghost use Rattle.sb_engine.specs.Working.{AreOpened, Grows, open_at};

use sb_asking::{OpenRelation, Place, open_relation};
use sb_drive::{PageSpace, SpaceFault};
use sb_registry::Boxes;
use sb_value::Str;
use std::alloc::{AllocError, Global};

/// The open relation of a name.
pub fn open_at<'a>(opened: &'a [OpenRelation], name: &Str) -> Option<&'a OpenRelation>
    ensures { option_copied result ≡ open_at opened.now name.now }
{
    opened.iter().find(|one| one.name == *name)
}

/// Opens a relation, where it isn't open yet. Whether there is one of this name.
pub fn open_named<S: PageSpace, B: Boxes>(
    space: &mut S,
    alloc: Global,
    boxes: &B,
    place: Place,
    opened: &mut Vec<OpenRelation>,
    name: &Str,
) -> Result<bool, SpaceFault>
    requires ready { S.is_ready space.old }
    requires owner { place.owner ≡ 2 }
    requires are_open { All (IsOpen (B.meanings boxes.now)) opened.old.items }

    ensures there { IfOk result (λ there. there ≡ is_some (open_at opened.new.items name.now)) }
    ensures found { IfOk result (λ there. (want : Wanted) (s : Slots) (kept : List Kept)
        → IsKeeping S.has (B.meanings boxes.now) place.root want s kept space.old opened.old.items
        → there ≡ is_some (kept_at kept name.now)) }
    ensures opened { (want : Wanted) (s : Slots) (kept : List Kept)
        → IsKeeping S.has (B.meanings boxes.now) place.root want s kept space.old opened.old.items
        → AreOpened (B.meanings boxes.now) kept opened.new.items }
    ensures are_open { All (IsOpen (B.meanings boxes.now)) opened.new.items }
    ensures grows { Grows opened.old.items opened.new.items }
    ensures undamaged { IfErr result (λ e. (want : Wanted) (s : Slots) (kept : List Kept)
        → IsKeeping S.has (B.meanings boxes.now) place.root want s kept space.old opened.old.items
        → StandRules (B.meanings boxes.now) IsDurable (db_of kept) kept → IsSound e) }
    ensures looks { Looks S.has S.leads S.fails space.old space.new result }
    ensures ready { S.is_ready space.new }
{
    if open_at(opened, name).is_some() {
        return Ok(true);
    }
    match open_relation(space, alloc, boxes, place, name)? {
        None => Ok(false),
        Some(relation) => match opened.push(relation) {
            Ok(()) => Ok(true),
            Err(error) => Err(AllocError::from(error).into()),
        },
    }
}
