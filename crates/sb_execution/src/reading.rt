//! What commands answer that only read, over the relations that are open.

ghost use Rattle.std.specs.Prelude.{◌≡◌, ℕ, List, All, is_some, IfOk, IfErr, IfSome};
ghost use Rattle.sb_fold.specs.Extensions.{Extensions};
ghost use Rattle.sb_drive.specs.Slots.{Slots};
ghost use Rattle.sb_drive.specs.Spaces.{Wanted};
ghost use Rattle.sb_registry.specs.Boxes.{boxes_of};
ghost use Rattle.sb_registry.specs.Runs.{IsSound, Looks};
ghost use Rattle.sb_standing.specs.Standing.{Keeps};
ghost use Rattle.sb_standing.specs.Tables.{Kept, db_of};
ghost use Rattle.sb_engine.specs.Opened.{IsDurable, IsOpen};
ghost use Rattle.sb_engine.specs.Opening.{IsKeeping};
ghost use Rattle.sb_engine.specs.Working.{AreOpened};
ghost use Rattle.sb_plain.specs.Reading.{read};
ghost use Rattle.sb_reads.specs.Reads.{IsAnswer, MayRead, is_reading};

use sb_drive::{PageSpace, SpaceFault};
use sb_engine::{OpenRelation, open_at, open_named};
use sb_map::Place;
use sb_plain::{Command, Reply};
use sb_reads::{read_catalogue, read_relation, relation_read};
use sb_registry::Boxes;
use std::alloc::Global;

/// What a command answers that only reads, over the relations that stand; None for every other command. A relation whose rows or attachments
/// it reads is opened, where it isn't open yet, and stays so. Where it isn't there, which its caller has tested, the catalogue's root is called
/// damaged.
pub(crate) fn read<S: PageSpace, B: Boxes>(
    space: &mut S,
    alloc: Global,
    boxes: &B,
    place: Place,
    opened: &mut Vec<OpenRelation>,
    command: &Command,
) -> Result<Option<Reply>, SpaceFault>
    requires ready { S.is_ready space.old }
    requires owner { place.owner ≡ 2 }
    requires are_open { All (IsOpen (B.meanings boxes.now)) opened.old.items }

    ensures reply { IfOk result (λ x. (want : Wanted) (s : Slots) (gone : List ℕ) (kept : List Kept) (ext : Extensions)
        → S.has want s space.old → Keeps (B.meanings boxes.now) IsDurable place.root s gone kept
        → AreOpened (B.meanings boxes.now) kept opened.old.items
        → ext.boxes ≡ boxes_of (B.meanings boxes.now) → MayRead (db_of kept) command.now
        → x ≡ read ext (db_of kept) command.now) }
    ensures reads { IfOk result (λ x. is_some x ≡ is_reading command.now) }
    ensures answer { IfOk result (λ x. IfSome x IsAnswer) }
    ensures undamaged { IfErr result (λ e. (want : Wanted) (s : Slots) (gone : List ℕ) (kept : List Kept)
        → S.has want s space.old → Keeps (B.meanings boxes.now) IsDurable place.root s gone kept
        → AreOpened (B.meanings boxes.now) kept opened.old.items → MayRead (db_of kept) command.now → IsSound e) }
    ensures opened { (want : Wanted) (s : Slots) (kept : List Kept)
        → IsKeeping S.has (B.meanings boxes.now) place.root want s kept space.old opened.old.items
        → AreOpened (B.meanings boxes.now) kept opened.new.items }
    ensures are_open { All (IsOpen (B.meanings boxes.now)) opened.new.items }
    ensures looks { Looks S.has S.leads S.fails space.old space.new result }
    ensures ready { S.is_ready space.new }
{
    let Some(relation) = relation_read(command) else {
        return read_catalogue(space, alloc, boxes, place, command);
    };
    if !open_named(space, alloc, boxes, place, opened, relation)? {
        return Err(SpaceFault::Damaged { page: place.root });
    }
    let Some(one) = open_at(opened, relation) else {
        unreachable!()
    };
    let reply = read_relation(space, alloc, boxes, place, one, command)?;
    Ok(Some(reply))
}
