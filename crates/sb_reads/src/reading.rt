//! What commands answer that only read.

ghost use Rattle.std.specs.Prelude.{◌≡◌, ℕ, List, None, Some, is_some, option_copied, IfOk, IfErr, IfSome};
ghost use Rattle.sb_fold.specs.Extensions.{Extensions};
ghost use Rattle.sb_drive.specs.Slots.{Slots};
ghost use Rattle.sb_drive.specs.Spaces.{Wanted};
ghost use Rattle.sb_registry.specs.Boxes.{boxes_of};
ghost use Rattle.sb_registry.specs.Runs.{IsSound, Looks};
ghost use Rattle.sb_standing.specs.Standing.{Keeps};
ghost use Rattle.sb_standing.specs.Tables.{Kept, db_of};
ghost use Rattle.sb_asking.specs.Opened.{IsDurable, IsOpen};
ghost use Rattle.sb_plain.specs.Reading.{read};
ghost use Rattle.sb_reads.specs.Reads.{IsAnswer, MayRead, is_reading, relation_read};
ghost use Rattle.sb_reads.specs.Stores.{OnOpen};

use crate::indexes::{entries, lookup, range};
use crate::lines::making_lines;
use crate::names::all_names;
use crate::rows::{get, scan};
use sb_asking::{OpenRelation, Place};
use sb_drive::{PageSpace, SpaceFault};
use sb_plain::{Command, Reply};
use sb_registry::Boxes;
use sb_value::Str;
use std::alloc::Global;

/// The relation whose rows or attachments a command reads.
pub fn relation_read(command: &Command) -> Option<&Str>
    ensures { option_copied result ≡ relation_read command.now }
{
    match command {
        Command::Get { relation, .. }
        | Command::Scan { relation, .. }
        | Command::Lookup { relation, .. }
        | Command::Range { relation, .. }
        | Command::Entries { relation, .. } => Some(relation),
        _ => None,
    }
}

/// What a command answers that reads the catalogue alone; None where it reads nothing. Where its relation isn't there, which its caller has
/// tested, the catalogue's root is called damaged.
pub fn read_catalogue<S: PageSpace, B: Boxes>(
    space: &mut S,
    alloc: Global,
    boxes: &B,
    place: Place,
    command: &Command,
) -> Result<Option<Reply>, SpaceFault>
    requires ready { S.is_ready space.old }
    requires owner { place.owner ≡ 2 }
    requires none { relation_read command.now ≡ None }

    ensures reply { IfOk result (λ x. (want : Wanted) (s : Slots) (gone : List ℕ) (kept : List Kept) (ext : Extensions)
        → S.has want s space.old → Keeps (B.meanings boxes.now) IsDurable place.root s gone kept
        → MayRead (db_of kept) command.now → x ≡ read ext (db_of kept) command.now) }
    ensures reads { IfOk result (λ x. is_some x ≡ is_reading command.now) }
    ensures answer { IfOk result (λ x. IfSome x IsAnswer) }
    ensures undamaged { IfErr result (λ e. (want : Wanted) (s : Slots) (gone : List ℕ) (kept : List Kept)
        → S.has want s space.old → Keeps (B.meanings boxes.now) IsDurable place.root s gone kept
        → MayRead (db_of kept) command.now → IsSound e) }
    ensures looks { Looks S.has S.leads S.fails space.old space.new result }
    ensures ready { S.is_ready space.new }
{
    match command {
        Command::Tables => {
            let lines = all_names(space, alloc, boxes, place)?;
            Ok(Some(Reply::Lines { lines }))
        }
        Command::Show { relation } => {
            let lines = making_lines(space, alloc, place, relation)?;
            Ok(Some(Reply::Lines { lines }))
        }
        _ => Ok(None),
    }
}

/// What a command answers that reads the rows or the attachments of this relation.
pub fn read_relation<S: PageSpace, B: Boxes>(
    space: &mut S,
    alloc: Global,
    boxes: &B,
    place: Place,
    opened: &OpenRelation,
    command: &Command,
) -> Result<Reply, SpaceFault>
    requires ready { S.is_ready space.old }
    requires owner { place.owner ≡ 2 }
    requires open { IsOpen (B.meanings boxes.now) opened.now }
    requires reads { relation_read command.now ≡ Some opened.now.name }

    ensures reply { IfOk result (λ x. OnOpen S.has (B.meanings boxes.now) place.root space.old opened.now (λ db r.
        (ext : Extensions) → ext.boxes ≡ boxes_of (B.meanings boxes.now) → MayRead db command.now
        → Some x ≡ read ext db command.now)) }
    ensures answer { IfOk result IsAnswer }
    ensures undamaged { IfErr result (λ e. OnOpen S.has (B.meanings boxes.now) place.root space.old opened.now (λ db r.
        MayRead db command.now → IsSound e)) }
    ensures looks { Looks S.has S.leads S.fails space.old space.new result }
    ensures ready { S.is_ready space.new }
{
    match command {
        Command::Get { at, .. } => get(space, alloc, boxes, opened, at),
        Command::Scan { after, limit, .. } => {
            scan(space, alloc, boxes, &opened.table, after, *limit)
        }
        Command::Lookup { name, values, .. } => {
            lookup(space, alloc, boxes, place, opened, name, values)
        }
        Command::Range {
            name,
            low,
            high,
            ..
        } => range(space, alloc, boxes, place, opened, name, low, high),
        Command::Entries { name, .. } => entries(space, alloc, boxes, place, opened, name),
        _ => unreachable!(),
    }
}
