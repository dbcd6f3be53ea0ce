//! Refusals.

ghost use Rattle.std.specs.Prelude.{◌≡◌, ◌++◌, codes, OnOk, OnErr};
ghost use Rattle.std.specs.Fmt.{decimal};
ghost use Rattle.sb_pred.specs.Bytes.{Extends};
ghost use Rattle.sb_plain.specs.Text.{room_text, refusal_text};

use crate::pieces::{append_named, append_numbered};
use sb_plain::{Refusal, Room};
use sb_value::{Bytes, Str};
use std::alloc::AllocError;

/// A word, and two names behind it.
fn append_two_names(
    word: &[u8],
    relation: &Str,
    name: &Str,
    out: &mut Bytes,
) -> Result<(), AllocError>
    ensures ok { OnOk result (out.new ≡ out.old ++ (word.now ++ (relation.now ++ (codes " " ++ name.now)))) }
    ensures err { OnErr result (Extends out.old out.new) }
{
    append_named(word, relation, out)?;
    append_named(b" ", name, out)
}

/// A word, and two numbers behind it.
fn append_two_numbers(word: &[u8], used: u32, total: u32, out: &mut Bytes) -> Result<(), AllocError>
    ensures ok { OnOk result (out.new ≡ out.old ++ (word.now ++ (decimal used ++ (codes " " ++ decimal total)))) }
    ensures err { OnErr result (Extends out.old out.new) }
{
    append_numbered(word, u64::from(used), out)?;
    append_numbered(b" ", u64::from(total), out)
}

fn append_room(room: &Room, out: &mut Bytes) -> Result<(), AllocError>
    ensures ok { OnOk result (out.new ≡ out.old ++ room_text room.now) }
    ensures err { OnErr result (Extends out.old out.new) }
{
    match room {
        Room::Data { used, total } => append_two_numbers(b"data ", *used, *total, out),
        Room::Temp { used, total } => append_two_numbers(b"temp ", *used, *total, out),
        Room::Log { used, need, total } => {
            append_numbered(b"log ", *used, out)?;
            append_numbered(b" ", *need, out)?;
            append_numbered(b" ", *total, out)
        }
        Room::Gates { used, total } => append_two_numbers(b"gates ", *used, *total, out),
    }
}

/// A refusal, without the end of its line.
pub fn append_refusal(refusal: &Refusal, out: &mut Bytes) -> Result<(), AllocError>
    ensures ok { OnOk result (out.new ≡ out.old ++ refusal_text refusal.now) }
    ensures err { OnErr result (Extends out.old out.new) }
{
    match refusal {
        Refusal::Syntax { column } => append_numbered(b"! syntax ", u64::from(*column), out),
        Refusal::Down => out.extend(b"! down"),
        Refusal::State => out.extend(b"! state"),
        Refusal::NoRelation { name } => append_named(b"! norelation ", name, out),
        Refusal::Exists { name } => append_named(b"! exists ", name, out),
        Refusal::NoName { name } => append_named(b"! noname ", name, out),
        Refusal::NoExtension { code } => {
            append_numbered(b"! noextension ", u64::from(*code), out)
        }
        Refusal::InUse { relation, name } => append_two_names(b"! inuse ", relation, name, out),
        Refusal::Mistyped => out.extend(b"! type"),
        Refusal::TooLong { relation } => append_named(b"! toolong ", relation, out),
        Refusal::Mixed => out.extend(b"! mixed"),
        Refusal::Limit => out.extend(b"! limit"),
        Refusal::NoRecord { relation } => append_named(b"! norecord ", relation, out),
        Refusal::Duplicate { relation } => append_named(b"! duplicate ", relation, out),
        Refusal::Veto { relation, name } => append_two_names(b"! veto ", relation, name, out),
        Refusal::Range { relation } => append_named(b"! range ", relation, out),
        Refusal::Depth => out.extend(b"! depth"),
        Refusal::DeferLimit => out.extend(b"! deferlimit"),
        Refusal::Room(room) => {
            out.extend(b"! room ")?;
            append_room(room, out)
        }
        Refusal::Damaged { page } => append_numbered(b"! damaged ", u64::from(*page), out),
        Refusal::Fault => out.extend(b"! fault"),
        Refusal::NoMemory => out.extend(b"! nomemory"),
    }
}
