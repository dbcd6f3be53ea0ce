//! What a command that changes something answers.

ghost use Rattle.std.specs.Prelude.{◌≡◌, ℕ, List, is_some, true};
ghost use Rattle.sb_relation.specs.Keys.{keying_of};
ghost use Rattle.sb_drive.specs.Slots.{Slots};
ghost use Rattle.sb_registry.specs.Boxes.{Meanings};
ghost use Rattle.sb_building.specs.Tables.{Kept, Tables, db_of};
ghost use Rattle.sb_building.specs.Opened.{IsDurable};
ghost use Rattle.sb_building.specs.Working.{AreOpened, open_at};
ghost use Rattle.sb_plain.specs.Step.{keyed_by, row_answer};
ghost use Rattle.sb_statements.specs.Statements.{answer_of};

use sb_building::{OpenRelation, open_at};
use sb_value::{RecKey, Str};

/// The codes of the storage methods that pick no keys.
const TREE: u16 = 2;

const TEMP: u16 = 3;

/// What a command answers beside the record keys that were picked: nothing more, the record key of its row, which may be the first
/// one that was picked, or how many rows it changed.
#[derive(Drop)]
pub enum Answer {
    Plain,
    Keyed(RecKey),
    PickedKey(RecKey),
    Counts(u64),
}

/// The record key that a row has, by the code of the storage method.
fn keyed_by(method: u16, key: RecKey) -> Answer
    ensures { answer_of result ≡ keyed_by (keying_of method) key }
{
    if method == TREE || method == TEMP {
        Answer::Keyed(key)
    } else {
        Answer::PickedKey(key)
    }
}

/// What a command answers of the record key that its row has after it, in an open relation.
pub(crate) fn row_answer(opened: &[OpenRelation], name: &Str, key: Option<RecKey>) -> Answer
    requires open { is_some (open_at opened.now name.now) ≡ true }
    ensures { (m : Meanings) (root : ℕ) (s : Slots) (kept : List Kept) → Tables m IsDurable root s kept → AreOpened m kept opened.now
        → answer_of result ≡ row_answer (db_of kept) name.now key }
{
    let Some(one) = open_at(opened, name) else {
        unreachable!()
    };
    match key {
        Some(key) => keyed_by(one.descriptor.method, key),
        None => Answer::Plain,
    }
}
